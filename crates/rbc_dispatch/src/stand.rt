//! The rows of a message: one for each variable, from its first bit to its last.

ghost use Rattle.std.specs.Prelude.{◌≡◌, ◌≤◌, drop, length};
ghost use Rattle.rbc_dispatch.specs.Variables.{after, beginning, behind, behind_variables, due, keeping, left_behind};
ghost use Rattle.rbc_dispatch.specs.Variables.{row_at};
ghost use Rattle.ertms_codec.specs.Texts.{is_number_to_train};
ghost use Rattle.rbc_dispatch.specs.Variables.{IsOfPosition};
ghost use Rattle.rbc_dispatch.specs.declared.stand.Stand.{Stand as StandAt};

use crate::variable::Variable;
use ertms_bits::BitReader;

/// A variable as it stands in a message.
#[derive(Clone, Copy)]
pub struct Row {
    /// The place of its first bit, from 0.
    pub place: u32,
    /// How many bits it takes.
    pub width: u32,
    /// Which it is.
    pub variable: Variable,
    /// The last Q_SCALE before it, or 0.
    pub scale: u32,
    /// The number that its bits stand for.
    pub value: u32,
}

/// What is known of a message at a place in it.
#[derive(Clone, Copy)]
pub struct Stand {
    /// What stands next.
    pub next: Variable,
    /// NID_MESSAGE.
    pub message: u32,
    /// NID_PACKET of the last packet that has begun.
    pub packet: u32,
    /// Whether no L_PACKET has come yet.
    pub is_first: bool,
    /// How many bits of that packet are left.
    pub left: u32,
    /// The last Q_SCALE, or 0.
    pub scale: u32,
}

impl Stand {
    /// The beginning of a message.
    pub fn beginning() -> Stand
        ensures { result ≡ beginning }
    {
        Stand {
            next: Variable::NidMessage,
            message: 0,
            packet: 0,
            is_first: true,
            left: 0,
            scale: 0,
        }
    }

    /// Takes the row of what stands next, at this place, from the bits that are left, of which there is one at least.
    pub fn row(self, place: u32, bits: &mut BitReader<'_>) -> Row
        requires { 1 ≤ length bits.old }
        ensures row { result ≡ row_at place self bits.old }
        ensures rest { bits.new ≡ drop result.width bits.old }
        ensures some { 1 ≤ result.width }
        ensures within { result.width ≤ length bits.old }
        ensures few { result.width ≤ 32 }
    {
        let count = bits.left();
        let variable = due(self.next, count);
        let width = variable.width(self.left).min(count.min(32) as u32);
        let value = bits.take(width).unwrap_or(0) as u32;
        Row {
            place,
            width,
            variable,
            scale: self.scale,
            value,
        }
    }

    /// What is known after a row.
    pub fn after(self, row: Row) -> Stand
        ensures { result ≡ after self row }
    {
        let left = left_behind(row.variable, row.value, row.width, self.left);
        let kept = keeping(row.variable, row.value, self);
        Stand {
            left,
            next: behind(row.variable, row.value, left, self),
            ..kept
        }
    }
}

/// What stands at a place with `count` bits of the message left. Where a packet could begin, fewer than 8 bits fill the
/// message up.
fn due(next: Variable, count: usize) -> Variable
    ensures { result ≡ due next count }
{
    match next {
        Variable::NidPacket if count < 8 => Variable::Fill,
        variable => variable,
    }
}

/// How many bits of the packet are left after a variable: L_PACKET counts them, from the packet's first bit on.
fn left_behind(variable: Variable, value: u32, width: u32, left: u32) -> u32
    ensures { result ≡ left_behind variable value width left }
{
    match variable {
        Variable::LPacket => value.saturating_sub(21),
        _ => left.saturating_sub(width),
    }
}

/// Keeps a value that later variables depend on.
fn keeping(variable: Variable, value: u32, at: Stand) -> Stand
    ensures { result ≡ keeping variable value at }
{
    match variable {
        Variable::NidMessage => Stand {
            message: value,
            ..at
        },
        Variable::NidPacket => Stand {
            packet: value,
            ..at
        },
        Variable::QScale => Stand { scale: value, ..at },
        Variable::LPacket => Stand {
            is_first: false,
            ..at
        },
        _ => at,
    }
}

/// What follows a variable with this value, if `left` bits of its packet are left.
fn behind(variable: Variable, value: u32, left: u32, at: Stand) -> Variable
    ensures { result ≡ behind variable value left at }
{
    match variable {
        Variable::NidMessage => Variable::LMessage,
        Variable::LMessage => Variable::TTrain,
        Variable::TTrain => behind_stamp(at),
        Variable::MAck => Variable::NidLrbg,
        Variable::NidEngine => behind_engine(at),
        Variable::NidEm => behind_identifier(at),
        Variable::QScale => behind_scale(at),
        Variable::DRef => Variable::QDir,
        Variable::QDir if at.message == 15 => Variable::DEmergencystop,
        Variable::QDir => Variable::LPacket,
        Variable::NidPacket if at.message == 24 => Variable::QDir,
        Variable::NidPacket => Variable::LPacket,
        Variable::LPacket => behind_length(left, at),
        Variable::NidTsr if at.packet == 65 => Variable::DTsr,
        Variable::DTsr => Variable::LTsr,
        Variable::LTsr => Variable::QFront,
        Variable::QFront => Variable::VTsr,
        Variable::QEmergencystop | Variable::VTsr | Variable::NidTsr => Variable::NidPacket,
        Variable::TTrainAcked | Variable::DEmergencystop | Variable::Fill => Variable::Fill,
        Variable::NidLrbg => behind_group(at),
        Variable::NidPrvlrbg
        | Variable::DLrbg
        | Variable::QDirlrbg
        | Variable::QDlrbg
        | Variable::LDoubtover
        | Variable::LDoubtunder
        | Variable::QLength
        | Variable::LTrainint
        | Variable::VTrain
        | Variable::QDirtrain
        | Variable::MMode
        | Variable::MLevel
        | Variable::NidNtc
        | Variable::Passed => behind_position(variable, value, left),
    }
}

/// What follows T_TRAIN: the headers of messages to a train and from a train differ after it.
fn behind_stamp(at: Stand) -> Variable
    ensures { result ≡ behind Variable.TTrain 0 0 at }
{
    if is_to_train(at.message) {
        Variable::MAck
    } else {
        Variable::NidEngine
    }
}

/// What follows the header of a message from a train.
fn behind_engine(at: Stand) -> Variable
    ensures { result ≡ behind Variable.NidEngine 0 0 at }
{
    if at.message == 146 {
        Variable::TTrainAcked
    } else if at.message == 147 {
        Variable::NidEm
    } else {
        Variable::NidPacket
    }
}

/// What follows the identifier of an emergency stop.
fn behind_identifier(at: Stand) -> Variable
    ensures { result ≡ behind Variable.NidEm 0 0 at }
{
    if at.message == 15 {
        Variable::QScale
    } else if at.message == 147 {
        Variable::QEmergencystop
    } else {
        Variable::Fill
    }
}

/// What follows Q_SCALE.
fn behind_scale(at: Stand) -> Variable
    ensures { result ≡ behind Variable.QScale 0 0 at }
{
    if at.message == 15 {
        Variable::DRef
    } else if at.message == 24 {
        Variable::NidTsr
    } else {
        Variable::NidLrbg
    }
}

/// What follows L_PACKET, if `left` bits of the packet are left. The first packet from a train is its position; the
/// others are passed over.
fn behind_length(left: u32, at: Stand) -> Variable
    ensures { result ≡ behind Variable.LPacket 0 left at }
{
    if at.message == 24 {
        if at.packet == 65 {
            return Variable::QScale;
        }
        return Variable::NidTsr;
    }
    if at.is_first {
        return Variable::QScale;
    }
    behind_variables(left)
}

/// What follows NID_LRBG.
fn behind_group(at: Stand) -> Variable
    ensures { result ≡ behind Variable.NidLrbg 0 0 at }
{
    if at.message == 24 {
        Variable::NidPacket
    } else if is_to_train(at.message) {
        Variable::NidEm
    } else if at.packet == 1 {
        Variable::NidPrvlrbg
    } else {
        Variable::DLrbg
    }
}

/// What follows the last variable of a packet: its further bits, or the next packet.
fn behind_variables(left: u32) -> Variable
    ensures { result ≡ behind_variables left }
{
    if left == 0 {
        Variable::NidPacket
    } else {
        Variable::Passed
    }
}

/// Whether a message of this number goes to a train.
fn is_to_train(message: u32) -> bool
    ensures { result ≡ is_number_to_train message }
{
    message == 15 || message == 16 || message == 18 || message == 24
}

/// What follows a variable that is only in the position of a train, or bits that are passed over.
fn behind_position(variable: Variable, value: u32, left: u32) -> Variable
    ensures { IsOfPosition variable → (at : StandAt) → result ≡ behind variable value left at }
{
    match variable {
        Variable::NidPrvlrbg => Variable::DLrbg,
        Variable::DLrbg => Variable::QDirlrbg,
        Variable::QDirlrbg => Variable::QDlrbg,
        Variable::QDlrbg => Variable::LDoubtover,
        Variable::LDoubtover => Variable::LDoubtunder,
        Variable::LDoubtunder => Variable::QLength,
        Variable::QLength if value == 1 || value == 2 => Variable::LTrainint,
        Variable::QLength | Variable::LTrainint => Variable::VTrain,
        Variable::VTrain => Variable::QDirtrain,
        Variable::QDirtrain => Variable::MMode,
        Variable::MMode => Variable::MLevel,
        Variable::MLevel if value == 1 => Variable::NidNtc,
        _ => behind_variables(left),
    }
}
