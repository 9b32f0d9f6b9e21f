//! What the value of a variable means, in words.

ghost use Rattle.std.specs.Prelude.{◌≡◌, ◌*◌};
ghost use Rattle.rbc_dispatch.specs.Meanings.{answer_words, distance_text, group_text, integrity_words, length_in};
ghost use Rattle.rbc_dispatch.specs.Meanings.{message_words, meaning_of, packet_words, reference_text, scale_words};
ghost use Rattle.rbc_dispatch.specs.Meanings.{text_of, time_text, way_words};

use crate::stand::Row;
use crate::variable::Variable;
use std::fmt;

/// What a value means. Its `Display` is the text for the user.
#[derive(Clone, Copy)]
pub enum Meaning {
    /// What these words say.
    Words(&'static str),
    /// This many bytes.
    Bytes(u32),
    /// This many bits.
    Bits(u32),
    /// This many units of 10 ms.
    Time(u32),
    /// A length in units of 10 cm.
    Length(u64),
    /// The same, in the other direction.
    Back(u64),
    /// This many units of 5 km/h.
    Speed(u32),
    /// A balise group: NID_C and NID_BG as one number.
    Group(u32),
}

impl fmt::Display for Meaning {
    ghost use Rattle.std.specs.Prelude.{Some};
    ghost use Rattle.rbc_dispatch.specs.Meanings.{text_of};

    ghost output = { λ meaning. Some (text_of meaning) };

    fn fmt<W: fmt::Write>(&self, f: &mut fmt::Formatter<W>) -> fmt::Result {
        match *self {
            Meaning::Words(words) => write!(f, "{words}"),
            Meaning::Bytes(count) => write!(f, "{count} bytes"),
            Meaning::Bits(count) => write!(f, "{count} bits"),
            Meaning::Time(count) => {
                let (whole, tenth, hundredth) = (count / 100, count / 10 % 10, count % 10);
                write!(f, "{whole}.{tenth}{hundredth} s")
            }
            Meaning::Length(length) => {
                let (whole, tenth) = (length / 10, length % 10);
                write!(f, "{whole}.{tenth} m")
            }
            Meaning::Back(length) => {
                let (whole, tenth) = (length / 10, length % 10);
                write!(f, "-{whole}.{tenth} m")
            }
            Meaning::Speed(count) => {
                let speed = u64::from(count) * 5;
                write!(f, "{speed} km/h")
            }
            Meaning::Group(group) => {
                let (country, number) = (group / 16384, group % 16384);
                write!(f, "NID_C {country}, NID_BG {number}")
            }
        }
    }
}

/// What the value in a row means.
pub fn meaning_in(row: Row) -> Meaning
    ensures { text_of result ≡ meaning_of row.variable row.scale row.value }
{
    let (scale, value) = (row.scale, row.value);
    match row.variable {
        Variable::NidMessage => Meaning::Words(message_words(value)),
        Variable::LMessage => Meaning::Bytes(value),
        Variable::LPacket => Meaning::Bits(value),
        Variable::TTrain | Variable::TTrainAcked => time(value),
        Variable::MAck if value == 0 => Meaning::Words("the train need not acknowledge it"),
        Variable::MAck => Meaning::Words("the train has to acknowledge it"),
        Variable::NidLrbg | Variable::NidPrvlrbg => group(value),
        Variable::QScale => Meaning::Words(scale_words(value)),
        Variable::DRef => reference(scale, value),
        Variable::QDir => Meaning::Words(way_words("both", value)),
        Variable::QDirlrbg | Variable::QDlrbg | Variable::QDirtrain => {
            Meaning::Words(way_words("unknown", value))
        }
        Variable::DEmergencystop | Variable::DTsr | Variable::LTsr => {
            Meaning::Length(length(scale, value))
        }
        Variable::DLrbg | Variable::LDoubtover | Variable::LDoubtunder => distance(scale, value),
        Variable::LTrainint => Meaning::Length(length(1, value)),
        Variable::VTsr | Variable::VTrain => Meaning::Speed(value),
        Variable::NidPacket => Meaning::Words(packet_words(value)),
        Variable::QEmergencystop => Meaning::Words(answer_words(value)),
        Variable::QFront if value == 0 => Meaning::Words("the train's length delays the end"),
        Variable::QFront => Meaning::Words("the train's length does not delay the end"),
        Variable::QLength => Meaning::Words(integrity_words(value)),
        Variable::NidEngine => Meaning::Words("on-board equipment"),
        Variable::NidEm => Meaning::Words("identifier of the emergency stop"),
        Variable::NidTsr => Meaning::Words("identifier of the restriction"),
        Variable::MMode => Meaning::Words("mode of the on-board equipment"),
        Variable::MLevel => Meaning::Words("level of operation"),
        Variable::NidNtc => Meaning::Words("national system"),
        Variable::Passed => Meaning::Words("passed over"),
        Variable::Fill => Meaning::Words("fill bits"),
    }
}

/// The name of a kind of message.
fn message_words(number: u32) -> &'static str
    ensures { result.now ≡ message_words number }
{
    match number {
        15 => "conditional emergency stop",
        16 => "unconditional emergency stop",
        18 => "revocation of an emergency stop",
        24 => "general message",
        136 => "train position report",
        146 => "acknowledgement",
        147 => "acknowledgement of an emergency stop",
        _ => "another message",
    }
}

/// The name of a kind of packet.
fn packet_words(number: u32) -> &'static str
    ensures { result.now ≡ packet_words number }
{
    match number {
        0 => "position",
        1 => "position by two balise groups",
        65 => "temporary speed restriction",
        66 => "revocation of a restriction",
        _ => "another packet",
    }
}

/// The unit of distances.
fn scale_words(scale: u32) -> &'static str
    ensures { result.now ≡ scale_words scale }
{
    match scale {
        0 => "in units of 10 cm",
        1 => "in units of 1 m",
        2 => "in units of 10 m",
        _ => "spare",
    }
}

/// A direction, seen from a balise group.
fn way_words(both: &'static str, way: u32) -> &'static str
    ensures { result.now ≡ way_words both.now way }
{
    match way {
        0 => "reverse",
        1 => "nominal",
        2 => both,
        _ => "spare",
    }
}

/// The answer to an emergency stop.
fn answer_words(answer: u32) -> &'static str
    ensures { result.now ≡ answer_words answer }
{
    match answer {
        0 => "conditional stop accepted, end of authority changed",
        1 => "conditional stop accepted, no change",
        2 => "unconditional stop accepted",
        _ => "stop rejected",
    }
}

/// Whether the train is whole.
fn integrity_words(integrity: u32) -> &'static str
    ensures { result.now ≡ integrity_words integrity }
{
    match integrity {
        0 => "nothing is known of whether the train is whole",
        1 | 2 => "the train is whole",
        _ => "the train is not whole",
    }
}

fn time(stamp: u32) -> Meaning
    ensures { text_of result ≡ time_text stamp }
{
    if stamp == 4_294_967_295 {
        Meaning::Words("unknown")
    } else {
        Meaning::Time(stamp)
    }
}

fn group(number: u32) -> Meaning
    ensures { text_of result ≡ group_text number }
{
    if number == 16_777_215 {
        Meaning::Words("unknown")
    } else {
        Meaning::Group(number)
    }
}

/// A distance of which 32767 units are unknown.
fn distance(scale: u32, value: u32) -> Meaning
    ensures { text_of result ≡ distance_text scale value }
{
    if value == 32_767 {
        Meaning::Words("unknown")
    } else {
        Meaning::Length(length(scale, value))
    }
}

/// A distance of 16 bits in two's complement.
fn reference(scale: u32, value: u32) -> Meaning
    ensures { text_of result ≡ reference_text scale value }
{
    if value < 32_768 {
        Meaning::Length(length(scale, value))
    } else {
        Meaning::Back(length(scale, 65_536_u32.saturating_sub(value)))
    }
}

/// A length of this many units of Q_SCALE, in units of 10 cm.
fn length(scale: u32, value: u32) -> u64
    ensures { result ≡ length_in scale value }
{
    match scale {
        1 => u64::from(value) * 10,
        2 => u64::from(value) * 100,
        _ => u64::from(value),
    }
}
