//! The variables of messages, by their names in SUBSET-026.

ghost use Rattle.std.specs.Prelude.{◌≡◌};
ghost use Rattle.rbc_dispatch.specs.Columns.{to_the_left};
ghost use Rattle.rbc_dispatch.specs.Variables.{name_of, width_of};

/// A variable of a message, or bits that belong to no variable.
#[derive(Clone, Copy)]
pub enum Variable {
    /// NID_MESSAGE: the kind of message.
    NidMessage,
    /// L_MESSAGE: the bytes of the whole message.
    LMessage,
    /// T_TRAIN: when the message was sent.
    TTrain,
    /// M_ACK: whether the train has to acknowledge the message.
    MAck,
    /// NID_LRBG: the balise group from which the message, or the position, measures.
    NidLrbg,
    /// NID_ENGINE: the number of the on-board equipment.
    NidEngine,
    /// T_TRAIN: T_TRAIN of the message that is acknowledged.
    TTrainAcked,
    /// NID_EM: the identifier of the emergency stop.
    NidEm,
    /// Q_EMERGENCYSTOP: the answer to the emergency stop.
    QEmergencystop,
    /// Q_SCALE: the unit of the distances after it.
    QScale,
    /// D_REF: from the balise group to the point from which the message measures.
    DRef,
    /// Q_DIR: the direction for which the message, or the packet, is valid.
    QDir,
    /// D_EMERGENCYSTOP: the distance to the stop.
    DEmergencystop,
    /// NID_PACKET: the kind of packet.
    NidPacket,
    /// L_PACKET: the bits of the whole packet.
    LPacket,
    /// NID_TSR: the identifier of the restriction.
    NidTsr,
    /// D_TSR: the distance to the start of the restriction.
    DTsr,
    /// L_TSR: the length of the restriction.
    LTsr,
    /// Q_FRONT: whether the length of the train delays the end of the restriction.
    QFront,
    /// V_TSR: the speed of the restriction.
    VTsr,
    /// NID_PRVLRBG: the balise group before the last relevant one.
    NidPrvlrbg,
    /// D_LRBG: from the balise group to the front of the train.
    DLrbg,
    /// Q_DIRLRBG: how the train faces.
    QDirlrbg,
    /// Q_DLRBG: on which side of the balise group the front is.
    QDlrbg,
    /// L_DOUBTOVER: how far the train may be behind its estimated place.
    LDoubtover,
    /// L_DOUBTUNDER: how far the train may be beyond its estimated place.
    LDoubtunder,
    /// Q_LENGTH: whether the train is whole.
    QLength,
    /// L_TRAININT: the length of the train.
    LTrainint,
    /// V_TRAIN: the speed of the train.
    VTrain,
    /// Q_DIRTRAIN: the direction in which the train moves.
    QDirtrain,
    /// M_MODE: the mode of the on-board equipment.
    MMode,
    /// M_LEVEL: the level of operation.
    MLevel,
    /// NID_NTC: the national system.
    NidNtc,
    /// Bits of a packet that no reader looks at, up to 32 of them.
    Passed,
    /// Bits that fill the message up to a whole byte.
    Fill,
}

impl Variable {
    /// Its name, in a column of 15.
    pub fn column(self) -> &'static str
        ensures { result.now ≡ to_the_left 15 (name_of self) }
    {
        match self {
            Variable::NidMessage => "NID_MESSAGE    ",
            Variable::LMessage => "L_MESSAGE      ",
            Variable::TTrain | Variable::TTrainAcked => "T_TRAIN        ",
            Variable::MAck => "M_ACK          ",
            Variable::NidLrbg => "NID_LRBG       ",
            Variable::NidEngine => "NID_ENGINE     ",
            Variable::NidEm => "NID_EM         ",
            Variable::QEmergencystop => "Q_EMERGENCYSTOP",
            Variable::QScale => "Q_SCALE        ",
            Variable::DRef => "D_REF          ",
            Variable::QDir => "Q_DIR          ",
            Variable::DEmergencystop => "D_EMERGENCYSTOP",
            Variable::NidPacket => "NID_PACKET     ",
            Variable::LPacket => "L_PACKET       ",
            Variable::NidTsr => "NID_TSR        ",
            Variable::DTsr => "D_TSR          ",
            Variable::LTsr => "L_TSR          ",
            Variable::QFront => "Q_FRONT        ",
            Variable::VTsr => "V_TSR          ",
            Variable::NidPrvlrbg => "NID_PRVLRBG    ",
            Variable::DLrbg => "D_LRBG         ",
            Variable::QDirlrbg => "Q_DIRLRBG      ",
            Variable::QDlrbg => "Q_DLRBG        ",
            Variable::LDoubtover => "L_DOUBTOVER    ",
            Variable::LDoubtunder => "L_DOUBTUNDER   ",
            Variable::QLength => "Q_LENGTH       ",
            Variable::LTrainint => "L_TRAININT     ",
            Variable::VTrain => "V_TRAIN        ",
            Variable::QDirtrain => "Q_DIRTRAIN     ",
            Variable::MMode => "M_MODE         ",
            Variable::MLevel => "M_LEVEL        ",
            Variable::NidNtc => "NID_NTC        ",
            Variable::Passed | Variable::Fill => "-              ",
        }
    }

    /// How many bits it takes. `left` is how many bits are left of a packet whose further bits are passed over.
    pub fn width(self, left: u32) -> u32
        ensures { result ≡ width_of self left }
    {
        match self {
            Variable::MAck | Variable::QFront => 1,
            Variable::QEmergencystop
            | Variable::QScale
            | Variable::QDir
            | Variable::QDirlrbg
            | Variable::QDlrbg
            | Variable::QLength
            | Variable::QDirtrain => 2,
            Variable::MLevel => 3,
            Variable::NidEm | Variable::MMode => 4,
            Variable::VTsr | Variable::VTrain => 7,
            Variable::NidMessage | Variable::NidPacket | Variable::NidTsr | Variable::NidNtc => 8,
            Variable::LMessage => 10,
            Variable::LPacket => 13,
            Variable::DEmergencystop
            | Variable::DTsr
            | Variable::LTsr
            | Variable::DLrbg
            | Variable::LDoubtover
            | Variable::LDoubtunder
            | Variable::LTrainint => 15,
            Variable::DRef => 16,
            Variable::NidLrbg | Variable::NidEngine | Variable::NidPrvlrbg => 24,
            Variable::TTrain | Variable::TTrainAcked | Variable::Fill => 32,
            Variable::Passed => left.clamp(1, 32),
        }
    }
}
