//! The names that variables have in the text of a message.

use std::fmt;

/// The name of a variable in the text of a message (own rule).
#[derive(Clone, Copy, Debug, PartialEq, Eq)]
pub enum Name {
    /// M_ACK.
    Ack,
    /// T_TRAIN of the message that is acknowledged.
    Acked,
    /// Q_EMERGENCYSTOP.
    Answer,
    /// Q_DIR, or Q_DIRLRBG.
    Dir,
    /// D_LRBG.
    Distance,
    /// NID_EM.
    Em,
    /// NID_ENGINE.
    Engine,
    /// Q_FRONT.
    Front,
    /// L_TSR.
    Length,
    /// NID_LRBG.
    Lrbg,
    /// L_DOUBTOVER.
    Over,
    /// NID_PRVLRBG.
    Previous,
    /// D_REF.
    Ref,
    /// Q_SCALE.
    Scale,
    /// Q_DLRBG.
    Side,
    /// V_TSR.
    Speed,
    /// T_TRAIN.
    Stamp,
    /// D_TSR.
    Start,
    /// D_EMERGENCYSTOP.
    Stop,
    /// NID_TSR.
    Tsr,
    /// L_DOUBTUNDER.
    Under,
}

impl Name {
    ghost use Rattle.std.specs.Prelude.{◌≡◌};
    ghost use Rattle.ertms_codec.specs.Names.{name_text};

    /// The name as it stands in a text.
    pub fn text(self) -> &'static str
        ensures { result.now ≡ name_text self }
    {
        match self {
            Name::Ack => "ack",
            Name::Acked => "acked",
            Name::Answer => "answer",
            Name::Dir => "dir",
            Name::Distance => "distance",
            Name::Em => "em",
            Name::Engine => "engine",
            Name::Front => "front",
            Name::Length => "length",
            Name::Lrbg => "lrbg",
            Name::Over => "over",
            Name::Previous => "previous",
            Name::Ref => "ref",
            Name::Scale => "scale",
            Name::Side => "side",
            Name::Speed => "speed",
            Name::Stamp => "stamp",
            Name::Start => "start",
            Name::Stop => "stop",
            Name::Tsr => "tsr",
            Name::Under => "under",
        }
    }
}

impl fmt::Display for Name {
    ghost use Rattle.std.specs.Prelude.{Some};
    ghost use Rattle.ertms_codec.specs.Names.{name_text};

    ghost output = { λ name. Some (name_text name) };

    fn fmt<W: fmt::Write>(&self, f: &mut fmt::Formatter<W>) -> fmt::Result {
        write!(f, "{}", self.text())
    }
}
