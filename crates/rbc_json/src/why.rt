//! Why a message was sent, as an object.

use crate::shapes::{SegmentObject, WaysWord};
use rbc_account::{WhyAtOnce, WhyRevoked, WhyTold};
use rbc_zones::Segment;
use std::fmt;

/// Why a train is told to stop before a place: an edge is the nearest one ahead of it.
#[derive(Clone, Copy)]
pub(crate) struct EdgeObject(pub u32);

impl fmt::Display for EdgeObject {
    ghost use Rattle.std.specs.Prelude.{Some};
    ghost use Rattle.rbc_json.specs.Json.{json_text};
    ghost use Rattle.rbc_json.specs.Reasons.{edge_object};

    ghost output = { λ shown. Some (json_text (edge_object shown.0)) };

    fn fmt<W: fmt::Write>(&self, f: &mut fmt::Formatter<W>) -> fmt::Result {
        let edge = self.0;
        write!(f, "{{\"reason\":\"edge_ahead\",\"edge\":{edge}}}")
    }
}

/// Why a train is told to stop at once.
#[derive(Clone, Copy)]
pub(crate) struct AtOnceObject(pub WhyAtOnce);

impl fmt::Display for AtOnceObject {
    ghost use Rattle.std.specs.Prelude.{Some};
    ghost use Rattle.rbc_json.specs.Json.{json_text};
    ghost use Rattle.rbc_json.specs.Reasons.{at_once_object};

    ghost output = { λ shown. Some (json_text (at_once_object shown.0)) };

    fn fmt<W: fmt::Write>(&self, f: &mut fmt::Formatter<W>) -> fmt::Result {
        match self.0 {
            WhyAtOnce::Unanswered { id } => {
                write!(f, "{{\"reason\":\"unanswered\",\"identifier\":{id}}}")
            }
            WhyAtOnce::NoPlace => write!(f, "{{\"reason\":\"no_place\"}}"),
            WhyAtOnce::Rejected => write!(f, "{{\"reason\":\"rejected\"}}"),
            WhyAtOnce::Overlaps(segment) => {
                let segment = SegmentObject(segment);
                write!(f, "{{\"reason\":\"overlap\",\"segment\":{segment}}}")
            }
            WhyAtOnce::BehindGroup { edge } => {
                write!(f, "{{\"reason\":\"edge_behind\",\"edge\":{edge}}}")
            }
        }
    }
}

/// Why a stop is revoked: the train left it unanswered under an identifier, or else it is released.
#[derive(Clone, Copy)]
pub(crate) struct StopRevokedObject {
    pub id: u8,
    pub unanswered: bool,
}

impl fmt::Display for StopRevokedObject {
    ghost use Rattle.std.specs.Prelude.{Some};
    ghost use Rattle.rbc_json.specs.Json.{json_text};
    ghost use Rattle.rbc_json.specs.Reasons.{stop_revoked_object};

    ghost output = { λ shown. Some (json_text (stop_revoked_object shown.id shown.unanswered)) };

    fn fmt<W: fmt::Write>(&self, f: &mut fmt::Formatter<W>) -> fmt::Result {
        let id = self.id;
        match self.unanswered {
            true => write!(f, "{{\"reason\":\"unanswered\",\"identifier\":{id}}}"),
            false => write!(f, "{{\"reason\":\"released\"}}"),
        }
    }
}

/// Why the restriction of a stretch is told.
#[derive(Clone, Copy)]
pub(crate) struct ToldObject {
    pub segment: Segment,
    pub why: WhyTold,
}

impl fmt::Display for ToldObject {
    ghost use Rattle.std.specs.Prelude.{Some};
    ghost use Rattle.rbc_json.specs.Json.{json_text};
    ghost use Rattle.rbc_json.specs.Reasons.{told_object};

    ghost output = { λ shown. Some (json_text (told_object shown.segment shown.why)) };

    fn fmt<W: fmt::Write>(&self, f: &mut fmt::Formatter<W>) -> fmt::Result {
        let segment = SegmentObject(self.segment);
        match self.why {
            WhyTold::Overlaps => write!(f, "{{\"reason\":\"overlap\",\"segment\":{segment}}}"),
            WhyTold::Ahead { distance } => write!(
                f,
                "{{\"reason\":\"ahead\",\"segment\":{segment},\"distance\":{distance}}}"
            ),
        }
    }
}

/// Why a restriction is revoked.
#[derive(Clone, Copy)]
pub(crate) struct RevokedObject(pub WhyRevoked);

impl fmt::Display for RevokedObject {
    ghost use Rattle.std.specs.Prelude.{Some};
    ghost use Rattle.rbc_json.specs.Json.{json_text};
    ghost use Rattle.rbc_json.specs.Reasons.{revoked_object};

    ghost output = { λ shown. Some (json_text (revoked_object shown.0)) };

    fn fmt<W: fmt::Write>(&self, f: &mut fmt::Formatter<W>) -> fmt::Result {
        match self.0 {
            WhyRevoked::Lifted => write!(f, "{{\"reason\":\"lifted\"}}"),
            WhyRevoked::Passed => write!(f, "{{\"reason\":\"passed\"}}"),
            WhyRevoked::OtherLine { restriction, .. } => {
                write!(f, "{{\"reason\":\"other_line\",\"line\":{restriction}}}")
            }
            WhyRevoked::OtherWay { dirs, .. } => {
                let ways = WaysWord(dirs);
                write!(f, "{{\"reason\":\"other_way\",\"ways\":{ways}}}")
            }
        }
    }
}
