//! Where a report places a train, as the values of three keys.

ghost use Rattle.std.specs.Prelude.{◌≡◌};
ghost use Rattle.rbc_json.specs.Effects.{place_in, front_in};

use rbc_account::{NoPlace, Placing};
use rbc_place::Place;
use std::fmt;

/// The place, if the report gives one.
pub(crate) fn place_in(placing: &Placing) -> Option<Place>
    ensures { result ≡ place_in placing.now }
{
    match placing {
        Placing::At { place, .. } => Some(*place),
        Placing::Nowhere(_) => None,
    }
}

/// The estimated front, if the report gives a place.
pub(crate) fn front_in(placing: &Placing) -> Option<u32>
    ensures { result ≡ front_in placing.now }
{
    match placing {
        Placing::At { front, .. } => Some(*front),
        Placing::Nowhere(_) => None,
    }
}

/// Why the report gives no place, if it gives none.
#[derive(Clone, Copy)]
pub(crate) struct NoPlaceOrNull(pub Placing);

impl fmt::Display for NoPlaceOrNull {
    ghost use Rattle.std.specs.Prelude.{Some};
    ghost use Rattle.rbc_json.specs.Json.{json_text};
    ghost use Rattle.rbc_json.specs.Effects.{no_place_or_null};

    ghost output = { λ shown. Some (json_text (no_place_or_null shown.0)) };

    fn fmt<W: fmt::Write>(&self, f: &mut fmt::Formatter<W>) -> fmt::Result {
        match self.0 {
            Placing::At { .. } => write!(f, "null"),
            Placing::Nowhere(NoPlace::TwoGroups) => {
                write!(f, "{{\"reason\":\"two_balise_groups\"}}")
            }
            Placing::Nowhere(NoPlace::Direction) => {
                write!(f, "{{\"reason\":\"unknown_direction\"}}")
            }
            Placing::Nowhere(NoPlace::Distance) => write!(f, "{{\"reason\":\"unknown_distance\"}}"),
            Placing::Nowhere(NoPlace::UnknownGroup(nid)) => {
                write!(
                    f,
                    "{{\"reason\":\"unknown_balise_group\",\"balise_group\":{nid}}}"
                )
            }
            Placing::Nowhere(NoPlace::OffLine(line)) => {
                write!(f, "{{\"reason\":\"off_line\",\"line\":{line}}}")
            }
        }
    }
}
