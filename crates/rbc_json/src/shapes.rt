//! The version, places, stretches and ways, as all objects have them.

use rbc_place::Place;
use rbc_track::Way;
use rbc_zones::{Dirs, Segment};
use std::fmt;

/// The version of the form of the objects.
pub(crate) const VERSION: u8 = 1;

/// T_TRAIN that is unknown.
const UNKNOWN_STAMP: u32 = 4_294_967_295;

/// That there is no value.
#[derive(Clone, Copy)]
pub(crate) struct NullValue;

impl fmt::Display for NullValue {
    ghost use Rattle.std.specs.Prelude.{Some};
    ghost use Rattle.rbc_json.specs.Json.{Null, json_text};

    ghost output = { λ shown. Some (json_text Null) };

    fn fmt<W: fmt::Write>(&self, f: &mut fmt::Formatter<W>) -> fmt::Result {
        write!(f, "null")
    }
}

/// A stretch.
#[derive(Clone, Copy)]
pub(crate) struct SegmentObject(pub Segment);

impl fmt::Display for SegmentObject {
    ghost use Rattle.std.specs.Prelude.{Some};
    ghost use Rattle.rbc_json.specs.Json.{json_text};
    ghost use Rattle.rbc_json.specs.Shapes.{segment_object};

    ghost output = { λ shown. Some (json_text (segment_object shown.0)) };

    fn fmt<W: fmt::Write>(&self, f: &mut fmt::Formatter<W>) -> fmt::Result {
        let Segment { line, from, to } = self.0;
        write!(f, "{{\"line\":{line},\"from\":{from},\"to\":{to}}}")
    }
}

/// A way.
#[derive(Clone, Copy)]
pub(crate) struct WayWord(pub Way);

impl fmt::Display for WayWord {
    ghost use Rattle.std.specs.Prelude.{Some};
    ghost use Rattle.rbc_json.specs.Json.{json_text};
    ghost use Rattle.rbc_json.specs.Shapes.{way_word};

    ghost output = { λ shown. Some (json_text (way_word shown.0)) };

    fn fmt<W: fmt::Write>(&self, f: &mut fmt::Formatter<W>) -> fmt::Result {
        match self.0 {
            Way::Up => write!(f, "\"up\""),
            Way::Down => write!(f, "\"down\""),
        }
    }
}

/// The ways of the trains that a restriction is for.
#[derive(Clone, Copy)]
pub(crate) struct WaysWord(pub Dirs);

impl fmt::Display for WaysWord {
    ghost use Rattle.std.specs.Prelude.{Some};
    ghost use Rattle.rbc_json.specs.Json.{json_text};
    ghost use Rattle.rbc_json.specs.Shapes.{ways_word};

    ghost output = { λ shown. Some (json_text (ways_word shown.0)) };

    fn fmt<W: fmt::Write>(&self, f: &mut fmt::Formatter<W>) -> fmt::Result {
        match self.0 {
            Dirs::Up => write!(f, "\"up\""),
            Dirs::Down => write!(f, "\"down\""),
            Dirs::Both => write!(f, "\"both\""),
        }
    }
}

/// With which end of the train a restriction ends, by its Q_FRONT.
#[derive(Clone, Copy)]
pub(crate) struct EndWord(pub bool);

impl fmt::Display for EndWord {
    ghost use Rattle.std.specs.Prelude.{Some};
    ghost use Rattle.rbc_json.specs.Json.{json_text};
    ghost use Rattle.rbc_json.specs.Shapes.{end_word};

    ghost output = { λ shown. Some (json_text (end_word shown.0)) };

    fn fmt<W: fmt::Write>(&self, f: &mut fmt::Formatter<W>) -> fmt::Result {
        match self.0 {
            true => write!(f, "\"front\""),
            false => write!(f, "\"rear\""),
        }
    }
}

/// Where a train may be: the values of a place.
#[derive(Clone, Copy)]
pub(crate) struct PlaceObject {
    line: u8,
    from: u32,
    to: u32,
    facing: Way,
    group: u32,
    at: u32,
}

impl PlaceObject {
    ghost use Rattle.std.specs.Prelude.{◌≡◌};
    ghost use Rattle.rbc_json.specs.Places.{place_fields};

    /// The values of a place.
    fn of(place: &Place) -> PlaceObject
        ensures { result ≡ place_fields place.now }
    {
        PlaceObject {
            line: place.line(),
            from: place.lo(),
            to: place.hi(),
            facing: place.facing(),
            group: place.lrbg(),
            at: place.at(),
        }
    }
}

impl fmt::Display for PlaceObject {
    ghost use Rattle.std.specs.Prelude.{Some};
    ghost use Rattle.rbc_json.specs.Json.{json_text};
    ghost use Rattle.rbc_json.specs.Places.{fields_object};

    ghost output = { λ shown. Some (json_text (fields_object shown)) };

    fn fmt<W: fmt::Write>(&self, f: &mut fmt::Formatter<W>) -> fmt::Result {
        let PlaceObject {
            line,
            from,
            to,
            facing,
            group,
            at,
        } = *self;
        let facing = WayWord(facing);
        write!(
            f,
            "{{\"line\":{line},\"from\":{from},\"to\":{to},\"facing\":{facing},\"balise_group\":{group},\"at\":{at}}}"
        )
    }
}

/// Where a train may be, or that it has no place.
#[derive(Clone, Copy)]
pub(crate) struct PlaceOrNull(pub Option<Place>);

impl fmt::Display for PlaceOrNull {
    ghost use Rattle.std.specs.Prelude.{Some};
    ghost use Rattle.rbc_json.specs.Json.{json_text};
    ghost use Rattle.rbc_json.specs.Places.{place_or_null};

    ghost output = { λ shown. Some (json_text (place_or_null shown.0)) };

    fn fmt<W: fmt::Write>(&self, f: &mut fmt::Formatter<W>) -> fmt::Result {
        match self.0 {
            Some(place) => {
                let place = PlaceObject::of(&place);
                write!(f, "{place}")
            }
            None => write!(f, "null"),
        }
    }
}

/// A number, if there is one.
#[derive(Clone, Copy)]
pub(crate) struct NumberOrNull(pub Option<u64>);

impl NumberOrNull {
    ghost use Rattle.std.specs.Prelude.{◌≡◌};

    /// A number of 32 bits, if there is one.
    pub(crate) fn of(number: Option<u32>) -> Self
        ensures { result.0 ≡ number }
    {
        match number {
            Some(number) => NumberOrNull(Some(u64::from(number))),
            None => NumberOrNull(None),
        }
    }

    /// The stamp of a message from a train, if it is known.
    pub(crate) fn of_stamp(stamp: u32) -> Self
        ensures { result.0 ≡ known_stamp stamp }
    {
        if stamp == UNKNOWN_STAMP {
            NumberOrNull(None)
        } else {
            NumberOrNull(Some(u64::from(stamp)))
        }
    }

    ghost use Rattle.rbc_json.specs.Shapes.{known_stamp};
}

impl fmt::Display for NumberOrNull {
    ghost use Rattle.std.specs.Prelude.{Some};
    ghost use Rattle.rbc_json.specs.Json.{json_text};
    ghost use Rattle.rbc_json.specs.Shapes.{number_or_null};

    ghost output = { λ shown. Some (json_text (number_or_null shown.0)) };

    fn fmt<W: fmt::Write>(&self, f: &mut fmt::Formatter<W>) -> fmt::Result {
        match self.0 {
            Some(number) => write!(f, "{number}"),
            None => write!(f, "null"),
        }
    }
}
