//! The lists of engines: of all trains, of those on a line, and of those without a place.

ghost use Rattle.std.specs.Prelude.{◌≡◌, ◌∷◌, ◌++◌, [], false, OnOk, IsTrue};
ghost use Rattle.rbc_track.specs.Plan.{IsPlan};
ghost use Rattle.rbc_zones.specs.Segments.{is_good_segment};
ghost use Rattle.rbc_records.specs.declared.record.Key.TheVariants as key;
ghost use Rattle.rbc_settle.specs.Numbers.{has_number, with_number, without_number};
ghost use Rattle.rbc_rule.specs.Records.{engines_record, list_of};
ghost use Rattle.rbc_rule.specs.Lists.{is_list};

use rbc_records::{Key, Rec, Writes};
use rbc_settle::{Numbers, TrainRec};
use rbc_track::Track;
use rbc_zones::Segment;
use std::alloc::{AllocError, Global};

/// Returns the key of the list in which a train stands: that of its line, or that of the trains without a place.
pub fn list_of(train: &TrainRec) -> Key
    ensures list { result ≡ list_of train.now }
    ensures is_list { IsTrue (is_list result) }
{
    match &train.place {
        Some(place) => Key::Line(place.line()),
        None => Key::Unplaced,
    }
}

/// Says in its contract what every track satisfies: it has at most 64 lines.
fn keeps(track: &Track)
    ensures { IsPlan track.now }
{
    let _ = track.horizon();
}

/// Returns the key of the list of the trains on the line of a segment, which is good for the track.
pub(crate) fn line_of(track: &Track, segment: &Segment) -> Key
    requires { IsTrue (is_good_segment track.now segment.now) }
    ensures line { result ≡ key.Line segment.now.line }
    ensures is_list { IsTrue (is_list result) }
{
    keeps(track);
    Key::Line(segment.line as u8)
}

/// Returns the record of a list of engines, or `None` for an empty list.
pub fn engines_record(engines: Numbers) -> Option<Rec>
    ensures { result ≡ engines_record engines }
{
    if engines.len() == 0 {
        None
    } else {
        Some(Rec::Engines(engines))
    }
}

/// Writes a list with one more engine.
pub(crate) fn write_with(
    alloc: Global,
    list: Key,
    engines: &Numbers,
    engine: u32,
    writes: &mut Writes,
) -> Result<(), AllocError>
    requires { has_number engines.now engine ≡ false }
    ensures { OnOk result (writes.new ≡ writes.old ++ (list, engines_record (with_number engine engines.now)) ∷ []) }
{
    let engines = engines.copy_with(alloc, engine)?;
    writes.set(list, engines_record(engines))
}

/// Writes a list without an engine.
pub(crate) fn write_without(
    alloc: Global,
    list: Key,
    engines: &Numbers,
    engine: u32,
    writes: &mut Writes,
) -> Result<(), AllocError>
    ensures { OnOk result (writes.new ≡ writes.old ++ (list, engines_record (without_number engine engines.now)) ∷ []) }
{
    let engines = engines.copy_without(alloc, engine)?;
    writes.set(list, engines_record(engines))
}
