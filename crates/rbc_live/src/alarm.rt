//! The alarms of one train, and the lines that tell how they change.

ghost use Rattle.std.specs.Prelude.{◌≡◌, ◌++◌, ◌∷◌, [], List, map, codes, OnOk, IfOk};
ghost use Rattle.std.specs.Fmt.{decimal};
ghost use Rattle.std.specs.List.{flat_map};
ghost use Rattle.rbc_live.specs.declared.alarm.Alarm.{Alarm};
ghost use Rattle.rbc_live.specs.declared.alarm.Alarm.TheVariants.{Untold};
ghost use Rattle.rbc_live.specs.declared.alarm.Change.{Change};
ghost use Rattle.rbc_live.specs.declared.alarm.Change.TheVariants.{Raised};
ghost use Rattle.rbc_live.specs.Alarms.{alarm_text, alarms_at, and_then, change_line, engine_lines, is_earlier, rank};
ghost use Rattle.rbc_live.specs.Alarms.{same_alarm};

use crate::waiting::{Waiting, Waits, all_waiting};
use rbc_settle::TrainRec;
use rbc_text::push_decimal;
use rbc_zones::{Area, Limit};
use std::alloc::{AllocError, Global};

/// An alarm of one train: what is not as it should be.
#[derive(Clone, Copy)]
pub enum Alarm {
    /// The train has no place: each stop stops it, and no restriction is told to it.
    NoPlace,
    /// A stop or a restriction concerns the train and is not told to it, or a stop is due and is not told again.
    Untold(Waits),
}

impl Alarm {
    /// Its kind, in the order in which alarms of one train are written: 0 no place, 1 a stop that is not told, 2 a
    /// restriction that is not told, 3 a stop that was left unanswered and is not told again.
    pub fn kind(self) -> u8
        ensures { result ≡ (rank self).0 }
    {
        match self {
            Alarm::NoPlace => 0,
            Alarm::Untold(Waits::Stop(_)) => 1,
            Alarm::Untold(Waits::Restriction(_)) => 2,
            Alarm::Untold(Waits::Again(_)) => 3,
        }
    }

    /// The number of the stop or the restriction; 0 if the train has no place.
    pub fn number(self) -> u32
        ensures { result ≡ (rank self).1 }
    {
        match self {
            Alarm::NoPlace => 0,
            Alarm::Untold(what) => what.number(),
        }
    }

    /// Whether it is the same as another.
    fn is(self, other: Alarm) -> bool
        ensures { result ≡ same_alarm self other }
    {
        self.kind() == other.kind() && self.number() == other.number()
    }

    /// Whether it is written before another one.
    fn is_earlier(self, other: Alarm) -> bool
        ensures { result ≡ is_earlier self other }
    {
        self.kind() < other.kind()
            || (self.kind() == other.kind() && self.number() < other.number())
    }
}

/// How an alarm changes by an input.
#[derive(Clone, Copy)]
pub enum Change {
    /// It did not stand before the input, and stands after it.
    Raised(Alarm),
    /// It stood before the input, and does not after it.
    Cleared(Alarm),
}

/// The alarms of a train, by the active stops and restrictions, in their order.
pub(crate) fn alarms_at(
    alloc: Global,
    horizon: u32,
    stops: &[(u32, Area)],
    limits: &[(u32, Limit)],
    train: &TrainRec,
) -> Result<Vec<Alarm>, AllocError>
    ensures { IfOk result (λ alarms. alarms.items ≡ alarms_at horizon stops.now limits.now train.now) }
{
    let mut alarms = Vec::new(alloc);
    if train.place.is_none() {
        alarms.push(Alarm::NoPlace)?;
    }
    let waiting = all_waiting(alloc, horizon, stops, limits, train)?;
    alarms.append(&mut untold(alloc, &waiting)?)?;
    Ok(alarms)
}

/// An alarm for each thing that waits.
fn untold(alloc: Global, waiting: &[Waiting]) -> Result<Vec<Alarm>, AllocError>
    ensures { IfOk result (λ alarms. alarms.items ≡ map (λ one. Untold one.what) waiting.now) }
{
    waiting
        .iter()
        .map(|one| Alarm::Untold(one.what))
        .collect(alloc)
}

/// Appends a word and a number.
fn push_numbered(text: &mut Vec<u8>, word: &[u8], number: u32) -> Result<(), AllocError>
    ensures { OnOk result (text.new.items ≡ text.old.items ++ (word.now ++ decimal number)) }
{
    text.extend_from_slice(word)?;
    push_decimal(text, u64::from(number))
}

/// Appends what an alarm is.
fn push_alarm(text: &mut Vec<u8>, alarm: Alarm) -> Result<(), AllocError>
    ensures { OnOk result (text.new.items ≡ text.old.items ++ alarm_text alarm) }
{
    match alarm {
        Alarm::NoPlace => text.extend_from_slice(b"place"),
        Alarm::Untold(Waits::Stop(number)) => push_numbered(text, b"stop ", number),
        Alarm::Untold(Waits::Restriction(number)) => push_numbered(text, b"restriction ", number),
        Alarm::Untold(Waits::Again(number)) => push_numbered(text, b"answer ", number),
    }
}

/// Appends the line of an alarm that changes.
fn push_change(
    text: &mut Vec<u8>,
    input: u64,
    engine: u32,
    change: Change,
) -> Result<(), AllocError>
    ensures { OnOk result (text.new.items ≡ text.old.items ++ change_line input engine change) }
{
    push_decimal(text, input)?;
    let alarm = match change {
        Change::Raised(alarm) => {
            text.extend_from_slice(b" raised ")?;
            alarm
        }
        Change::Cleared(alarm) => {
            text.extend_from_slice(b" cleared ")?;
            alarm
        }
    };
    push_decimal(text, u64::from(engine))?;
    text.extend_from_slice(b" ")?;
    push_alarm(text, alarm)?;
    text.extend_from_slice(b"\n")
}

/// Appends the alarms that are raised before an old alarm in order, and the old alarm if it is cleared. Returns the
/// present alarms that come after it.
fn push_until<'a>(
    text: &mut Vec<u8>,
    input: u64,
    engine: u32,
    stood: Alarm,
    now: &'a [Alarm],
) -> Result<&'a [Alarm], AllocError>
    ensures { (later : List Alarm → List Change) → IfOk result (λ left. text.new.items
        ++ flat_map (change_line input engine) (later left.now)
        ≡ text.old.items ++ flat_map (change_line input engine) (and_then stood later now.now)) }
{
    let mut left = now;
    while let Some((first, behind)) = left.split_first() {
        if stood.is(*first) {
            return Ok(behind);
        }
        if stood.is_earlier(*first) {
            break;
        }
        push_change(text, input, engine, Change::Raised(*first))?;
        left = behind;
    }
    push_change(text, input, engine, Change::Cleared(stood))?;
    Ok(left)
}

/// Appends the lines of alarms that are raised.
fn push_raised(
    text: &mut Vec<u8>,
    input: u64,
    engine: u32,
    alarms: &[Alarm],
) -> Result<(), AllocError>
    ensures { OnOk result (text.new.items
        ≡ text.old.items ++ flat_map (change_line input engine) (map Raised alarms.now)) }
{
    for alarm in alarms {
        push_change(text, input, engine, Change::Raised(*alarm))?;
    }
    Ok(())
}

/// Appends the lines of the alarms of one train that change by an input. Both lists are in order.
pub(crate) fn push_changes(
    text: &mut Vec<u8>,
    input: u64,
    engine: u32,
    old: &[Alarm],
    new: &[Alarm],
) -> Result<(), AllocError>
    ensures { OnOk result (text.new.items ≡ text.old.items ++ engine_lines input engine old.now new.now) }
{
    let mut left = new;
    for stood in old {
        left = push_until(text, input, engine, *stood, left)?;
    }
    push_raised(text, input, engine, left)
}
