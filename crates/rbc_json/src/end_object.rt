//! The object of the end of a run: the track, sums, what is active, and each train.

ghost use Rattle.std.specs.Prelude.{◌≡◌, IfOk, OnOk, string_bytes};
ghost use Rattle.rbc_account.specs.LogSections.{IsPushed};
ghost use Rattle.rbc_account.specs.Standings.{IsStanding};
ghost use Rattle.rbc_json.specs.Lists.{IsAny};
ghost use Rattle.rbc_json.specs.Json.{json_text, opened, closed};
ghost use Rattle.rbc_json.specs.Objects.{HasSums, sums_object, input_fields, outstanding_fields};

use crate::effect::segments_text;
use crate::identifier::{RestrictionIdentifier, StopIdentifier};
use crate::list::ListText;
use crate::not_told::NotToldObject;
use crate::shapes::{EndWord, PlaceOrNull, SegmentObject, VERSION, WaysWord};
use crate::text::{name_text, null_text};
use rbc_account::{Account, Sharing, Standing, TrainStanding};
use rbc_explain::RULES;
use rbc_settle::TrainRec;
use rbc_track_report::NamedTrack;
use rbc_zones::Limit;
use std::alloc::{AllocError, Global};
use std::fmt;

/// Adds the object of the end, in a line of its own. The objects of trains are added one after another.
pub(crate) fn push_end(
    alloc: Global,
    log: &mut Vec<u8>,
    named: &NamedTrack,
    account: &Account,
    standing: &Standing,
) -> Result<(), AllocError>
    requires { IsStanding account.now.desk.track.horizon account.now.desk.records standing.now }
    ensures { OnOk result (IsPushed (HasSums account.now.desk.track.horizon account.now.desk.records account.now.sums)
        log.old.items log.new.items) }
{
    let head = head_text(alloc, named, account, standing)?;
    log.extend_from_slice(head.as_bytes())?;
    push_trains(alloc, log, account, &standing.trains)?;
    log.extend_from_slice(b"]}\n")
}

/// Adds the objects of the trains, with commas between them.
fn push_trains(
    alloc: Global,
    log: &mut Vec<u8>,
    account: &Account,
    trains: &[TrainStanding],
) -> Result<(), AllocError>
    ensures { OnOk result (IsPushed IsAny log.old.items log.new.items) }
{
    for index in 0..trains.len() {
        push_train(alloc, log, account, index, &trains[index])?;
    }
    Ok(())
}

/// Adds the object of the train at an index, behind a comma if it is not the first.
fn push_train(
    alloc: Global,
    log: &mut Vec<u8>,
    account: &Account,
    index: usize,
    standing: &TrainStanding,
) -> Result<(), AllocError>
    ensures { OnOk result (IsPushed IsAny log.old.items log.new.items) }
{
    let train = train_text(alloc, account, standing)?;
    log.extend_from_slice(comma_before(index))?;
    log.extend_from_slice(train.as_bytes())
}

/// The comma before the object at an index, which the first one does not have.
fn comma_before(index: usize) -> &'static [u8] {
    if index == 0 { b"" } else { b"," }
}

/// What stands before the first train.
fn head_text(
    alloc: Global,
    named: &NamedTrack,
    account: &Account,
    standing: &Standing,
) -> Result<String, AllocError>
    requires { IsStanding account.now.desk.track.horizon account.now.desk.records standing.now }
    ensures { IfOk result (λ text. HasSums account.now.desk.track.horizon account.now.desk.records account.now.sums
        (string_bytes text)) }
{
    let front = front_text(alloc, named)?;
    let sums = sums_text(alloc, account, standing)?;
    let active = active_text(alloc, account, standing)?;
    format!(in alloc; "{front}{sums}{active}")
}

/// How the object of the end begins, up to the sums.
fn front_text(alloc: Global, named: &NamedTrack) -> Result<String, AllocError> {
    let track = track_text(alloc, named)?;
    format!(in alloc;
        "{{\"version\":{VERSION},\"type\":\"end\",\"rules\":{RULES},\"track\":{track},\"counts\":"
    )
}

/// What is active, and how the list of the trains begins.
fn active_text(
    alloc: Global,
    account: &Account,
    standing: &Standing,
) -> Result<String, AllocError> {
    let (last_stop, last_restriction) = (account.last_stop(), account.last_limit());
    let stops = stops_text(alloc, account, &standing.stops)?;
    let restrictions = restrictions_text(alloc, account, &standing.limits)?;
    format!(in alloc;
        ",\"last_stop\":{last_stop},\"stops\":{stops},\"last_restriction\":{last_restriction},\
         \"restrictions\":{restrictions},\"trains\":["
    )
}

/// The track.
fn track_text(alloc: Global, named: &NamedTrack) -> Result<String, AllocError> {
    let mut lines = ListText::new(alloc)?;
    for (index, line) in named.lines.iter().enumerate() {
        let (name, length, groups) = (name_text(alloc, &line.name)?, line.length, line.groups);
        let line = format!(in alloc;
            "{{\"line\":{index},\"name\":{name},\"length\":{length},\"counts\":{{\"balise_groups\":{groups}}}}}"
        )?;
        lines.add(&line)?;
    }
    let (name, lines) = (name_text(alloc, &named.name)?, lines.ended()?);
    let (horizon, groups, warnings) = (named.horizon, named.groups.len(), named.warnings);
    format!(in alloc;
        "{{\"name\":{name},\"horizon\":{horizon},\"lines\":{lines},\
         \"counts\":{{\"balise_groups\":{groups},\"warnings\":{warnings}}}}}"
    )
}

/// How many inputs there were, what came of them, and what is outstanding.
fn sums_text(alloc: Global, account: &Account, standing: &Standing) -> Result<String, AllocError>
    ensures { IfOk result (λ text. string_bytes text ≡ json_text (sums_object account.now.sums standing.now)) }
{
    let inputs = inputs_text(alloc, account)?;
    let outstanding = outstanding_text(alloc, standing)?;
    format!(in alloc; "{inputs}{outstanding}")
}

/// How many inputs there were, and what came of them.
fn inputs_text(alloc: Global, account: &Account) -> Result<String, AllocError>
    ensures { IfOk result (λ text. string_bytes text ≡ opened (input_fields account.now.sums)) }
{
    let (inputs, accepted) = (account.inputs(), account.sums.accepted);
    let (refused, messages) = (account.sums.refused, account.sums.messages);
    format!(in alloc;
        "{{\"inputs\":{inputs},\"accepted\":{accepted},\"refused\":{refused},\"messages\":{messages}"
    )
}

/// What is outstanding.
fn outstanding_text(alloc: Global, standing: &Standing) -> Result<String, AllocError>
    ensures { IfOk result (λ text. string_bytes text ≡ closed (outstanding_fields standing.now)) }
{
    let (outstanding, trains) = (standing.acknowledgements, standing.owing);
    let (untold, untold_again) = (standing.untold, standing.untold_again);
    format!(in alloc;
        ",\"outstanding\":{outstanding},\"outstanding_trains\":{trains},\"not_told\":{untold},\
         \"not_told_again\":{untold_again}}}"
    )
}

/// To how many trains a stop or a restriction is told.
#[derive(Clone, Copy)]
struct SharingObject(Sharing);

impl fmt::Display for SharingObject {
    fn fmt<W: fmt::Write>(&self, f: &mut fmt::Formatter<W>) -> fmt::Result {
        let Sharing {
            told,
            answered,
            untold,
            ..
        } = self.0;
        write!(
            f,
            "{{\"told\":{told},\"acknowledged\":{answered},\"not_told\":{untold}}}"
        )
    }
}

/// The list of the active stops.
fn stops_text(alloc: Global, account: &Account, sharing: &[Sharing]) -> Result<String, AllocError> {
    let mut list = ListText::new(alloc)?;
    for (stop, shared) in account.stops().iter().zip(sharing) {
        let (number, counts) = (stop.0, SharingObject(*shared));
        let segments = segments_text(alloc, stop.1.segments())?;
        let stop = format!(in alloc;
            "{{\"stop\":{number},\"segments\":{segments},\"counts\":{counts}}}"
        )?;
        list.add(&stop)?;
    }
    list.ended()
}

/// The list of the active restrictions.
fn restrictions_text(
    alloc: Global,
    account: &Account,
    sharing: &[Sharing],
) -> Result<String, AllocError> {
    let mut list = ListText::new(alloc)?;
    for (limit, shared) in account.limits().iter().zip(sharing) {
        list.add(&RestrictionObject {
            number: limit.0,
            limit: limit.1,
            shared: *shared,
        })?;
    }
    list.ended()
}

/// An active restriction.
#[derive(Clone, Copy)]
struct RestrictionObject {
    number: u32,
    limit: Limit,
    shared: Sharing,
}

impl fmt::Display for RestrictionObject {
    fn fmt<W: fmt::Write>(&self, f: &mut fmt::Formatter<W>) -> fmt::Result {
        let (number, counts) = (self.number, SharingObject(self.shared));
        let (segment, ways) = (
            SegmentObject(self.limit.segment()),
            WaysWord(self.limit.dirs()),
        );
        let (speed, end) = (self.limit.speed(), EndWord(self.limit.front()));
        write!(
            f,
            "{{\"restriction\":{number},\"segment\":{segment},\"ways\":{ways},\"speed\":{speed},\
             \"ends_with\":{end},\"counts\":{counts}}}"
        )
    }
}

/// A train: where it may be, what its identifiers are held for, and what waits.
fn train_text(
    alloc: Global,
    account: &Account,
    standing: &TrainStanding,
) -> Result<String, AllocError> {
    let Some(train) = account.train(standing.engine) else {
        return null_text(alloc);
    };
    let (engine, length, place) = (train.engine, train.length, PlaceOrNull(train.place));
    let identifiers = identifiers_text(alloc, account, train)?;
    let outstanding = standing.acknowledgements;
    let not_told = not_told_text(alloc, standing)?;
    format!(in alloc;
        "{{\"engine\":{engine},\"length\":{length},\"place\":{place},\"identifiers\":{identifiers},\
         \"counts\":{{\"outstanding\":{outstanding}}},\"not_told\":{not_told}}}"
    )
}

/// The list of the identifiers of a train that are not free, those of stops first.
fn identifiers_text(
    alloc: Global,
    account: &Account,
    train: &TrainRec,
) -> Result<String, AllocError> {
    let mut list = ListText::new(alloc)?;
    for (id, slot) in train.stops.slots() {
        list.add(&StopIdentifier::of(account, train.engine, *id, *slot))?;
    }
    for (id, slot) in train.limits.slots() {
        list.add(&RestrictionIdentifier::of(account, train.engine, *id, *slot))?;
    }
    list.ended()
}

/// The list of what waits at a train.
fn not_told_text(alloc: Global, standing: &TrainStanding) -> Result<String, AllocError> {
    let mut list = ListText::new(alloc)?;
    for waiting in &standing.waiting {
        list.add(&NotToldObject {
            engine: standing.engine,
            waiting: *waiting,
        })?;
    }
    list.ended()
}
