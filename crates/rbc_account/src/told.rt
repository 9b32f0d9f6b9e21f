//! Why a message was sent.

ghost use Rattle.std.specs.Prelude.{◌≡◌, ◌*◌, ◌≤◌, List, Option, Some, None, true, false, is_some};
ghost use Rattle.std.specs.Prelude.{IfOk, IfSome, option_copied};
ghost use Rattle.std.specs.Option.{option_map_or};
ghost use Rattle.rbc_maps.specs.Maps.{value_of};
ghost use Rattle.rbc_place.specs.Placing.{onward};
ghost use Rattle.rbc_zones.specs.declared.segment.Segment.{Segment};
ghost use Rattle.rbc_zones.specs.Concerns.{concern_of};
ghost use Rattle.rbc_settle.specs.Numbers.{has_number};
ghost use Rattle.rbc_settle.specs.Settling.{is_clear_of};
ghost use Rattle.std.specs.List.{All};
ghost use Rattle.rbc_settle.specs.declared.train.TrainRec.{TrainRec};
ghost use Rattle.rbc_account.specs.declared.told.ToldWhat.TheVariants.{StopAtOnce};
ghost use Rattle.rbc_live.specs.Known.{number_under, active_stops, active_limits};
ghost use Rattle.rbc_account.specs.Places.{TellsPlace, TellsAtOnce, TellsRevocation, TellsStretch, TellsLift};
ghost use Rattle.rbc_account.specs.Places.{TellsPart};
ghost use Rattle.rbc_account.specs.Subjects.{ArePaired, IsToldOf, IsOf, IsOfStop, IsOfLimit, IsOfNumber, revoked_stop};
ghost use Rattle.rbc_account.specs.Subjects.{revoked_limit, TellsAs};
ghost use Rattle.rbc_account.specs.Found.{HasStop, HasLimit, MeansBefore, MeansNow, IsOfConcern, IsRevokedBy};
ghost use Rattle.rbc_account.specs.Found.{IsLiftedBy, HasSubject, IsKnownPacket, IsKnown, is_unknown};
ghost use Rattle.rbc_account.specs.Found.{is_unknown_packet};
ghost use Rattle.rbc_account.specs.Whys.{IsWhat, IsReasonTo, IsPacket, IsWhyRevoked, escalated_under, revoked_from};
ghost use Rattle.rbc_account.specs.Whys.{is_revoking};

use crate::placing::unit_of;
use crate::reason::{LimitReason, StopReason, limit_reason, stop_reason};
use crate::record_lookup::number_under;
use ertms_codec::{Packets, Part, ToTrain};
use rbc_ids::{IdTable, Slot};
use rbc_live::{LiveDesk, active_limit, active_stop, train_in};
use rbc_place::Place;
use rbc_records::PlainStore;
use rbc_rule::{Input, SentList};
use rbc_settle::{Sent, TrainRec};
use rbc_track::Way;
use rbc_zones::{Dirs, Limit, Segment};
use std::alloc::{AllocError, Global};

/// What one message tells its train, and why. Its identifier and stamp are in the message itself.
#[derive(Drop)]
pub struct Told {
    /// The train to which it is sent.
    pub engine: u32,
    /// The place of the train after the input.
    pub place: Option<Place>,
    /// What it is told.
    pub what: ToldWhat,
}

/// What a message tells, and why.
#[derive(Drop)]
pub enum ToldWhat {
    /// Message 15: to stop before the place `before`, counted in units of `unit` (1, 10 or 100) from the balise group,
    /// since `edge` is the nearest edge ahead.
    StopBefore {
        number: u32,
        before: u32,
        edge: u32,
        unit: u32,
    },
    /// Message 16: to stop at once.
    StopAtOnce {
        number: u32,
        why: WhyAtOnce,
    },
    /// Message 18: a stop is revoked, because it is released or, if `unanswered`, because the train left it unanswered
    /// in three reports; it is then told again.
    StopRevoked {
        number: u32,
        unanswered: bool,
    },
    /// Message 24: what each packet tells, in their order.
    Restrictions(Vec<ToldRestriction>),
    /// No record accounts for it. It never occurs in a block (`step` of `Account`).
    Unknown,
}

/// Why a train is told to stop at once: the first reason that applies.
#[derive(Clone, Copy)]
pub enum WhyAtOnce {
    /// It left the stop unanswered in three reports, under this identifier, which is revoked by the same input.
    Unanswered { id: u8 },
    /// It has no place.
    NoPlace,
    /// It rejected the stop before.
    Rejected,
    /// This stretch meets the place of the train: the first such stretch of the stop.
    Overlaps(Segment),
    /// The nearest edge ahead is behind the balise group of the train's place.
    BehindGroup { edge: u32 },
}

/// What one packet tells of a restriction. The number is 0 if the packet is `Unknown`.
#[derive(Clone, Copy)]
pub struct ToldRestriction {
    pub number: u32,
    pub what: RestrictionTold,
}

/// What a packet tells, and why.
#[derive(Clone, Copy)]
pub enum RestrictionTold {
    /// Packet 65: the restriction of this stretch is told from `begin` to `end` ahead of the balise group of the
    /// train's place, counted in units of `unit` (1, 10 or 100).
    Told {
        segment: Segment,
        begin: u32,
        end: u32,
        unit: u32,
        why: WhyTold,
    },
    /// Packet 66: it is revoked.
    Revoked(WhyRevoked),
    /// No record accounts for it. It never occurs in a block (`step` of `Account`).
    Unknown,
}

/// Why a restriction is told.
#[derive(Clone, Copy)]
pub enum WhyTold {
    /// It overlaps the place of the train.
    Overlaps,
    /// It begins so far ahead of the place of the train, within the horizon.
    Ahead { distance: u32 },
}

/// Why a restriction is revoked: the first reason that applies.
#[derive(Clone, Copy)]
pub enum WhyRevoked {
    /// It is lifted.
    Lifted,
    /// The train is on another line.
    OtherLine { train: u8, restriction: u32 },
    /// The train faces the other way.
    OtherWay { facing: Way, dirs: Dirs },
    /// The train has passed it.
    Passed,
}

/// What each message of an input tells. `desk` is the desk after the input; `before` is the train that sent the input,
/// as it was before, if a train sent it.
pub(crate) fn told_by(
    alloc: Global,
    desk: &LiveDesk,
    input: &Input,
    before: Option<&TrainRec>,
    messages: &SentList,
) -> Result<Vec<Told>, AllocError>
    ensures right { IfOk result (λ told. ArePaired
        (IsToldOf desk.now.records input.now (option_copied before.entry)) messages.now told.items) }
    ensures known { IfOk result (λ told. ArePaired
        (IsKnown desk.now.records input.now (option_copied before.entry)) messages.now told.items) }
{
    let mut told = Vec::new(alloc);
    for index in 0..messages.len() {
        told.push(told_by_one(alloc, desk, input, before, messages.at(index))?)?;
    }
    Ok(told)
}

/// What one message tells.
fn told_by_one(
    alloc: Global,
    desk: &LiveDesk,
    input: &Input,
    before: Option<&TrainRec>,
    sent: &Sent,
) -> Result<Told, AllocError>
    ensures right { IfOk result (IsToldOf desk.now.records input.now (option_copied before.entry) sent.now) }
    ensures known { IfOk result (IsKnown desk.now.records input.now (option_copied before.entry) sent.now) }
{
    let engine = sent.engine;
    let Some(train) = train_in(&desk.records, engine) else {
        return Ok(Told {
            engine,
            place: None,
            what: ToldWhat::Unknown,
        });
    };
    let what = what_of(alloc, desk, input, before, train, &sent.message)?;
    Ok(Told {
        engine,
        place: train.place,
        what,
    })
}

/// What a message to a train tells.
fn what_of(
    alloc: Global,
    desk: &LiveDesk,
    input: &Input,
    before: Option<&TrainRec>,
    train: &TrainRec,
    message: &ToTrain,
) -> Result<ToldWhat, AllocError>
    ensures why { IfOk result (IsWhat desk.now.records (option_copied before.entry) train.now) }
    ensures about { IfOk result (IsOf input.now (option_copied before.entry) train.now message.now) }
    ensures kind { IfOk result (TellsAs train.now.place message.now) }
    ensures known { IfOk result (λ what. HasSubject (active_stops desk.now.records) (active_limits desk.now.records)
        train.now (IsRevokedBy input.now (option_copied before.entry)) (IsLiftedBy input.now
        (option_copied before.entry) (active_limits desk.now.records) train.now.place) message.now
        → is_unknown what ≡ false) }
{
    match message {
        ToTrain::StopAt {
            id,
            scale,
            distance,
            ..
        } => Ok(stop_before(desk, train, *id, *scale, *distance)),
        ToTrain::Stop { id, .. } => Ok(stop_at_once(desk, before, train, *id)),
        ToTrain::Revoke { id, .. } => Ok(stop_revoked(desk, input, before, *id)),
        ToTrain::General { packets, .. } => {
            let all = restrictions(alloc, desk, input, before, train, packets)?;
            Ok(ToldWhat::Restrictions(all))
        }
    }
}

/// What message 15 tells. `scale` is the scale of its distance.
fn stop_before(desk: &LiveDesk, train: &TrainRec, id: u8, scale: u8, distance: u16) -> ToldWhat
    ensures why { (before : Option TrainRec) → IsWhat desk.now.records before train.now result }
    ensures about { IsOfStop (number_under train.now.stops id) result }
    ensures kind { TellsPlace train.now.place scale distance result }
    ensures known { HasStop (active_stops desk.now.records) train.now id MeansBefore → is_unknown result ≡ false }
{
    let Some(number) = number_under(&train.stops, id) else {
        return ToldWhat::Unknown;
    };
    let Some(place) = train.place.as_ref() else {
        return ToldWhat::Unknown;
    };
    let unit = unit_of(scale);
    match reason_of(&desk.records, train, number) {
        Some(StopReason::Before(edge)) => ToldWhat::StopBefore {
            number,
            before: onward(place, u32::from(distance), unit),
            edge,
            unit,
        },
        Some(StopReason::NoPlace) => ToldWhat::Unknown,
        Some(StopReason::Forced) => ToldWhat::Unknown,
        Some(StopReason::Overlaps(_)) => ToldWhat::Unknown,
        Some(StopReason::BehindGroup(_)) => ToldWhat::Unknown,
        Some(StopReason::Nothing) => ToldWhat::Unknown,
        None => ToldWhat::Unknown,
    }
}

/// What a stop means for a train. `None` if the stop is not active.
fn reason_of(records: &PlainStore, train: &TrainRec, number: u32) -> Option<StopReason>
    ensures is { IfSome result (IsReasonTo records.now train.now number) }
    ensures means { (area : List Segment) → value_of (active_stops records.now) number ≡ Some area
        → IsOfConcern (concern_of area (has_number train.now.forced number) train.now.place) result }
{
    let area = active_stop(records, number)?;
    Some(stop_reason(area, train.forced.has(number), train.place.as_ref()))
}

/// The place that lies this many units ahead of the balise group of a place, in the direction in which the train faces.
fn onward(place: &Place, distance: u32, unit: u32) -> u32
    requires { (distance ≤ 65535) × (unit ≤ 100) }
    ensures { result ≡ onward place.now.facing place.now.at (distance * unit) }
{
    let by = distance * unit;
    match place.facing() {
        Way::Up => place.at() + by,
        Way::Down => place.at().saturating_sub(by),
    }
}

/// What message 16 tells.
fn stop_at_once(desk: &LiveDesk, before: Option<&TrainRec>, train: &TrainRec, id: u8) -> ToldWhat
    ensures why { IsWhat desk.now.records (option_copied before.entry) train.now result }
    ensures about { IsOfStop (number_under train.now.stops id) result }
    ensures kind { TellsAtOnce result }
    ensures known { HasStop (active_stops desk.now.records) train.now id MeansNow → is_unknown result ≡ false }
{
    let Some(number) = number_under(&train.stops, id) else {
        return ToldWhat::Unknown;
    };
    match escalated_under(before, train, number) {
        Some(id) => ToldWhat::StopAtOnce {
            number,
            why: WhyAtOnce::Unanswered { id },
        },
        None => stopped_at_once(&desk.records, train, number),
    }
}

/// What message 16 tells of a stop that is not escalated.
fn stopped_at_once(records: &PlainStore, train: &TrainRec, number: u32) -> ToldWhat
    ensures why { (before : Option TrainRec) → escalated_under before train.now number ≡ None
        → IsWhat records.now before train.now result }
    ensures about { IsOfStop (Some number) result }
    ensures kind { TellsAtOnce result }
    ensures known { (area : List Segment) → value_of (active_stops records.now) number ≡ Some area
        → MeansNow (concern_of area (has_number train.now.forced number) train.now.place) → is_unknown result ≡ false }
{
    match reason_of(records, train, number) {
        Some(StopReason::NoPlace) => at_once(number, WhyAtOnce::NoPlace),
        Some(StopReason::Forced) => at_once(number, WhyAtOnce::Rejected),
        Some(StopReason::Overlaps(segment)) => at_once(number, WhyAtOnce::Overlaps(segment)),
        Some(StopReason::BehindGroup(edge)) => at_once(number, WhyAtOnce::BehindGroup { edge }),
        Some(StopReason::Before(_)) => ToldWhat::Unknown,
        Some(StopReason::Nothing) => ToldWhat::Unknown,
        None => ToldWhat::Unknown,
    }
}

/// To stop at once.
fn at_once(number: u32, why: WhyAtOnce) -> ToldWhat
    ensures { result ≡ StopAtOnce number why }
{
    ToldWhat::StopAtOnce { number, why }
}

/// The identifier under which a train left a stop unanswered: it told the number before the input, and is being revoked
/// after it.
fn escalated_under(before: Option<&TrainRec>, after: &TrainRec, number: u32) -> Option<u8>
    ensures { result ≡ escalated_under (option_copied before.entry) after.now number }
{
    revoked_from(&before?.stops, &after.stops, number)
}

/// The identifier that told a number in an old table, if it is being revoked in a new one.
fn revoked_from<const N: usize>(old: &IdTable<N>, new: &IdTable<N>, number: u32) -> Option<u8>
    ensures { result ≡ revoked_from old.now new.now number }
{
    match old.of_number(number) {
        Some(id) if is_revoking(new, id) => Some(id),
        _ => None,
    }
}

/// Whether an identifier is being revoked.
fn is_revoking<const N: usize>(table: &IdTable<N>, id: u8) -> bool
    ensures { result ≡ is_revoking table.now id }
{
    match table.slot(id) {
        Some(Slot::Revoking { .. }) => true,
        Some(Slot::Used(_)) | None => false,
    }
}

/// What message 18 tells.
fn stop_revoked(desk: &LiveDesk, input: &Input, before: Option<&TrainRec>, id: u8) -> ToldWhat
    ensures why { (old : Option TrainRec) (train : TrainRec) → IsWhat desk.now.records old train result }
    ensures about { IsOfStop (revoked_stop input.now (option_copied before.entry) id) result }
    ensures kind { TellsRevocation result }
    ensures known { IsRevokedBy input.now (option_copied before.entry) id → is_unknown result ≡ false }
{
    match revoked_stop(input, before, id) {
        Some(number) => ToldWhat::StopRevoked {
            number,
            unanswered: active_stop(&desk.records, number).is_some(),
        },
        None => ToldWhat::Unknown,
    }
}

/// The stop that is revoked under an identifier: the one that the input releases, or else the one that the identifier
/// told before.
fn revoked_stop(input: &Input, before: Option<&TrainRec>, id: u8) -> Option<u32>
    ensures { result ≡ revoked_stop input.now (option_copied before.entry) id }
{
    match input {
        Input::Release { number } => Some(*number),
        _ => number_under(&before?.stops, id),
    }
}

/// The restriction that is revoked under an identifier: the one that the input lifts, or else the one that the
/// identifier told before.
fn revoked_limit(input: &Input, before: Option<&TrainRec>, id: u8) -> Option<u32>
    ensures { result ≡ revoked_limit input.now (option_copied before.entry) id }
{
    match input {
        Input::Lift { number } => Some(*number),
        _ => number_under(&before?.limits, id),
    }
}

/// What the packets of message 24 tell.
fn restrictions(
    alloc: Global,
    desk: &LiveDesk,
    input: &Input,
    before: Option<&TrainRec>,
    train: &TrainRec,
    packets: &Packets,
) -> Result<Vec<ToldRestriction>, AllocError>
    ensures each { IfOk result (λ told. All (IsPacket desk.now.records train.now) told.items) }
    ensures about { IfOk result (λ told. ArePaired
        (IsOfLimit input.now (option_copied before.entry) train.now) packets.now told.items) }
    ensures kind { IfOk result (λ told. ArePaired TellsPart packets.now told.items) }
    ensures known { IfOk result (λ told. ArePaired (IsKnownPacket desk.now.records input.now
        (option_copied before.entry) train.now) packets.now told.items) }
{
    let mut told = Vec::new(alloc);
    for index in 0..packets.count() {
        told.push(restriction(desk, input, before, train, packets.at(index)))?;
    }
    Ok(told)
}

/// What one packet of message 24 tells.
fn restriction(
    desk: &LiveDesk,
    input: &Input,
    before: Option<&TrainRec>,
    train: &TrainRec,
    part: Part,
) -> ToldRestriction
    ensures why { IsPacket desk.now.records train.now result }
    ensures about { IsOfLimit input.now (option_copied before.entry) train.now part result }
    ensures kind { TellsPart part result }
    ensures known { IsKnownPacket desk.now.records input.now (option_copied before.entry) train.now part result }
{
    match part {
        Part::Restrict {
            scale,
            id,
            start,
            length,
            ..
        } => limit_told(desk, train, id, scale, start, length),
        Part::Lift { id, .. } => limit_revoked(desk, input, before, train, id),
    }
}

/// The entry for a packet that no record accounts for.
const UNKNOWN: ToldRestriction = ToldRestriction {
    number: 0,
    what: RestrictionTold::Unknown,
};

/// What packet 65 tells. `scale` is the scale of its start and length.
fn limit_told(
    desk: &LiveDesk,
    train: &TrainRec,
    id: u8,
    scale: u8,
    start: u16,
    length: u16,
) -> ToldRestriction
    ensures why { IsPacket desk.now.records train.now result }
    ensures about { IsOfNumber (number_under train.now.limits id) result.number result.what }
    ensures kind { TellsStretch scale start length result.what }
    ensures known { HasLimit (active_limits desk.now.records) train.now id → is_unknown_packet result.what ≡ false }
{
    let Some(number) = number_under(&train.limits, id) else {
        return UNKNOWN;
    };
    let Some(limit) = active_limit(&desk.records, number) else {
        return UNKNOWN;
    };
    let Some(place) = train.place.as_ref() else {
        return UNKNOWN;
    };
    let why = match limit_reason(limit, place) {
        LimitReason::Overlaps => WhyTold::Overlaps,
        LimitReason::Ahead(distance) => WhyTold::Ahead { distance },
        LimitReason::OtherLine => return UNKNOWN,
        LimitReason::OtherWay => return UNKNOWN,
        LimitReason::Passed => return UNKNOWN,
    };
    let unit = unit_of(scale);
    ToldRestriction {
        number,
        what: RestrictionTold::Told {
            segment: limit.segment(),
            begin: u32::from(start) * unit,
            end: (u32::from(start) + u32::from(length)) * unit,
            unit,
            why,
        },
    }
}

/// What packet 66 tells.
fn limit_revoked(
    desk: &LiveDesk,
    input: &Input,
    before: Option<&TrainRec>,
    train: &TrainRec,
    id: u8,
) -> ToldRestriction
    ensures why { IsPacket desk.now.records train.now result }
    ensures about { IsOfNumber (revoked_limit input.now (option_copied before.entry) id)
        result.number result.what }
    ensures kind { TellsLift result.what }
    ensures known { IsLiftedBy input.now (option_copied before.entry) (active_limits desk.now.records)
        train.now.place id → is_unknown_packet result.what ≡ false }
{
    let Some(number) = revoked_limit(input, before, id) else {
        return UNKNOWN;
    };
    match why_revoked(active_limit(&desk.records, number), train.place.as_ref()) {
        Some(why) => ToldRestriction {
            number,
            what: RestrictionTold::Revoked(why),
        },
        None => UNKNOWN,
    }
}

/// Why a restriction is revoked: it is not active, or is clear of the train. `None` if neither applies.
fn why_revoked(limit: Option<&Limit>, place: Option<&Place>) -> Option<WhyRevoked>
    ensures why { IfSome result (IsWhyRevoked (option_copied limit.entry) (option_copied place.entry)) }
    ensures known { option_map_or (is_clear_of (option_copied place.entry)) (option_copied limit.entry) true ≡ true
        → is_some result ≡ true }
{
    let Some(limit) = limit else {
        return Some(WhyRevoked::Lifted);
    };
    let place = place?;
    match limit_reason(limit, place) {
        LimitReason::OtherLine => Some(WhyRevoked::OtherLine {
            train: place.line(),
            restriction: limit.segment().line,
        }),
        LimitReason::OtherWay => Some(WhyRevoked::OtherWay {
            facing: place.facing(),
            dirs: limit.dirs(),
        }),
        LimitReason::Passed => Some(WhyRevoked::Passed),
        LimitReason::Overlaps => None,
        LimitReason::Ahead(_) => None,
    }
}
