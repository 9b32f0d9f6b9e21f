//! The trains, as a picture shows them.

ghost use Rattle.std.specs.Prelude.{◌≡◌, IfOk, is_some, map};
ghost use Rattle.rbc_live.specs.Known.{train_in};
ghost use Rattle.rbc_picture.specs.Trains.{is_in, is_listed_in, is_on, known_train, known_trains, train_shown};

use crate::selection::{LinePart, Selection};
use crate::short_words::{Remark, ShortWord};
use rbc_account::{Account, ToldPlace, TrainStanding, Waiting, Waits};
use rbc_ids::{Kind, Slot, UsedSlot};
use rbc_place::Place;
use rbc_settle::TrainRec;
use std::alloc::{AllocError, Global};

/// What a stop identifier of a train is held for.
#[derive(Clone, Copy)]
pub(crate) struct StopSlot {
    /// The identifier (NID_EM).
    pub id: u8,
    /// What it is held for.
    pub slot: Slot,
    /// The place before which the train is told to stop, if it was told by message 15.
    pub told: Option<ToldPlace>,
}

/// A train: where it may be, what it is told, and what it is not told.
#[derive(Drop)]
pub(crate) struct TrainState {
    /// The number of its on-board equipment (NID_ENGINE).
    pub engine: u32,
    /// Where it may be, if that is known.
    pub place: Option<Place>,
    /// Its stop identifiers, ascending.
    pub stops: Vec<StopSlot>,
    /// Its restriction identifiers (NID_TSR) with what they are held for, ascending.
    pub limits: Vec<(u8, Slot)>,
    /// The stops and restrictions that it is not told, and the stops that it is not told again.
    pub waiting: Vec<Waiting>,
}

/// The stops that a train is told by message 16.
#[derive(Drop)]
pub(crate) struct AtOnce {
    /// The stops, by identifier.
    pub words: Vec<ShortWord>,
    /// Whether the train has answered all of them.
    pub is_answered: bool,
}

/// The trains of a run in ascending order.
pub(crate) fn trains_of(
    alloc: Global,
    account: &Account,
    standing: &[TrainStanding],
) -> Result<Vec<TrainState>, AllocError>
    ensures { IfOk result (λ trains. map train_shown trains.items
        ≡ known_trains (train_in account.now.desk.records) standing.now) }
{
    let mut trains = Vec::new(alloc);
    for at_train in standing {
        if let Some(train) = account.train(at_train.engine) {
            trains.push(state_of(alloc, account, at_train, train)?)?;
        }
    }
    Ok(trains)
}

/// The state of a train, by what stands at it and by its record.
fn state_of(
    alloc: Global,
    account: &Account,
    at_train: &TrainStanding,
    train: &TrainRec,
) -> Result<TrainState, AllocError>
    ensures { IfOk result (λ state. train_shown state ≡ known_train at_train.now train.now) }
{
    Ok(TrainState {
        engine: at_train.engine,
        place: train.place,
        stops: stop_slots_of(alloc, account, train)?,
        limits: Vec::from_slice(alloc, train.limits.slots())?,
        waiting: Vec::from_slice(alloc, &at_train.waiting)?,
    })
}

/// The stop identifiers of a train.
fn stop_slots_of(
    alloc: Global,
    account: &Account,
    train: &TrainRec,
) -> Result<Vec<StopSlot>, AllocError> {
    let mut slots = Vec::new(alloc);
    for (id, slot) in train.stops.slots() {
        slots.push(StopSlot {
            id: *id,
            slot: *slot,
            told: told_place_of(account, train.engine, *id, slot),
        })?;
    }
    Ok(slots)
}

/// The place before which a train is told to stop under an identifier, if it was told by message 15.
fn told_place_of(account: &Account, engine: u32, id: u8, slot: &Slot) -> Option<ToldPlace> {
    match slot {
        Slot::Used(used) if used.kind == Kind::Conditional => {
            account.told_place(engine, id, used.stamp)
        }
        _ => None,
    }
}

/// Whether an identifier is held for a stop or a restriction with this number.
fn tells(slot: &Slot, number: u32) -> bool {
    match slot {
        Slot::Used(used) => used.number == number,
        Slot::Revoking { .. } => false,
    }
}

impl TrainState {
    /// The place of the train, if it is placed on the line of a part and meets the part.
    pub(crate) fn place_in(&self, part: &LinePart) -> Option<Place>
        ensures { is_some result ≡ is_in part.now self.now }
    {
        match self.place {
            Some(place)
                if part.meets(place.lo(), place.hi()) && u32::from(place.line()) == part.line => {
                Some(place)
            }
            _ => None,
        }
    }

    /// Whether it is placed on the line of a part and meets the part.
    pub(crate) fn is_in(&self, part: &LinePart) -> bool
        ensures { result ≡ is_in part.now self.now }
    {
        self.place_in(part).is_some()
    }

    /// Whether it is placed on a line.
    pub(crate) fn is_on(&self, line: u32) -> bool
        ensures { result ≡ is_on line self.now }
    {
        self.is_in(&LinePart::whole(line))
    }

    /// Whether it has no place.
    pub(crate) fn is_unplaced(&self) -> bool {
        self.place.is_none()
    }

    /// Whether it has no place, and a selection lists it.
    pub(crate) fn is_listed(&self, selection: &Selection<'_>) -> bool
        ensures { result ≡ is_listed_in selection.now self.now }
    {
        self.place.is_none() && selection.lists(self.engine)
    }

    /// Whether a stop was left unanswered in three reports, and is not told again.
    pub(crate) fn is_due(&self, number: u32) -> bool {
        self.waits_for(Waits::Again(number))
    }

    /// Whether it is told a stop, or is not told it although the stop concerns it.
    pub(crate) fn concerns_stop(&self, number: u32) -> bool {
        self.waits_for(Waits::Stop(number))
            || self.stops.iter().any(|stop| tells(&stop.slot, number))
    }

    /// Whether it is told a restriction, or is not told it although the restriction concerns it.
    pub(crate) fn concerns_limit(&self, number: u32) -> bool {
        self.waits_for(Waits::Restriction(number))
            || self.limits.iter().any(|(_id, slot)| tells(slot, number))
    }

    fn waits_for(&self, what: Waits) -> bool {
        self.waiting.iter().any(|waiting| waiting.what == what)
    }

    /// A stop or a restriction that the train is told, in short.
    pub(crate) fn told_word(&self, used: &UsedSlot) -> ShortWord {
        let is_stop = used.kind != Kind::Restriction;
        let remark = if used.acked {
            Remark::Nothing
        } else if is_stop && self.is_due(used.number) {
            Remark::Due
        } else {
            Remark::Unanswered
        };
        ShortWord {
            is_stop,
            number: used.number,
            remark,
        }
    }

    /// The stops that the train is told, by number, and then the restrictions, by number.
    pub(crate) fn told_words(&self, alloc: Global) -> Result<Vec<ShortWord>, AllocError> {
        let mut words = Vec::new(alloc);
        for stop in &self.stops {
            if let Slot::Used(used) = &stop.slot {
                words.push(self.told_word(used))?;
            }
        }
        for (_id, slot) in &self.limits {
            if let Slot::Used(used) = slot {
                words.push(self.told_word(used))?;
            }
        }
        words.sort_by_key(|word| (!word.is_stop, word.number))?;
        Ok(words)
    }

    /// The stops that concern the train and are not told to it, by number, and then the restrictions, by number.
    pub(crate) fn untold_words(&self, alloc: Global) -> Result<Vec<ShortWord>, AllocError> {
        let mut words = Vec::new(alloc);
        for waiting in &self.waiting {
            match waiting.what {
                Waits::Stop(number) => words.push(ShortWord::stop(number))?,
                Waits::Restriction(number) => words.push(ShortWord::restriction(number))?,
                Waits::Again(_) => {}
            }
        }
        Ok(words)
    }

    /// The revocations that the train has not acknowledged: those of stops, and then those of restrictions.
    pub(crate) fn revocations(&self, alloc: Global) -> Result<Vec<ShortWord>, AllocError> {
        let mut words = Vec::new(alloc);
        for stop in &self.stops {
            if let Slot::Revoking { .. } = &stop.slot {
                words.push(ShortWord::revocation(true))?;
            }
        }
        for (_id, slot) in &self.limits {
            if let Slot::Revoking { .. } = slot {
                words.push(ShortWord::revocation(false))?;
            }
        }
        Ok(words)
    }

    /// Whether it is told a stop by message 16.
    pub(crate) fn is_told_at_once(&self) -> bool {
        self.stops.iter().any(
            |stop| matches!(&stop.slot, Slot::Used(used) if used.kind == Kind::Unconditional),
        )
    }

    /// The stops that the train is told by message 16, if there are any.
    pub(crate) fn at_once(&self, alloc: Global) -> Result<Option<AtOnce>, AllocError> {
        let mut words = Vec::new(alloc);
        let mut is_answered = true;
        for stop in &self.stops {
            if let Slot::Used(used) = &stop.slot
                && used.kind == Kind::Unconditional
            {
                words.push(ShortWord::stop(used.number))?;
                is_answered = is_answered && used.acked;
            }
        }
        if words.is_empty() {
            return Ok(None);
        }
        Ok(Some(AtOnce { words, is_answered }))
    }
}
