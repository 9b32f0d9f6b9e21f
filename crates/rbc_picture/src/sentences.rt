//! What a picture shows, in words.

use crate::svg::Svg;
use crate::train_state::{StopSlot, TrainState};
use rbc_account::Waits;
use rbc_ids::{Kind, Slot, UsedSlot};
use rbc_place::Place;
use rbc_track::Way;
use rbc_zones::{Dirs, Limit, Segment};

impl Svg {
    /// Adds a part of a line: `km 15.200 to km 16.850`.
    pub(crate) fn from_to(&mut self, from: u32, to: u32) {
        self.words("km ");
        self.km(from);
        self.words(" to km ");
        self.km(to);
    }

    /// Adds a stretch of a line: `line 0, km 15.200 to km 16.850`.
    pub(crate) fn stretch(&mut self, line: usize, from: u32, to: u32) {
        self.words("line ");
        self.number(line as u64);
        self.words(", ");
        self.from_to(from, to);
    }

    /// Adds a sentence on an active stop, with a space before it.
    pub(crate) fn stop_sentence(&mut self, number: u32, segments: &[Segment]) {
        self.words(" Stop ");
        self.number(u64::from(number));
        for (index, segment) in segments.iter().enumerate() {
            self.words(if index == 0 { ": " } else { ", and " });
            self.stretch(segment.line as usize, segment.from, segment.to);
        }
        self.words(".");
    }

    /// Adds a sentence on an active restriction, with a space before it.
    pub(crate) fn limit_sentence(&mut self, number: u32, limit: &Limit) {
        let segment = limit.segment();
        self.words(" Restriction ");
        self.number(u64::from(number));
        self.words(": ");
        self.stretch(segment.line as usize, segment.from, segment.to);
        self.words(match limit.dirs() {
            Dirs::Up => ", up, ",
            Dirs::Down => ", down, ",
            Dirs::Both => ", both, ",
        });
        self.number(u64::from(limit.speed()));
        self.words(" km/h.");
    }

    /// Adds sentences on a train: where it may be, what each of its identifiers is held for, and which stops and
    /// restrictions it is not told.
    pub(crate) fn train_sentences(&mut self, train: &TrainState) {
        self.words("Train ");
        self.number(u64::from(train.engine));
        match &train.place {
            Some(place) => self.place_words(place),
            None => self.words(" has no place."),
        }
        self.told_sentences(train);
        for waiting in &train.waiting {
            self.waiting_sentence(waiting.what);
        }
    }

    /// Adds a sentence on what each identifier of a train is held for, with a space before it.
    pub(crate) fn told_sentences(&mut self, train: &TrainState) {
        for stop in &train.stops {
            self.words(" Stop identifier ");
            self.number(u64::from(stop.id));
            self.stop_slot(stop);
        }
        for (id, slot) in &train.limits {
            self.words(" Restriction identifier ");
            self.number(u64::from(*id));
            self.limit_slot(slot);
        }
    }

    /// Adds where a train may be.
    fn place_words(&mut self, place: &Place) {
        self.words(" may be at ");
        self.from_to(place.lo(), place.hi());
        self.words(" of line ");
        self.number(u64::from(place.line()));
        self.words(match place.facing() {
            Way::Up => ", facing up.",
            Way::Down => ", facing down.",
        });
    }

    /// Adds what a stop identifier is held for.
    fn stop_slot(&mut self, stop: &StopSlot) {
        match &stop.slot {
            Slot::Revoking { stamp } => self.revoked_words(*stamp),
            Slot::Used(used) => {
                self.words(": stop ");
                self.number(u64::from(used.number));
                self.told_words(stop);
                self.stamp_words(used.stamp);
                self.answer_words(used);
            }
        }
    }

    /// Adds how a stop was told.
    fn told_words(&mut self, stop: &StopSlot) {
        match stop.told {
            Some(told) => {
                self.words(", before km ");
                self.km(told.at);
            }
            None => self.words(", at once"),
        }
    }

    /// Adds what a restriction identifier is held for.
    fn limit_slot(&mut self, slot: &Slot) {
        match slot {
            Slot::Revoking { stamp } => self.revoked_words(*stamp),
            Slot::Used(used) => {
                self.words(": restriction ");
                self.number(u64::from(used.number));
                self.stamp_words(used.stamp);
                self.words(if used.acked {
                    ", acknowledged."
                } else {
                    ", not acknowledged."
                });
            }
        }
    }

    /// Adds that an identifier is being revoked.
    fn revoked_words(&mut self, stamp: u32) {
        self.words(": being revoked");
        self.stamp_words(stamp);
        self.words(", not acknowledged.");
    }

    fn stamp_words(&mut self, stamp: u32) {
        self.words(", stamp ");
        self.number(u64::from(stamp));
    }

    /// Adds whether a stop was answered, and in how many reports it was not.
    fn answer_words(&mut self, used: &UsedSlot) {
        if used.acked {
            return self.words(", answered.");
        }
        self.words(match (used.kind, used.count) {
            (Kind::Unconditional, _) | (_, 0) => ", not answered.",
            (_, 1) => ", not answered in 1 report.",
            (_, 2) => ", not answered in 2 reports.",
            _ => ", not answered in 3 reports or more.",
        });
    }

    /// Adds a stop or a restriction that is not told, or a stop that is not told again.
    fn waiting_sentence(&mut self, waits: Waits) {
        let (words, number) = match waits {
            Waits::Stop(number) => (" NOT TOLD: stop ", number),
            Waits::Restriction(number) => (" NOT TOLD: restriction ", number),
            Waits::Again(number) => (" NOT TOLD AGAIN: stop ", number),
        };
        self.words(words);
        self.number(u64::from(number));
        self.words(".");
    }
}
