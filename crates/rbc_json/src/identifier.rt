//! The identifiers of a train that are not free, as objects.

use crate::shapes::NumberOrNull;
use rbc_account::{Account, ToldPlace};
use rbc_ids::{Kind, Slot, UsedSlot};
use std::fmt;

/// What a stop identifier is held for.
#[derive(Clone, Copy)]
pub(crate) struct StopIdentifier {
    pub id: u8,
    pub slot: Slot,
    /// The input that sent the message.
    pub input: Option<u64>,
    /// The place that the message told, if it is message 15.
    pub place: Option<ToldPlace>,
}

impl StopIdentifier {
    /// The stop identifier of an engine that is held for this.
    pub(crate) fn of(account: &Account, engine: u32, id: u8, slot: Slot) -> Self {
        let stamp = stamp_of(slot);
        StopIdentifier {
            id,
            slot,
            input: account.input_of_stop(engine, id, stamp),
            place: match slot {
                Slot::Used(used) if used.kind == Kind::Conditional => {
                    account.told_place(engine, id, stamp)
                }
                _ => None,
            },
        }
    }
}

/// The stamp of the message for which an identifier is held.
pub(crate) fn stamp_of(slot: Slot) -> u32 {
    match slot {
        Slot::Used(used) => used.stamp,
        Slot::Revoking { stamp } => stamp,
    }
}

/// In how many reports a stop was left unanswered.
fn reports_of(used: &UsedSlot) -> u8 {
    if used.acked { 0 } else { used.count }
}

impl fmt::Display for StopIdentifier {
    fn fmt<W: fmt::Write>(&self, f: &mut fmt::Formatter<W>) -> fmt::Result {
        let (id, input) = (self.id, NumberOrNull(self.input));
        match self.slot {
            Slot::Used(used) => {
                let UsedSlot {
                    number,
                    stamp,
                    acked,
                    ..
                } = used;
                let message = if used.kind == Kind::Conditional {
                    15
                } else {
                    16
                };
                let (line, before) = match self.place {
                    Some(told) => (Some(u32::from(told.line)), Some(told.at)),
                    None => (None, None),
                };
                let (line, before) = (NumberOrNull::of(line), NumberOrNull::of(before));
                let reports = reports_of(&used);
                write!(
                    f,
                    "{{\"kind\":\"stop\",\"identifier\":{id},\"stop\":{number},\"input\":{input},\
                     \"message\":{message},\"stamp\":{stamp},\"acknowledged\":{acked},\"line\":{line},\
                     \"before\":{before},\"unanswered_reports\":{reports}}}"
                )
            }
            Slot::Revoking { stamp } => write!(
                f,
                "{{\"kind\":\"stop_revocation\",\"identifier\":{id},\"input\":{input},\"message\":18,\
                 \"stamp\":{stamp},\"acknowledged\":false}}"
            ),
        }
    }
}

/// What a restriction identifier is held for.
#[derive(Clone, Copy)]
pub(crate) struct RestrictionIdentifier {
    pub id: u8,
    pub slot: Slot,
    /// The input that sent the message.
    pub input: Option<u64>,
}

impl RestrictionIdentifier {
    /// The restriction identifier of an engine that is held for this.
    pub(crate) fn of(account: &Account, engine: u32, id: u8, slot: Slot) -> Self {
        RestrictionIdentifier {
            id,
            slot,
            input: account.input_of_limit(engine, id, stamp_of(slot)),
        }
    }
}

impl fmt::Display for RestrictionIdentifier {
    fn fmt<W: fmt::Write>(&self, f: &mut fmt::Formatter<W>) -> fmt::Result {
        let (id, input) = (self.id, NumberOrNull(self.input));
        match self.slot {
            Slot::Used(used) => {
                let UsedSlot {
                    number,
                    stamp,
                    acked,
                    ..
                } = used;
                write!(
                    f,
                    "{{\"kind\":\"restriction\",\"identifier\":{id},\"restriction\":{number},\"input\":{input},\
                     \"message\":24,\"stamp\":{stamp},\"acknowledged\":{acked}}}"
                )
            }
            Slot::Revoking { stamp } => write!(
                f,
                "{{\"kind\":\"restriction_revocation\",\"identifier\":{id},\"input\":{input},\"message\":24,\
                 \"stamp\":{stamp},\"acknowledged\":false}}"
            ),
        }
    }
}
