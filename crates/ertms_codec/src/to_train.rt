//! Messages to a train.

use crate::packets::Packets;
use std::alloc::{AllocError, Global};

/// What begins every message to a train (SUBSET-026, 8.4.4).
#[derive(Clone, Copy, Debug, PartialEq, Eq)]
pub struct Head {
    /// T_TRAIN: when the message was sent, in units of 10 ms; 4294967295 is unknown.
    pub stamp: u32,
    /// M_ACK: whether the train has to acknowledge the message.
    pub ack: bool,
    /// NID_LRBG: the balise group from which the message measures, NID_C (10 bits) followed by NID_BG
    /// (14 bits) as one number; 16777215 is unknown.
    pub lrbg: u32,
}

/// A message to a train.
#[derive(Drop)]
pub enum ToTrain {
    /// Message 15, conditional emergency stop (SUBSET-026, 8.7; own table of variables): the train stops
    /// before a place, if it has not passed it.
    StopAt {
        head: Head,
        /// NID_EM: the identifier of the emergency stop, 0 to 15; 15 is never issued.
        id: u8,
        /// Q_SCALE: the unit of `distance`: 0 is 10 cm, 1 is 1 m, 2 is 10 m; 3 is spare.
        scale: u8,
        /// D_REF: from the balise group to the point from which the message measures, in two's
        /// complement; written as 0.
        reference: i16,
        /// Q_DIR: the direction that the stop is valid for, seen from the balise group: 0 reverse,
        /// 1 nominal, 2 both; 3 is spare.
        dir: u8,
        /// D_EMERGENCYSTOP: from there to the place before which the train has to stop, 0 to 32767
        /// units of `scale`.
        distance: u16,
    },
    /// Message 16, unconditional emergency stop (SUBSET-026, 8.7): the train stops at once.
    Stop {
        head: Head,
        /// NID_EM: the identifier of the emergency stop, 0 to 15; 15 is never issued.
        id: u8,
    },
    /// Message 18, revocation of an emergency stop (SUBSET-026, 8.7).
    Revoke {
        head: Head,
        /// NID_EM: the identifier of the emergency stop, 0 to 15; 15 is never issued.
        id: u8,
    },
    /// Message 24, general message (SUBSET-026, 8.4.4 and 8.7): packets one after another, each of which restricts the
    /// speed or revokes a restriction. L_MESSAGE is at most 897, of 100 restrictions.
    General {
        head: Head,
        packets: Packets,
    },
}

impl ToTrain {
    ghost use Rattle.std.specs.Prelude.{◌≡◌, IsTrue, ◌↔◌, IfOk};
    ghost use Rattle.ertms_codec.specs.ToTrain.{Fits, BodyFits, head_of};

    /// Copies the message. Takes memory only if it has more than one packet.
    pub fn copy(&self, alloc: Global) -> Result<ToTrain, AllocError>
        ensures { IfOk result (λ copy. copy ≡ self.now) }
    {
        Ok(match self {
            ToTrain::StopAt {
                head,
                id,
                scale,
                reference,
                dir,
                distance,
            } => ToTrain::StopAt {
                head: *head,
                id: *id,
                scale: *scale,
                reference: *reference,
                dir: *dir,
                distance: *distance,
            },
            ToTrain::Stop { head, id } => ToTrain::Stop {
                head: *head,
                id: *id,
            },
            ToTrain::Revoke { head, id } => ToTrain::Revoke {
                head: *head,
                id: *id,
            },
            ToTrain::General { head, packets } => ToTrain::General {
                head: *head,
                packets: packets.copy(alloc)?,
            },
        })
    }

    /// Whether each variable of the message is in its range, so that it fits its field and is no spare
    /// value.
    pub fn fits(&self) -> bool
        ensures { IsTrue result ↔ Fits self.now }
    {
        self.head().lrbg <= 16_777_215 && self.body_fits()
    }

    /// Whether each variable after the header is in its range, and no spare value.
    fn body_fits(&self) -> bool
        ensures { IsTrue result ↔ BodyFits self.now }
    {
        match self {
            ToTrain::StopAt {
                id,
                scale,
                dir,
                distance,
                ..
            } => *id <= 15 && *scale <= 2 && *dir <= 2 && *distance <= 32767,
            ToTrain::Stop { id, .. } | ToTrain::Revoke { id, .. } => *id <= 15,
            ToTrain::General { packets, .. } => packets.fit(),
        }
    }

    /// What begins the message.
    pub(crate) fn head(&self) -> Head
        ensures { result ≡ head_of self.now }
    {
        match self {
            ToTrain::StopAt { head, .. }
            | ToTrain::Stop { head, .. }
            | ToTrain::Revoke { head, .. }
            | ToTrain::General { head, .. } => *head,
        }
    }
}
