//! The packets of a general message to a train.

ghost use Rattle.std.specs.Prelude.{IsTrue, ◌↔◌};
ghost use Rattle.std.specs.List.{All};
ghost use Rattle.ertms_codec.specs.PacketsToTrain.{PacketFits};

use std::alloc::{AllocError, Global};
use std::marker::Model;

/// How many packets a message has at most (own rule).
pub const MOST_PACKETS: usize = 100;

/// A packet of message 24 (SUBSET-026, 7.4.2).
#[derive(Clone, Copy, Debug, PartialEq, Eq)]
pub enum Part {
    /// Packet 65, temporary speed restriction.
    Restrict {
        /// Q_DIR: the direction that the packet is valid for, seen from the balise group: 0 reverse,
        /// 1 nominal, 2 both; 3 is spare.
        dir: u8,
        /// Q_SCALE: the unit of `start` and `length`: 0 is 10 cm, 1 is 1 m, 2 is 10 m; 3 is spare.
        scale: u8,
        /// NID_TSR: the identifier of the restriction; 255 cannot be revoked and is never issued.
        id: u8,
        /// D_TSR: from the balise group to the start of the restriction, 0 to 32767 units of `scale`.
        start: u16,
        /// L_TSR: the length of the restriction, 0 to 32767 units of `scale`.
        length: u16,
        /// Q_FRONT: false if the length of the train delays the end of the restriction, true if it does not.
        front: bool,
        /// V_TSR: the speed, 0 to 120 in units of 5 km/h; 121 to 127 are spare.
        speed: u8,
    },
    /// Packet 66, revocation of a temporary speed restriction.
    Lift {
        /// Q_DIR: the direction that the packet is valid for, seen from the balise group: 0 reverse,
        /// 1 nominal, 2 both; 3 is spare.
        dir: u8,
        /// NID_TSR: the identifier of the restriction; 255 cannot be revoked and is never issued.
        id: u8,
    },
}

impl Part {
    /// Whether each variable is in its range, so that it fits its field and is no spare value.
    pub fn fits(&self) -> bool
        ensures { IsTrue result ↔ PacketFits self.now }
    {
        match self {
            Part::Restrict {
                dir,
                scale,
                start,
                length,
                speed,
                ..
            } => {
                *dir <= 2 && *scale <= 2 && *start <= 32767 && *length <= 32767 && *speed <= 120
            }
            Part::Lift { dir, .. } => *dir <= 2,
        }
    }
}

/// The packets of a message 24, in their order. A message may have several (SUBSET-026, 8.4.4); here it has 1 to 100
/// (own rule). One alone takes no memory.
#[derive(Drop)]
pub struct Packets {
    first: Part,
    more: Vec<Part>,
}

impl Model for Packets {
    ghost use Rattle.std.specs.Prelude.{List, ◌∷◌, ◌<◌, length};
    ghost use Rattle.ertms_codec.specs.declared.packets.Part.{Part};
    ghost use Rattle.ertms_codec.specs.PacketsToTrain.{most_packets};

    ghost Value = { List Part };

    ghost view = { λ p. p.first ∷ p.more.items };

    ghost invariant = { λ p. length p.more.items < most_packets };
}

impl Packets {
    ghost use Rattle.std.specs.Prelude.{◌≡◌, ◌≤◌, ◌<◌, [], ◌∷◌, ◌++◌, length, Some, slice_get, IfOk, OnOk, OnErr};
    ghost use Rattle.ertms_codec.specs.PacketsToTrain.{most_packets, ArePacketsThatFit};

    /// One packet alone.
    pub fn of(alloc: Global, part: Part) -> Result<Packets, AllocError>
        ensures { IfOk result (λ packets. packets ≡ part ∷ []) }
    {
        Ok(Packets {
            first: part,
            more: Vec::new(alloc),
        })
    }

    /// Appends one packet to the others, of which there must be fewer than 100. An error changes nothing.
    pub fn push(&mut self, part: Part) -> Result<(), AllocError>
        requires { length self.old < most_packets }
        ensures ok { OnOk result (self.new ≡ self.old ++ part ∷ []) }
        ensures err { OnErr result (self.new ≡ self.old) }
    {
        self.more.push(part)?;
        Ok(())
    }

    /// How many packets there are: 1 to 100.
    pub fn count(&self) -> usize
        ensures count { result ≡ length self.now }
        ensures some { 1 ≤ result }
        ensures most { result ≤ most_packets }
    {
        1 + self.more.len()
    }

    /// The packet at an index below `count`.
    pub fn at(&self, index: usize) -> Part
        requires { index < length self.now }
        ensures { slice_get self.now index ≡ Some result }
    {
        if index == 0 {
            self.first
        } else {
            self.more[index - 1]
        }
    }

    /// The first packet, and those after it.
    pub(crate) fn parts(&self) -> (Part, &[Part])
        ensures are { self.now ≡ result.0 ∷ result.1.now }
        ensures few { length result.1.now < most_packets }
    {
        (self.first, &self.more)
    }

    /// Copies the packets. Takes memory only if there is more than one.
    pub fn copy(&self, alloc: Global) -> Result<Packets, AllocError>
        ensures { IfOk result (λ copy. copy ≡ self.now) }
    {
        Ok(Packets {
            first: self.first,
            more: Vec::from_slice(alloc, self.more.as_slice())?,
        })
    }

    /// Whether each variable of each packet is in its range.
    pub(crate) fn fit(&self) -> bool
        ensures { IsTrue result ↔ ArePacketsThatFit self.now }
    {
        self.first.fits() && all_fit(&self.more)
    }
}

/// Whether each variable of each packet is in its range.
fn all_fit(parts: &[Part]) -> bool
    ensures { IsTrue result ↔ All PacketFits parts.now }
{
    parts.iter().all(|part| part.fits())
}
