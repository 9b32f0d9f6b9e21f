//! How a train is told of a stop or a restriction, and the changes to its identifiers.

use std::marker::Model;

/// How a stop is told.
#[derive(Clone, Copy, PartialEq, Eq)]
pub enum ToldStop {
    /// By message 16: the train stops at once.
    AtOnce,
    /// By message 15: the train stops before an edge of the stop's area.
    Before(ToldEdge),
}

/// The edge before which a train stops, as message 15 tells it: Q_DIR, Q_SCALE and D_EMERGENCYSTOP.
#[derive(Clone, Copy, PartialEq, Eq)]
pub struct ToldEdge {
    pub dir: u8,
    pub scale: u8,
    pub distance: u16,
}

impl Model for ToldEdge {
    ghost use Rattle.rbc_settle.specs.Told.{Edge};
    ghost use Rattle.rbc_settle.specs.InField.{IsEdgeInField};

    ghost Value = { Edge };

    ghost view = { λ e. record { dir = e.dir; scale = e.scale; distance = e.distance } };

    ghost invariant = { λ e. IsEdgeInField (record { dir = e.dir; scale = e.scale; distance = e.distance }) };

    ghost inverse = { λ v. record { dir = v.dir; scale = v.scale; distance = v.distance } };
}

/// A restriction as packet 65 tells it: Q_DIR, Q_SCALE, D_TSR, L_TSR, Q_FRONT and V_TSR.
#[derive(Clone, Copy, PartialEq, Eq)]
pub struct ToldLimit {
    pub dir: u8,
    pub scale: u8,
    pub start: u16,
    pub length: u16,
    pub front: bool,
    pub speed: u8,
}

impl Model for ToldLimit {
    ghost use Rattle.rbc_settle.specs.Told.{Part};
    ghost use Rattle.rbc_settle.specs.InField.{IsPartInField};

    ghost Value = { Part };

    ghost view = { λ l. record {
      dir = l.dir;
      scale = l.scale;
      start = l.start;
      length = l.length;
      front = l.front;
      speed = l.speed;
    } };

    ghost invariant = { λ l. IsPartInField (record {
      dir = l.dir;
      scale = l.scale;
      start = l.start;
      length = l.length;
      front = l.front;
      speed = l.speed;
    }) };

    ghost inverse = { λ v. record {
      dir = v.dir;
      scale = v.scale;
      start = v.start;
      length = v.length;
      front = v.front;
      speed = v.speed;
    } };
}

/// One change to a train's stop identifiers, made by one message.
#[derive(Clone, Copy, PartialEq, Eq)]
pub enum StopChange {
    /// Revokes the stop under an identifier. The number of one that is escalated is told at once from then on.
    Revoke { id: u8, number: Option<u32> },
    /// Tells a stop under an identifier.
    Tell { id: u8, number: u32, told: ToldStop },
}

/// One change to a train's restriction identifiers, made by one packet.
#[derive(Clone, Copy, PartialEq, Eq)]
pub enum LimitChange {
    /// Revokes the restriction under an identifier.
    Revoke {
        id: u8,
    },
    /// Tells a restriction under an identifier.
    Tell {
        id: u8,
        number: u32,
        told: ToldLimit,
    },
}
