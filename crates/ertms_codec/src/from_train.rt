//! Messages from a train.

/// Where a train says that it is: packet 0, or packet 1 if it names two balise groups (SUBSET-026, 7.4.3). The speed,
/// the direction of movement, the mode, the level and the integrity of the train, which these packets also carry, are
/// skipped.
#[derive(Clone, Copy, Debug, PartialEq, Eq)]
pub struct Position {
    /// NID_PRVLRBG: the balise group before the last relevant one; of packet 1 alone.
    pub previous: Option<u32>,
    /// Q_SCALE: the unit of the distances: 0 is 10 cm, 1 is 1 m, 2 is 10 m; 3 is spare.
    pub scale: u8,
    /// NID_LRBG: the last relevant balise group, NID_C (10 bits) followed by NID_BG (14 bits) as one
    /// number; 16777215 is unknown.
    pub lrbg: u32,
    /// D_LRBG: from the last relevant balise group to the estimated front of the train, in units of
    /// `scale`; 32767 is unknown.
    pub distance: u16,
    /// Q_DIRLRBG: how the train faces, seen from the balise group: 0 reverse, 1 nominal, 2 unknown; 3 is
    /// spare.
    pub dir: u8,
    /// Q_DLRBG: on which side of the balise group the estimated front is: 0 reverse, 1 nominal,
    /// 2 unknown; 3 is spare.
    pub side: u8,
    /// L_DOUBTOVER: how far the train may be behind its estimated place, in units of `scale`; 32767 is
    /// taken as unknown (own choice).
    pub over: u16,
    /// L_DOUBTUNDER: how far the train may be beyond its estimated place, in units of `scale`; 32767 is
    /// taken as unknown (own choice).
    pub under: u16,
}

/// A message from a train (SUBSET-026, 8.4.4 and 8.6). Each begins with T_TRAIN, `stamp`: when it was
/// sent, in units of 10 ms, 4294967295 is unknown; and with NID_ENGINE, `engine`: the number of the on-board
/// equipment, 0 to 16777215.
#[derive(Clone, Copy, Debug, PartialEq, Eq)]
pub enum FromTrain {
    /// Message 136, train position report.
    Report {
        stamp: u32,
        engine: u32,
        position: Position,
    },
    /// Message 146, acknowledgement.
    Ack {
        stamp: u32,
        engine: u32,
        /// T_TRAIN of the message that is acknowledged.
        acked: u32,
    },
    /// Message 147, acknowledgement of an emergency stop.
    StopAck {
        stamp: u32,
        engine: u32,
        /// NID_EM: the identifier of the emergency stop, 0 to 15.
        id: u8,
        /// Q_EMERGENCYSTOP (own values): 0 a conditional stop is accepted and changed the end of
        /// authority, 1 it is accepted and changed nothing, 2 an unconditional stop is accepted,
        /// 3 the stop is rejected.
        answer: u8,
        position: Position,
    },
}
