//! The variables of the messages, with their widths in bits (SUBSET-026, chapter 7.5). What the values mean is said at
//! the fields of the messages; for the skipped variables it is said here.

pub const D_EMERGENCYSTOP: u32 = 15;

pub const D_LRBG: u32 = 15;

pub const D_REF: u32 = 16;

pub const D_TSR: u32 = 15;

pub const L_DOUBTOVER: u32 = 15;

pub const L_DOUBTUNDER: u32 = 15;
/// The bytes of the whole message.
pub const L_MESSAGE: u32 = 10;
/// The bits of the whole packet.
pub const L_PACKET: u32 = 13;
/// The length of the train, in units of 1 m; present if Q_LENGTH is 1 or 2.
pub const L_TRAININT: u32 = 15;

pub const L_TSR: u32 = 15;

pub const M_ACK: u32 = 1;
/// The level of operation; 1 is level NTC.
pub const M_LEVEL: u32 = 3;
/// The mode of the on-board equipment.
pub const M_MODE: u32 = 4;

pub const NID_EM: u32 = 4;

pub const NID_ENGINE: u32 = 24;

pub const NID_LRBG: u32 = 24;
/// The kind of message.
pub const NID_MESSAGE: u32 = 8;
/// The national system; present if M_LEVEL is 1.
pub const NID_NTC: u32 = 8;
/// The kind of packet.
pub const NID_PACKET: u32 = 8;

pub const NID_PRVLRBG: u32 = 24;

pub const NID_TSR: u32 = 8;

pub const Q_DIR: u32 = 2;

pub const Q_DIRLRBG: u32 = 2;
/// The direction in which the train moves: 0 reverse, 1 nominal, 2 unknown.
pub const Q_DIRTRAIN: u32 = 2;

pub const Q_DLRBG: u32 = 2;

pub const Q_EMERGENCYSTOP: u32 = 2;

pub const Q_FRONT: u32 = 1;
/// Whether the train is whole: 0 is no information, 1 and 2 say so, with its length, 3 is lost.
pub const Q_LENGTH: u32 = 2;

pub const Q_SCALE: u32 = 2;

pub const T_TRAIN: u32 = 32;
/// The speed of the train, in units of 5 km/h.
pub const V_TRAIN: u32 = 7;

pub const V_TSR: u32 = 7;
