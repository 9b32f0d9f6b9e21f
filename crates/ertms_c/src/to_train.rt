//! The fields of a message to a train, as C has them.

ghost use Rattle.std.specs.Prelude.{◌≡◌, ◌≤◌, List, length, map, take, replicate, IsTrue, false, ◌↔◌, IfSome, IfNone};
ghost use Rattle.std.specs.List.{All};
ghost use Rattle.ertms_codec.specs.declared.packets.Part.{Part as Packet};
ghost use Rattle.ertms_codec.specs.declared.to_train.ToTrain.TheVariants.{General};
ghost use Rattle.ertms_codec.specs.PacketsToTrain.{PacketFits};
ghost use Rattle.ertms_codec.specs.ToTrain.{Fits};
ghost use Rattle.ertms_c.specs.ToTrainFields.{begun, fields_of, head_in, named_by, packet_fields, packets_fields};
ghost use Rattle.ertms_c.specs.ToTrainFields.{packet_named_by, no_packet, AreFieldsOf, IsFrame, AreOfNone};

use ertms_codec::{Head, MOST_PACKETS, Packets, Part, ToTrain};

/// The fields of no packet.
const NO_PACKET: PacketFields = PacketFields {
    kind: 0,
    id: 0,
    scale: 0,
    dir: 0,
    front: 0,
    speed: 0,
    start: 0,
    length: 0,
};

/// A packet of message 24. A variable that its kind does not have is 0.
#[repr(C)]
#[derive(Clone, Copy, Drop, PartialEq, Eq)]
pub struct PacketFields {
    /// NID_PACKET: 65 or 66; 0 if there is no packet.
    pub kind: u8,
    /// NID_TSR: 0 to 255.
    pub id: u8,
    /// Q_SCALE of 65: 0 is 10 cm, 1 is 1 m, 2 is 10 m.
    pub scale: u8,
    /// Q_DIR: 0 reverse, 1 nominal, 2 both.
    pub dir: u8,
    /// Q_FRONT of 65: 0 or 1.
    pub front: u8,
    /// V_TSR of 65: 0 to 120 in units of 5 km/h.
    pub speed: u8,
    /// D_TSR of 65: 0 to 32767 in units of `scale`.
    pub start: u16,
    /// L_TSR of 65: 0 to 32767 in units of `scale`.
    pub length: u16,
}

/// A message to a train. A variable that its kind does not have is 0.
#[repr(C)]
#[derive(Clone, Copy, Drop, PartialEq, Eq)]
pub struct ToTrainFields {
    /// NID_MESSAGE: 15, 16, 18 or 24.
    pub kind: u8,
    /// M_ACK: 0 or 1.
    pub ack: u8,
    /// NID_EM of 15, 16 and 18: 0 to 15.
    pub id: u8,
    /// Q_SCALE of 15: 0 is 10 cm, 1 is 1 m, 2 is 10 m.
    pub scale: u8,
    /// Q_DIR of 15: 0 reverse, 1 nominal, 2 both.
    pub dir: u8,
    /// D_REF of 15, in units of `scale`.
    pub reference: i16,
    /// D_EMERGENCYSTOP of 15: 0 to 32767 in units of `scale`.
    pub distance: u16,
    /// T_TRAIN, in units of 10 ms; 4294967295 is unknown.
    pub stamp: u32,
    /// NID_LRBG: 0 to 16777215, which is unknown.
    pub lrbg: u32,
    /// How many packets 24 has: 1 to 100.
    pub count: u32,
    /// They stand at the front; all after them is 0.
    pub packets: [PacketFields; MOST_PACKETS],
}

/// The fields of a packet.
fn packet_fields(part: Part) -> PacketFields
    ensures { result ≡ packet_fields part }
{
    match part {
        Part::Restrict {
            dir,
            scale,
            id,
            start,
            length,
            front,
            speed,
        } => PacketFields {
            kind: 65,
            id,
            scale,
            dir,
            front: u8::from(front),
            speed,
            start,
            length,
        },
        Part::Lift { dir, id } => PacketFields {
            kind: 66,
            id,
            dir,
            ..NO_PACKET
        },
    }
}

/// The fields of packets, with those of no packet after them.
fn packets_fields(packets: &Packets) -> [PacketFields; MOST_PACKETS]
    ensures { result ≡ packets_fields packets.now }
{
    let mut fields = [NO_PACKET; MOST_PACKETS];
    for index in 0..packets.count() {
        fields[index] = packet_fields(packets.at(index));
    }
    fields
}

/// The fields of a kind of message and its head, with no other.
fn begun(kind: u8, head: Head) -> ToTrainFields
    ensures { result ≡ begun kind head }
{
    ToTrainFields {
        kind,
        ack: u8::from(head.ack),
        id: 0,
        scale: 0,
        dir: 0,
        reference: 0,
        distance: 0,
        stamp: head.stamp,
        lrbg: head.lrbg,
        count: 0,
        packets: [NO_PACKET; MOST_PACKETS],
    }
}

/// The fields of a message.
pub fn fields_of(message: &ToTrain) -> ToTrainFields
    ensures { result ≡ fields_of message.now }
{
    match message {
        ToTrain::StopAt {
            head,
            id,
            scale,
            reference,
            dir,
            distance,
        } => ToTrainFields {
            id: *id,
            scale: *scale,
            reference: *reference,
            dir: *dir,
            distance: *distance,
            ..begun(15, *head)
        },
        ToTrain::Stop { head, id } => ToTrainFields {
            id: *id,
            ..begun(16, *head)
        },
        ToTrain::Revoke { head, id } => ToTrainFields {
            id: *id,
            ..begun(18, *head)
        },
        ToTrain::General { head, packets } => ToTrainFields {
            count: packets.count() as u32,
            packets: packets_fields(packets),
            ..begun(24, *head)
        },
    }
}

/// The head that fields name.
pub fn head_in(fields: &ToTrainFields) -> Head
    ensures { result ≡ head_in fields.now }
{
    Head {
        stamp: fields.stamp,
        ack: fields.ack == 1,
        lrbg: fields.lrbg,
    }
}

/// The message, other than 24, that the fields name by their kind, whether or not it fits and has all these fields.
fn named_by(fields: &ToTrainFields) -> Option<ToTrain>
    ensures { result ≡ named_by fields.now }
{
    let head = head_in(fields);
    let id = fields.id;
    match fields.kind {
        15 => Some(ToTrain::StopAt {
            head,
            id,
            scale: fields.scale,
            reference: fields.reference,
            dir: fields.dir,
            distance: fields.distance,
        }),
        16 => Some(ToTrain::Stop { head, id }),
        18 => Some(ToTrain::Revoke { head, id }),
        _ => None,
    }
}

/// Whether all fields are the same.
fn are_same(fields: &ToTrainFields, others: &ToTrainFields) -> bool
    ensures { IsTrue result ↔ (fields.now ≡ others.now) }
{
    fields == others
}

/// The message, other than 24, that has exactly these fields, if there is one and it fits.
pub fn message_of(fields: &ToTrainFields) -> Option<ToTrain>
    requires { ¬ (fields.now.kind ≡ 24) }
    ensures fits { IfSome result (λ m. Fits m) }
    ensures same { IfSome result (λ m. fields.now ≡ fields_of m) }
    ensures none { IfNone result (AreOfNone fields.now) }
{
    match named_by(fields) {
        Some(message) if message.fits() && are_same(fields, &fields_of(&message)) => Some(message),
        _ => None,
    }
}

/// The packet that fields name by their kind, whether or not it fits and has all these fields.
fn packet_named_by(fields: &PacketFields) -> Option<Part>
    ensures { result ≡ packet_named_by fields.now }
{
    match fields.kind {
        65 => Some(Part::Restrict {
            dir: fields.dir,
            scale: fields.scale,
            id: fields.id,
            start: fields.start,
            length: fields.length,
            front: fields.front == 1,
            speed: fields.speed,
        }),
        66 => Some(Part::Lift {
            dir: fields.dir,
            id: fields.id,
        }),
        _ => None,
    }
}

/// Whether all fields of packets are the same.
fn are_same_packets(fields: &PacketFields, others: &PacketFields) -> bool
    ensures { IsTrue result ↔ (fields.now ≡ others.now) }
{
    fields == others
}

/// The packet that has exactly these fields, if there is one and it fits.
fn packet_of(fields: &PacketFields) -> Option<Part>
    ensures fits { IfSome result (λ packet. PacketFits packet) }
    ensures same { IfSome result (λ packet. fields.now ≡ packet_fields packet) }
    ensures none { IfNone result ((packet : Packet) → PacketFits packet → fields.now ≡ packet_fields packet → ⊥) }
{
    match packet_named_by(fields) {
        Some(packet) if packet.fits() && are_same_packets(fields, &packet_fields(packet)) => {
            Some(packet)
        }
        _ => None,
    }
}

/// Writes the packets that have exactly these fields to the front of `packets`, and returns whether there are such
/// packets and they fit.
pub fn packets_of(fields: &[PacketFields], packets: &mut [Part]) -> bool
    requires { length fields.now ≤ length packets.old }
    ensures are { IsTrue result → AreFieldsOf (take (length fields.now) packets.new) fields.now }
    ensures none { result ≡ false → (others : List Packet) → AreFieldsOf others fields.now → ⊥ }
{
    for index in 0..fields.len() {
        match packet_of(&fields[index]) {
            Some(packet) => packets[index] = packet,
            None => return false,
        }
    }
    true
}

/// Whether all are the fields of no packet.
fn are_none(packets: &[PacketFields]) -> bool
    ensures { IsTrue result ↔ All (λ packet. packet ≡ no_packet) packets.now }
{
    packets
        .iter()
        .all(|packet| are_same_packets(packet, &NO_PACKET))
}

/// Whether all fields but those of its packets are those of a message 24 that fits.
pub fn is_frame(fields: &ToTrainFields) -> bool
    ensures { IsTrue result ↔ IsFrame fields.now }
{
    let others = ToTrainFields {
        count: fields.count,
        packets: fields.packets,
        ..begun(24, head_in(fields))
    };
    fields.lrbg <= 16_777_215
        && fields.count >= 1
        && fields.count <= 100
        && are_same(fields, &others)
        && are_none(&fields.packets[fields.count as usize..])
}
