//! Looking up what a message or an identifier names.

ghost use Rattle.std.specs.Prelude.{◌≡◌};
ghost use Rattle.rbc_rule.specs.Effect.{engine_of};
ghost use Rattle.rbc_live.specs.Known.{number_under};

use ertms_codec::FromTrain;
use rbc_ids::{IdTable, Slot};

/// The number that is told under an identifier.
pub(crate) fn number_under<const N: usize>(table: &IdTable<N>, id: u8) -> Option<u32>
    ensures { result ≡ number_under table.now id }
{
    match table.slot(id) {
        Some(Slot::Used(used)) => Some(used.number),
        Some(Slot::Revoking { .. }) | None => None,
    }
}

/// The engine number in a message.
pub(crate) fn engine_of(message: &FromTrain) -> u32
    ensures { result ≡ engine_of message.now }
{
    match message {
        FromTrain::Report { engine, .. }
        | FromTrain::Ack { engine, .. }
        | FromTrain::StopAck { engine, .. } => *engine,
    }
}
