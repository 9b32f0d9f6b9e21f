//! Tickets by key.

ghost use Rattle.std.specs.Prelude.{◌≡◌, IfOk};

use crate::log::{OutOfMemory, Ticket};
use indexmap::IndexMap;
use rbc_records::Key;
use std::alloc::Global;

/// Under each key a ticket, or none. Boxed, so that moving its owner is cheap.
pub(crate) type Tickets = Box<IndexMap<Key, Option<Ticket>>>;

/// Boxes tickets.
pub(crate) fn boxed(
    alloc: Global,
    tickets: IndexMap<Key, Option<Ticket>>,
) -> Result<Tickets, OutOfMemory>
    ensures { IfOk result (λ all. all.value ≡ tickets) }
{
    match Box::new(alloc, tickets) {
        Ok(all) => Ok(all),
        Err(_) => Err(OutOfMemory),
    }
}
