//! A gate that counts attempts.

use rbc_batch::Gate;
use rbc_records::Key;
use std::sync::atomic::{AtomicU64, Ordering};

/// A gate that only counts how many attempts were deposited. Nothing is proved of the count.
#[derive(Drop)]
pub struct Attempts {
    deposited: AtomicU64,
}

impl Attempts {
    /// None was deposited.
    pub fn none() -> Self {
        Attempts {
            deposited: AtomicU64::new(0),
        }
    }

    /// How many were deposited.
    pub fn count(&self) -> u64 {
        self.deposited.load(Ordering::SeqCst)
    }
}

impl Gate for Attempts {
    fn before_rule(&self, _input: u32) {}

    fn after_read(&self, _input: u32, _key: Key) {}

    fn before_deposit(&self, _input: u32) {}

    fn after_deposit(&self, _input: u32) {
        self.deposited.fetch_add(1, Ordering::SeqCst);
    }
}
