//! Gates: what a worker calls between the steps of an attempt.

use rbc_records::Key;

/// Called by a worker between the steps of an attempt, never while it holds the lock of the book. A gate may wait
/// there, so a test can choose in which order the steps of several workers come. Inputs are numbered from 1.
pub trait Gate {
    /// Before it is decided what an input does. The gate is not called again for an input that is given up when it is
    /// taken.
    fn before_rule(&self, input: u32);

    /// After the record under a key was read for an input, for the first time.
    fn after_read(&self, input: u32, key: Key);

    /// Before the attempt at an input is deposited.
    fn before_deposit(&self, input: u32);

    /// After the attempt at an input was deposited, and before this worker commits anything.
    fn after_deposit(&self, input: u32);
}

/// A gate that does nothing.
#[derive(Clone, Copy, Debug)]
pub struct OpenGate;

impl Gate for OpenGate {
    fn before_rule(&self, _input: u32) {}

    fn after_read(&self, _input: u32, _key: Key) {}

    fn before_deposit(&self, _input: u32) {}

    fn after_deposit(&self, _input: u32) {}
}

/// A gate for the inputs after the first `before` of a run: it is told the number of each in the whole run.
#[derive(Drop)]
pub(crate) struct Behind<'a, G> {
    pub(crate) gate: &'a G,
    pub(crate) before: u32,
}

impl<'a, G: Gate> Gate for Behind<'a, G> {
    fn before_rule(&self, input: u32) {
        self.gate.before_rule(self.before.saturating_add(input));
    }

    fn after_read(&self, input: u32, key: Key) {
        self.gate.after_read(self.before.saturating_add(input), key);
    }

    fn before_deposit(&self, input: u32) {
        self.gate.before_deposit(self.before.saturating_add(input));
    }

    fn after_deposit(&self, input: u32) {
        self.gate.after_deposit(self.before.saturating_add(input));
    }
}
