//! What the workers of a run did, in figures.
use rbc_batch::{Stats, Windows};
use std::fmt;

/// How many inputs a run had, and how each came to its result. Its `Display` is the text for the user on the
/// workers: seven lines, the last one without its line feed.
#[derive(Clone, Copy)]
pub struct Figures {
    /// How many inputs there were.
    pub inputs: u64,
    /// How many inputs were attempted before it was their turn to be committed. Nothing is proved of this number.
    pub attempted: u64,
    /// How many attempts were taken over. It is proved to be the number of inputs, less those that were recomputed when
    /// they were committed.
    pub taken_over: u64,
    /// How many inputs were recomputed because a record that their attempt had read had changed.
    pub recomputed: u64,
    /// How many inputs were given up as they were taken, and computed when they were committed.
    pub given_up: u64,
    /// How many messages were shared by train.
    pub shared: u64,
    /// In how many windows they were shared.
    pub windows: u64,
    /// How many inputs were taken in order, one after another.
    pub in_order: u64,
    /// How many workers the arguments name.
    pub workers: u8,
}

impl Figures {
    ghost use Rattle.std.specs.Prelude.{◌≡◌, ◌-◌};

    /// The figures of a run whose workers attempted inputs, by its counts and by how many attempts were deposited.
    pub fn of_attempts(counts: Stats, attempted: u64, workers: u8) -> Figures
        ensures inputs { result.inputs ≡ counts.taken }
        ensures attempted { result.attempted ≡ attempted }
        ensures taken_over { result.taken_over ≡ counts.taken - counts.recomputed }
        ensures recomputed { result.recomputed ≡ counts.recomputed - result.given_up }
        ensures given_up { result.given_up ≡ counts.taken - attempted }
        ensures shared { result.shared ≡ 0 }
        ensures windows { result.windows ≡ 0 }
        ensures in_order { result.in_order ≡ 0 }
        ensures workers { result.workers ≡ workers }
    {
        let (inputs, computed_again) = (u64::from(counts.taken), u64::from(counts.recomputed));
        let given_up = inputs.saturating_sub(attempted);
        Figures {
            inputs,
            attempted,
            taken_over: inputs.saturating_sub(computed_again),
            recomputed: computed_again.saturating_sub(given_up),
            given_up,
            shared: 0,
            windows: 0,
            in_order: 0,
            workers,
        }
    }

    /// The figures of a run without attempts, by its counts and its windows.
    pub fn of_windows(counts: Stats, windows: Windows, workers: u8) -> Figures
        ensures inputs { result.inputs ≡ counts.taken }
        ensures attempted { result.attempted ≡ 0 }
        ensures taken_over { result.taken_over ≡ 0 }
        ensures recomputed { result.recomputed ≡ 0 }
        ensures given_up { result.given_up ≡ 0 }
        ensures shared { result.shared ≡ windows.shared }
        ensures windows { result.windows ≡ windows.count }
        ensures in_order { result.in_order ≡ counts.taken - windows.shared }
        ensures workers { result.workers ≡ workers }
    {
        let (inputs, shared) = (u64::from(counts.taken), u64::from(windows.shared));
        Figures {
            inputs,
            attempted: 0,
            taken_over: 0,
            recomputed: 0,
            given_up: 0,
            shared,
            windows: u64::from(windows.count),
            in_order: inputs.saturating_sub(shared),
            workers,
        }
    }
}

impl fmt::Display for Figures {
    ghost use Rattle.std.specs.Prelude.{Some};
    ghost use Rattle.rbc_dispatch.specs.Figures.{report_of};

    ghost output = { λ figures. Some (report_of figures) };

    fn fmt<W: fmt::Write>(&self, f: &mut fmt::Formatter<W>) -> fmt::Result {
        write!(
            f,
            "attempted ahead: {}\ntaken over as attempted: {}\n\
             recomputed, since a record that was read had changed: {}\ngiven up as they were taken: {}\n\
             shared by train: {} messages in {} windows\nin order: {}\nworkers: {}",
            self.attempted,
            self.taken_over,
            self.recomputed,
            self.given_up,
            self.shared,
            self.windows,
            self.in_order,
            self.workers
        )
    }
}
