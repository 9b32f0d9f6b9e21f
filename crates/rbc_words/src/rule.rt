//! What a filter does to a line.

ghost use Rattle.std.specs.Prelude.{◌≡◌, ℕ, List, IfOk, IfErr};
ghost use Rattle.rbc_words.specs.Rules.{IsTurned, IsRefused, Foretells};
ghost use Rattle.rbc_words.specs.declared.rule.RuleError.TheVariants.{Memory};

use std::alloc::{AllocError, Global};

/// Why a line is not turned.
#[derive(Clone, Copy, Debug, PartialEq, Eq)]
pub enum RuleError<F> {
    /// There was not enough memory.
    Memory,
    /// The line is wrong.
    Wrong(F),
}

impl<F> From<AllocError> for RuleError<F> {
    ghost from_gives = { λ _ e. e ≡ Memory };

    fn from(_: AllocError) -> RuleError<F> {
        RuleError::Memory
    }
}

/// What is known of a line that has begun, however it goes on.
#[derive(Clone, Copy, Debug, PartialEq, Eq)]
pub enum Outlook<F> {
    /// Nothing.
    Open,
    /// The line becomes itself.
    Itself,
    /// The line is wrong.
    Wrong(F),
}

/// What a line becomes, and which lines are wrong.
pub trait LineRule {
    /// What is wrong with a line.
    type Fault: Copy + Drop;

    // what a line becomes
    ghost becomes: { Self → List ℕ → List ℕ → Type 0 };

    // what is wrong with a line
    ghost is_wrong: { Self → List ℕ → Self.Fault → Type 0 };

    /// What a line becomes, without its line feed, or `None` where that is the line itself.
    ///
    /// # Errors
    ///
    /// `Wrong`, and `Memory`.
    fn turn(&self, alloc: Global, line: &[u8]) -> Result<Option<Vec<u8>>, RuleError<Self::Fault>>
        ensures turned { IfOk result (IsTurned (becomes self.now) line.now) }
        ensures refused { IfErr result (IsRefused (is_wrong self.now) line.now) };

    /// What is known of a line of which so much has come.
    fn outlook(&self, begun: &[u8]) -> Outlook<Self::Fault>
        ensures { Foretells (becomes self.now) (is_wrong self.now) begun.now result };
}
