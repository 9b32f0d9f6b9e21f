//! What the rules promise of each step, and worked cases of it.
//!
//! Stands on the definitions of rbc_rule; nothing here runs. rbc_desk rests on [`step_law`], a step leaves a valid
//! state, and on [`says_law`], each message says what the rules give its train; rbc_account on both and on
//! [`told_law`]. [`revocation_law`]: only what may be revoked is. [`slots_law`]: each identifier keeps the stamp of the
//! message that told or revoked it. Begin with law.rt, then specs/Witnesses.antt: each law has correct cases, which
//! satisfy it, and wrong ones, which do not.
#![tactic(auto)]

mod kept_witnesses;
mod law;
mod said_witnesses;
mod witnesses;

pub use kept_witnesses::{revocation_law_witnesses, slots_law_witnesses};
pub use law::{revocation_law, says_law, slots_law, step_law, told_law};
pub use said_witnesses::{
    escalation_witnesses, head_witnesses, packets_witnesses, restriction_witnesses,
    revocation_witnesses, stop_witnesses,
};
pub use witnesses::{
    records_witnesses, says_law_witnesses, step_law_witnesses, told_law_witnesses,
};
