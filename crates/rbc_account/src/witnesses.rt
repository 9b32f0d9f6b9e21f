//! Worked cases of the laws: correct ones, which satisfy them, and wrong ones, which violate them.

ghost use Rattle.std.specs.Prelude.{[], ◌∷◌};
ghost use Rattle.rbc_track.specs.Plan.{Plan};
ghost use Rattle.rbc_live.specs.Witnesses.{refused};
ghost use Rattle.rbc_account.specs.Runs.{IsAccount};
ghost use Rattle.rbc_account.specs.Sums.{no_sums};
ghost use Rattle.rbc_account.specs.Witnesses.{one_accepted, one_refused};

use rbc_live::history_law_witnesses;

/// An account takes the line `x`, which is not an input, on any track.
///
/// Right: one input was refused.
///
/// Wrong: one was accepted; or none was taken.
pub fn account_law_witnesses()
    ensures counted { (plan : Plan) → IsAccount plan (refused ∷ []) [] one_refused }
    ensures accepted { (plan : Plan) → IsAccount plan (refused ∷ []) [] one_accepted → ⊥ }
    ensures left_out { (plan : Plan) → IsAccount plan (refused ∷ []) [] no_sums → ⊥ }
{
    history_law_witnesses();
}
