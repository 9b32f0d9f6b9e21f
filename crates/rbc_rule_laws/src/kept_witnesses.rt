//! Worked cases of `revocation_law` and `slots_law`: correct ones, and wrong ones that differ from them in one point.
//!
//! Train 7 stands 200 m beyond balise group 5, which lies at 10000 on line 0, and faces up. Its stop identifier 0 was
//! used for stop 1, or its restriction identifier 0 for restriction 1, by the message with stamp 1001.

ghost use Rattle.std.specs.Prelude.{true, false, [], ◌∷◌};
ghost use Rattle.rbc_ids.specs.declared.slot.Kind.TheVariants.{Conditional, Unconditional, Restriction};
ghost use Rattle.rbc_ids.specs.declared.slot.Slot.TheVariants.{Revoking};
ghost use Rattle.rbc_ids.specs.Table.{told_now};
ghost use Rattle.rbc_rule_laws.specs.Witnesses.{slot_of, revoking, MayRevokeActive, MayRevokeReleased, MayLiftActive};
ghost use Rattle.rbc_rule_laws.specs.Witnesses.{KeepsTold, KeepsRevoked, KeepsBoth};

/// Message 18 for stop identifier 0, and packet 66 for restriction identifier 0.
///
/// Right: the stop was released; it is active, told conditionally and left unanswered in three reports, and other
/// identifiers are free; and the restriction is active, of 1000 to 9000, which lies behind the train.
///
/// Wrong: the stop is active and left unanswered in two reports; it was answered; it was told at once; no identifier is
/// free; the identifier is free; it is being revoked; and the restriction is active, of 11050 to 12050, and not behind
/// the train.
pub fn revocation_law_witnesses()
    ensures released { MayRevokeReleased ((0, slot_of Conditional true 0) ∷ []) }
    ensures left_unanswered { MayRevokeActive ((0, slot_of Conditional false 3) ∷ []) }
    ensures behind { MayLiftActive 1000 9000 }
    ensures too_soon { MayRevokeActive ((0, slot_of Conditional false 2) ∷ []) → ⊥ }
    ensures answered { MayRevokeActive ((0, slot_of Conditional true 3) ∷ []) → ⊥ }
    ensures told_at_once { MayRevokeActive ((0, slot_of Unconditional false 3) ∷ []) → ⊥ }
    ensures none_to_spare { MayRevokeActive ((0, slot_of Conditional false 3) ∷ revoking 1 14) → ⊥ }
    ensures not_held { MayRevokeReleased [] → ⊥ }
    ensures revoked_already { MayRevokeReleased ((0, Revoking 1001) ∷ []) → ⊥ }
    ensures not_behind { MayLiftActive 11050 12050 → ⊥ }
{}

/// The slots after a step that tells stop 1 under identifier 0 by the message with stamp 1001, one that revokes
/// identifier 0 by the message with stamp 1002, or one that revokes restriction identifier 0 and tells restriction 1
/// under identifier 1 by one message with stamp 1001.
///
/// Right: each slot has the stamp of its message.
///
/// Wrong: the stamp of another message; another number; another kind; an answer that did not come yet; a free
/// identifier; a revoked identifier that is still used, or waits for the answer to another message; and a restriction
/// with the stamp of another message.
pub fn slots_law_witnesses()
    ensures told { KeepsTold ((0, told_now 1 1001 Conditional) ∷ []) }
    ensures revoked { KeepsRevoked ((0, Revoking 1002) ∷ []) }
    ensures both { KeepsBoth ((0, Revoking 1001) ∷ (1, told_now 1 1001 Restriction) ∷ []) }
    ensures other_stamp { KeepsTold ((0, told_now 1 1000 Conditional) ∷ []) → ⊥ }
    ensures other_number { KeepsTold ((0, told_now 2 1001 Conditional) ∷ []) → ⊥ }
    ensures other_kind { KeepsTold ((0, told_now 1 1001 Unconditional) ∷ []) → ⊥ }
    ensures answered_already { KeepsTold ((0, slot_of Conditional true 0) ∷ []) → ⊥ }
    ensures not_held { KeepsTold [] → ⊥ }
    ensures still_used { KeepsRevoked ((0, told_now 1 1001 Conditional) ∷ []) → ⊥ }
    ensures other_answer { KeepsRevoked ((0, Revoking 1001) ∷ []) → ⊥ }
    ensures other_restriction { KeepsBoth ((0, Revoking 1001) ∷ (1, told_now 1 1000 Restriction) ∷ []) → ⊥ }
{}
