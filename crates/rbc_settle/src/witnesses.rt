//! Worked cases of `settle_law` and of escalation.

ghost use Rattle.rbc_settle.specs.UpToDate.{StaysAsItIs, IsUpToDate};
ghost use Rattle.rbc_settle.specs.WellFormed.{IsWellFormedTrain};
ghost use Rattle.rbc_settle.specs.Witnesses.{track_a, stop_1, no_stop, limit_1, no_limit, told, untold, told_twice};
ghost use Rattle.rbc_settle.specs.Witnesses.{one_stamp, one_message, shared_stamp, stamp_ahead, told_as_limit};
ghost use Rattle.rbc_settle.specs.Witnesses.{sixteenth, never_given, beyond_5, group_elsewhere, group_turned};
ghost use Rattle.rbc_settle.specs.Witnesses.{placed_at, limited, unanswered, counted_unconditional};
ghost use Rattle.std.specs.Prelude.{◌≡◌, [], ◌∷◌};
ghost use Rattle.rbc_ids.specs.declared.slot.Slot.TheVariants.{Revoking};
ghost use Rattle.rbc_ids.specs.declared.slot.Kind.TheVariants.{Unconditional};
ghost use Rattle.rbc_ids.specs.Table.{told_now};
ghost use Rattle.rbc_settle.specs.Settling.{settled};

/// What `settle_law` promises holds of a correct train, and does not hold of wrong ones.
///
/// Right: stop 1 is active, and train 7, whose place is not known, was told it under identifier 0 with stamp 1. The
/// train stays as it is, is up to date and is well-formed; it is also well-formed at a place 200 m beyond balise group
/// 5. So is a train to which one message told a restriction and revoked another one, both with its stamp.
///
/// A train does not stay as it is, and is not up to date, if an active stop that concerns it was not told, if a slot is
/// used by a stop that is no longer active, or if a restriction that was told lies wholly behind it.
///
/// A train is not well-formed if a stop was told under two identifiers or under identifier 15, if the stamp of a stop
/// is that of another stop or of a restriction, if the stamp of a slot is above the train's, if the slot of a stop is
/// that of a restriction, if a stop was told that was never given, or if the position or the direction of its balise
/// group is not the one on the track.
pub fn settle_law_witnesses()
    ensures told_stays { StaysAsItIs track_a stop_1 no_limit told }
    ensures told_is_up_to_date { IsUpToDate track_a stop_1 no_limit told }
    ensures told_is_well_formed { IsWellFormedTrain track_a stop_1 no_limit told }
    ensures placed_is_well_formed { IsWellFormedTrain track_a stop_1 no_limit (placed_at beyond_5) }
    ensures one_message_is_well_formed { IsWellFormedTrain track_a no_stop limit_1 one_message }
    ensures untold_changes { StaysAsItIs track_a stop_1 no_limit untold → ⊥ }
    ensures untold_is_behind { IsUpToDate track_a stop_1 no_limit untold → ⊥ }
    ensures stop_not_active_changes { StaysAsItIs track_a no_stop no_limit told → ⊥ }
    ensures stop_not_active_is_behind { IsUpToDate track_a no_stop no_limit told → ⊥ }
    ensures limit_passed_changes { StaysAsItIs track_a no_stop limit_1 limited → ⊥ }
    ensures limit_passed_is_behind { IsUpToDate track_a no_stop limit_1 limited → ⊥ }
    ensures two_identifiers { IsWellFormedTrain track_a stop_1 no_limit told_twice → ⊥ }
    ensures identifier_15 { IsWellFormedTrain track_a stop_1 no_limit sixteenth → ⊥ }
    ensures one_stamp_twice { IsWellFormedTrain track_a stop_1 no_limit one_stamp → ⊥ }
    ensures stamp_of_a_restriction { IsWellFormedTrain track_a stop_1 limit_1 shared_stamp → ⊥ }
    ensures stamp_above_the_trains { IsWellFormedTrain track_a stop_1 no_limit stamp_ahead → ⊥ }
    ensures restriction_among_stops { IsWellFormedTrain track_a stop_1 no_limit told_as_limit → ⊥ }
    ensures number_never_given { IsWellFormedTrain track_a stop_1 no_limit never_given → ⊥ }
    ensures group_at_another_position { IsWellFormedTrain track_a stop_1 no_limit (placed_at group_elsewhere) → ⊥ }
    ensures group_of_another_direction { IsWellFormedTrain track_a stop_1 no_limit (placed_at group_turned) → ⊥ }
{}

/// What escalation promises of a train that was told stop 1 conditionally, under identifier 0 with stamp 1, and does
/// not answer.
///
/// Right: after two reports it stays as it is. After three the stop is revoked, told at once under identifier 1, and
/// told so from then on.
///
/// Wrong: after three reports it stays as it is, or is up to date. A train is not well-formed if four reports are
/// counted, or one for a stop that was told at once.
pub fn escalation_witnesses()
    ensures two_reports { StaysAsItIs track_a stop_1 no_limit (unanswered 2) }
    ensures forced { (settled track_a stop_1 no_limit (unanswered 3)).forced ≡ 1 ∷ [] }
    ensures told_again { (settled track_a stop_1 no_limit (unanswered 3)).stops ≡ (0, Revoking 2)
        ∷ (1, told_now 1 3 Unconditional) ∷ [] }
    ensures three_reports_change { StaysAsItIs track_a stop_1 no_limit (unanswered 3) → ⊥ }
    ensures three_reports_are_behind { IsUpToDate track_a stop_1 no_limit (unanswered 3) → ⊥ }
    ensures four_reports { IsWellFormedTrain track_a stop_1 no_limit (unanswered 4) → ⊥ }
    ensures counted_at_once { IsWellFormedTrain track_a stop_1 no_limit counted_unconditional → ⊥ }
{}
