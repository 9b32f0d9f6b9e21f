//! Worked cases of the laws and of the records: correct ones, which satisfy the conclusion of a law or `Agrees`, and
//! wrong ones, which violate it.

ghost use Rattle.std.specs.Prelude.{◌≡◌, ◌∷◌, [], Some, None};
ghost use Rattle.rbc_settle.specs.Settling.{last_stamp};
ghost use Rattle.rbc_records.specs.declared.record.Key.TheVariants as key;
ghost use Rattle.rbc_rule.specs.declared.input.Input.TheVariants as input;
ghost use Rattle.rbc_rule.specs.Step.{step};
ghost use Rattle.rbc_rule.specs.WellFormed.{IsWellFormed};
ghost use Rattle.rbc_rule.specs.Saying.{StopsBefore, Says};
ghost use Rattle.rbc_rule.specs.Told.{EachTrainIsUpToDate};
ghost use Rattle.rbc_rule.specs.Records.{Agrees};
ghost use Rattle.rbc_rule_laws.specs.Witnesses.{track_a, facing_up, facing_down, stop_before, stop_now, restrict_to};
ghost use Rattle.rbc_rule_laws.specs.Witnesses.{revoke};
ghost use Rattle.rbc_rule_laws.specs.Witnesses.{two_stops, told_as_0, world_told, told_world, told_twice};
ghost use Rattle.rbc_rule_laws.specs.Witnesses.{world_released, world_due};
ghost use Rattle.rbc_rule_laws.specs.Witnesses.{world_restricted, world_off_line, world_numbered_high, spot_at};
ghost use Rattle.rbc_rule_laws.specs.Witnesses.{only_train_7, on_line_0, IsSaidIn, IsSaidOfStop, IsSaidOfLimit};
ghost use Rattle.rbc_rule_laws.specs.Witnesses.{IsSaidAtEnrolment, three_trains, engines_there, all_lists_read};
ghost use Rattle.rbc_rule_laws.specs.Witnesses.{read_alone};

/// Train 7 of 200 m stands 200 m from balise group 5, which lies at 10000 on line 0; nothing was told to it, and stop 1
/// or a restriction to 80 km/h becomes active there.
///
/// Right: facing up, a stop of 20000 to 21000 is told by 10000 units of 10 cm, and one of 50005 to 60000 by 4000 units
/// of 1 m; facing down, one of 1000 to 3000 is told by 7000 units the other way; a restriction of 9000 to 11000 is told
/// from the balise group on, over 1000 units; two stops that are active when a train is enrolled are told by two
/// messages; a stop that is released is revoked under its identifier; a release that is refused sends nothing; and a
/// message that tells 10000 units says to stop before 20000.
///
/// Wrong: the spare scale 5; 0 units for an edge that is 10000 units ahead; a restriction of 11050 to 12050 told from
/// 11000 to 12100; its speed in units of 1 km/h; its part told the wrong way; a distance that leads beyond the end of
/// the line; Q_DIR both; a distance rounded up, and one in coarser units than need be; a message dropped; a message
/// sent twice; one sent to another train; the revocation of another identifier; a message though the release is
/// refused; and another place read from the message.
pub fn says_law_witnesses()
    ensures edge_at_20000 { IsSaidOfStop facing_up 20000 21000 (stop_before 1 0 10000 ∷ []) }
    ensures edge_at_50005 { IsSaidOfStop facing_up 50005 60000 (stop_before 1 1 4000 ∷ []) }
    ensures edge_at_3000 { IsSaidOfStop facing_down 1000 3000 (stop_before 0 0 7000 ∷ []) }
    ensures part_ahead { IsSaidOfLimit facing_up 9000 11000 (restrict_to 1 0 0 1000 16 ∷ []) }
    ensures both_told { IsSaidAtEnrolment (stop_now 1 0 ∷ stop_now 2 1 ∷ []) }
    ensures revoked { IsSaidIn told_world (input.Release 1) ((7, revoke 0 ∷ []) ∷ []) }
    ensures refused { IsSaidIn told_world (input.Release 2) [] }
    ensures place_read { Says track_a (stop_before 1 0 10000) (StopsBefore 0 (spot_at 20000) ∷ []) }
    ensures spare_scale { IsSaidOfStop facing_up 20000 21000 (stop_before 1 5 0 ∷ []) → ⊥ }
    ensures too_short { IsSaidOfStop facing_up 20000 21000 (stop_before 1 0 0 ∷ []) → ⊥ }
    ensures whole_hundreds { IsSaidOfLimit facing_up 11050 12050 (restrict_to 1 0 1000 1100 16 ∷ []) → ⊥ }
    ensures speed_in_ones { IsSaidOfLimit facing_up 11050 12050 (restrict_to 1 0 1050 1000 80 ∷ []) → ⊥ }
    ensures wrong_way { IsSaidOfLimit facing_up 11050 12050 (restrict_to 0 0 1050 1000 16 ∷ []) → ⊥ }
    ensures off_the_line { IsSaidOfStop facing_down 0 0 (stop_before 0 0 12000 ∷ []) → ⊥ }
    ensures both_ways { IsSaidOfStop facing_down 1000 3000 (stop_before 2 0 7000 ∷ []) → ⊥ }
    ensures rounded_up { IsSaidOfStop facing_up 50005 60000 (stop_before 1 1 4001 ∷ []) → ⊥ }
    ensures too_coarse { IsSaidOfStop facing_up 50005 60000 (stop_before 1 2 400 ∷ []) → ⊥ }
    ensures dropped { IsSaidAtEnrolment (stop_now 1 0 ∷ []) → ⊥ }
    ensures sent_twice { IsSaidOfStop facing_up 20000 21000 (stop_before 1 0 10000 ∷ stop_before 1 0 10000 ∷ []) → ⊥ }
    ensures other_train { IsSaidIn (only_train_7 facing_up) (input.Stop 1 (on_line_0 20000 21000 ∷ []))
        ((8, stop_before 1 0 10000 ∷ []) ∷ []) → ⊥ }
    ensures other_identifier { IsSaidIn told_world (input.Release 1) ((7, revoke 1 ∷ []) ∷ []) → ⊥ }
    ensures sent_though_refused { IsSaidIn told_world (input.Release 2) ((7, revoke 0 ∷ []) ∷ []) → ⊥ }
    ensures other_place { Says track_a (stop_before 1 0 10000) (StopsBefore 0 (spot_at 20001) ∷ []) → ⊥ }
{}

/// Stop 1 of 20000 to 21000 on line 0 is active, and train 7 stands 200 m beyond balise group 5 and faces it.
///
/// Right: the stop is told to the train; it is not, and the train's stamps are used up.
///
/// Wrong: the stop is not told; nor is it to a train without a place; a stop is told that is not active any more; a
/// restriction that concerns the train is not told; the stop is told conditionally, was left unanswered in three
/// reports, and identifiers are free under which it could be told again.
pub fn told_law_witnesses()
    ensures told { EachTrainIsUpToDate track_a told_world }
    ensures stamps_ended { EachTrainIsUpToDate track_a (world_told (Some facing_up) last_stamp []) }
    ensures not_told { EachTrainIsUpToDate track_a (world_told (Some facing_up) 1000 []) → ⊥ }
    ensures not_told_without_place { EachTrainIsUpToDate track_a (world_told None 1000 []) → ⊥ }
    ensures not_revoked { EachTrainIsUpToDate track_a world_released → ⊥ }
    ensures restriction_not_told { EachTrainIsUpToDate track_a world_restricted → ⊥ }
    ensures left_unanswered { EachTrainIsUpToDate track_a world_due → ⊥ }
{}

/// Train 7 stands 200 m beyond balise group 5, facing up, and stop 1 of 20000 to 21000 becomes active.
///
/// Right: after that step the stop is told to the train under identifier 0 and stamp 1001, and that world is
/// well-formed.
///
/// Wrong: one number is told under two identifiers; a slot's stamp is above the train's last one; the stop is active
/// and not told; the train may stand beyond the end of its line; a stop has a number above the last one.
pub fn step_law_witnesses()
    ensures after_stop { (step track_a (only_train_7 facing_up) (input.Stop 1 (on_line_0 20000 21000 ∷ []))).world
        ≡ told_world }
    ensures well_formed { IsWellFormed track_a told_world }
    ensures told_twice { IsWellFormed track_a told_twice → ⊥ }
    ensures stamp_above { IsWellFormed track_a (world_told (Some facing_up) 1000 (told_as_0 1)) → ⊥ }
    ensures not_settled { IsWellFormed track_a (world_told (Some facing_up) 1000 []) → ⊥ }
    ensures off_the_line { IsWellFormed track_a world_off_line → ⊥ }
    ensures number_above { IsWellFormed track_a world_numbered_high → ⊥ }
{}

/// Train 7 stands on line 0, train 8 has no place, and train 9 stands on line 2.
///
/// Right: the roster has all three, line 0 lists train 7, line 1 has no record, line 2 lists train 9,
/// train 8 is listed without a place, and train 7 has its own record.
///
/// Wrong: line 0 lists train 8 too; line 0 has no record; line 1 lists train 7; train 9 is listed
/// without a place, beside train 8; the trains without a place have no record; line 1 has a record
/// that lists nobody.
pub fn records_witnesses()
    ensures all_lists { Agrees all_lists_read three_trains }
    ensures one_too_many { Agrees (read_alone (key.Line 0) (engines_there (7 ∷ 8 ∷ []))) three_trains → ⊥ }
    ensures line_absent { Agrees (read_alone (key.Line 0) None) three_trains → ⊥ }
    ensures other_line { Agrees (read_alone (key.Line 1) (engines_there (7 ∷ []))) three_trains → ⊥ }
    ensures placed_among_unplaced { Agrees (read_alone key.Unplaced (engines_there (8 ∷ 9 ∷ []))) three_trains → ⊥ }
    ensures unplaced_absent { Agrees (read_alone key.Unplaced None) three_trains → ⊥ }
    ensures empty_list { Agrees (read_alone (key.Line 1) (engines_there [])) three_trains → ⊥ }
{}
