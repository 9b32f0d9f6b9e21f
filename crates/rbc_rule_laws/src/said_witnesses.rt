//! Worked cases of `says_law` for each kind of message: correct ones, and wrong ones that differ from them in one
//! variable.
//!
//! Train 7 of 200 m stands 200 m beyond balise group 5, which lies at 10000 on line 0, and faces up, unless it is said
//! otherwise.

ghost use Rattle.std.specs.Prelude.{pos, true, false, [], ◌∷◌};
ghost use Rattle.rbc_zones.specs.declared.limit.Dirs.TheVariants as dirs;
ghost use Rattle.rbc_rule.specs.declared.input.Input.TheVariants as input;
ghost use Rattle.rbc_rule_laws.specs.Witnesses.{facing_up, short_of_5, on_line_0, stop_before, stop_before_as};
ghost use Rattle.rbc_rule_laws.specs.Witnesses.{stop_at_once};
ghost use Rattle.rbc_rule_laws.specs.Witnesses.{stop_now, restrict_to, restrict_as, revoke, lift, naming, told_world};
ghost use Rattle.rbc_rule_laws.specs.Witnesses.{world_limited, IsSaidIn, IsSaidOfStop, IsSaidOfLimit};
ghost use Rattle.rbc_rule_laws.specs.Witnesses.{IsSaidAtEnrolment};
ghost use Rattle.rbc_rule_laws.specs.Witnesses.{SaysByPlaceOf, IsSaidAgain, IsSaidBeforeAgain, lift_0, restrict_1};
ghost use Rattle.rbc_rule_laws.specs.Witnesses.{of_packets, IsSaidOfTwo, stamped, asking, IsSaidAtTheEnd, IsSaidOfIdentifier16};

/// Messages 15 and 16: stop 1 becomes active on 20000 to 21000, on 12100 to 13000, which meets the train, or for a
/// train that stands short of its balise group on 10000 to 11000.
///
/// Right: to stop at once; by 0 units at the balise group itself; and by the place alone, 15000 units of 10 m from
/// balise group 6, which lies at 200000, to 50000.
///
/// Wrong: a distance one short, and one far; the other direction, also by 0 units; another balise group in 15 and in
/// 16, also if the same place is meant; another identifier in 15 and in 16; a distance that does not count from the
/// balise group itself; message 15 to a train that has to stop at once, and 16 to one that has not.
pub fn stop_witnesses()
    ensures at_once { IsSaidOfStop facing_up 12100 13000 (stop_at_once ∷ []) }
    ensures at_the_group { IsSaidOfStop short_of_5 10000 11000 (stop_before 1 0 0 ∷ []) }
    ensures by_place { SaysByPlaceOf (naming 6 (stop_before 1 1 15000)) }
    ensures one_short { IsSaidOfStop facing_up 20000 21000 (stop_before 1 0 9999 ∷ []) → ⊥ }
    ensures one_far { IsSaidOfStop facing_up 20000 21000 (stop_before 1 0 10001 ∷ []) → ⊥ }
    ensures turned_at_the_group { IsSaidOfStop short_of_5 10000 11000 (stop_before 0 0 0 ∷ []) → ⊥ }
    ensures other_group { IsSaidOfStop facing_up 20000 21000 (naming 6 (stop_before 1 0 10000) ∷ []) → ⊥ }
    ensures same_place { IsSaidOfStop facing_up 50005 60000 (naming 6 (stop_before 1 1 15000) ∷ []) → ⊥ }
    ensures at_once_other_group { IsSaidOfStop facing_up 12100 13000 (naming 6 stop_at_once ∷ []) → ⊥ }
    ensures other_identifier { IsSaidOfStop facing_up 20000 21000 (stop_before_as 1 (pos 0) ∷ []) → ⊥ }
    ensures at_once_other_identifier { IsSaidAtEnrolment (stop_now 1 0 ∷ stop_now 2 2 ∷ []) → ⊥ }
    ensures with_reference { IsSaidOfStop facing_up 20000 21000 (stop_before_as 0 (pos 1) ∷ []) → ⊥ }
    ensures before_for_at_once { IsSaidOfStop facing_up 12100 13000 (stop_before 1 0 2100 ∷ []) → ⊥ }
    ensures at_once_for_before { IsSaidOfStop facing_up 20000 21000 (stop_at_once ∷ []) → ⊥ }
{}

/// T_TRAIN and M_ACK of each message. The last stamp of train 7 is 1000, or 0 if it is enrolled, or 1001 if it was told
/// stop 1 or restriction 1.
///
/// Wrong: the stamp for an unknown time, also if it is the next one; the stamp of the message before; a stamp left out;
/// two messages of one stamp, and in the other order; and an answer by the stamp asked for by messages 15 and 16, or
/// not by messages 18 and 24.
pub fn head_witnesses()
    ensures unknown_time { IsSaidOfStop facing_up 20000 21000 (stamped 4294967295 (stop_before 1 0 10000) ∷ []) → ⊥ }
    ensures no_time_left { IsSaidAtTheEnd (stamped 4294967295 (stop_before 1 0 10000)) → ⊥ }
    ensures stamp_again { IsSaidOfStop facing_up 20000 21000 (stamped 1000 (stop_before 1 0 10000) ∷ []) → ⊥ }
    ensures stamp_left_out { IsSaidOfStop facing_up 20000 21000 (stamped 1002 (stop_before 1 0 10000) ∷ []) → ⊥ }
    ensures one_stamp_for_two { IsSaidAtEnrolment (stop_now 1 0 ∷ stop_now 1 1 ∷ []) → ⊥ }
    ensures descending { IsSaidAtEnrolment (stop_now 2 0 ∷ stop_now 1 1 ∷ []) → ⊥ }
    ensures edge_asks { IsSaidOfStop facing_up 20000 21000 (asking true (stop_before 1 0 10000) ∷ []) → ⊥ }
    ensures at_once_asks { IsSaidOfStop facing_up 12100 13000 (asking true stop_at_once ∷ []) → ⊥ }
    ensures revocation_asks_not { IsSaidIn told_world (input.Release 1) ((7, asking false (revoke 0) ∷ []) ∷ []) → ⊥ }
    ensures packets_ask_not { IsSaidIn world_limited (input.Lift 1) ((7, asking false (lift 2 0) ∷ []) ∷ []) → ⊥ }
{}

/// Message 24 with packet 65: a restriction of 11050 to 12050 to 80 km/h becomes active.
///
/// Right: it begins 1050 units ahead, is 1000 units long, and the train's length delays its end.
///
/// Wrong: one unit less and more, where it begins, how long it is and how fast the train may go; units of 1 m though
/// those of 10 cm have room; the length rounded down, of a restriction of 11055 to 51055; another identifier; the
/// train's length does not delay its end; another balise group.
pub fn restriction_witnesses()
    ensures told { IsSaidOfLimit facing_up 11050 12050 (restrict_to 1 0 1050 1000 16 ∷ []) }
    ensures begins_before { IsSaidOfLimit facing_up 11050 12050 (restrict_to 1 0 1049 1000 16 ∷ []) → ⊥ }
    ensures begins_behind { IsSaidOfLimit facing_up 11050 12050 (restrict_to 1 0 1051 1000 16 ∷ []) → ⊥ }
    ensures too_short { IsSaidOfLimit facing_up 11050 12050 (restrict_to 1 0 1050 999 16 ∷ []) → ⊥ }
    ensures too_long { IsSaidOfLimit facing_up 11050 12050 (restrict_to 1 0 1050 1001 16 ∷ []) → ⊥ }
    ensures too_coarse { IsSaidOfLimit facing_up 11050 12050 (restrict_to 1 1 105 100 16 ∷ []) → ⊥ }
    ensures rounded_down { IsSaidOfLimit facing_up 11055 51055 (restrict_to 1 1 105 4000 16 ∷ []) → ⊥ }
    ensures too_slow { IsSaidOfLimit facing_up 11050 12050 (restrict_to 1 0 1050 1000 15 ∷ []) → ⊥ }
    ensures too_fast { IsSaidOfLimit facing_up 11050 12050 (restrict_to 1 0 1050 1000 17 ∷ []) → ⊥ }
    ensures other_identifier { IsSaidOfLimit facing_up 11050 12050 (restrict_as 1 false ∷ []) → ⊥ }
    ensures front_turned { IsSaidOfLimit facing_up 11050 12050 (restrict_as 0 true ∷ []) → ⊥ }
    ensures other_group { IsSaidOfLimit facing_up 11050 12050 (naming 6 (restrict_to 1 0 1050 1000 16) ∷ []) → ⊥ }
{}

/// Messages 18 and 24 with packet 66: the train was told stop 1, or restriction 1, under identifier 0.
///
/// Right: as the restriction is lifted, its identifier is revoked both ways.
///
/// Wrong: one way; the stop identifier 0 in its place; another identifier; another balise group in 18 and in 24; the
/// restriction identifier 0 in place of the stop's; the revocation of a stop that is active; and an identifier for
/// which the variable has no room.
pub fn revocation_witnesses()
    ensures lifted { IsSaidIn world_limited (input.Lift 1) ((7, lift 2 0 ∷ []) ∷ []) }
    ensures one_way { IsSaidIn world_limited (input.Lift 1) ((7, lift 1 0 ∷ []) ∷ []) → ⊥ }
    ensures as_a_stop { IsSaidIn world_limited (input.Lift 1) ((7, revoke 0 ∷ []) ∷ []) → ⊥ }
    ensures other_identifier { IsSaidIn world_limited (input.Lift 1) ((7, lift 2 1 ∷ []) ∷ []) → ⊥ }
    ensures other_group { IsSaidIn world_limited (input.Lift 1) ((7, naming 6 (lift 2 0) ∷ []) ∷ []) → ⊥ }
    ensures stop_other_group { IsSaidIn told_world (input.Release 1) ((7, naming 6 (revoke 0) ∷ []) ∷ []) → ⊥ }
    ensures as_a_restriction { IsSaidIn told_world (input.Release 1) ((7, lift 2 0 ∷ []) ∷ []) → ⊥ }
    ensures while_active { IsSaidIn told_world (input.Restrict 1 (on_line_0 0 10) dirs.Both 80 false)
        ((7, revoke 0 ∷ []) ∷ []) → ⊥ }
    ensures no_room { IsSaidOfIdentifier16 → ⊥ }
{}

/// Message 16, for a stop that train 7 was told conditionally and has not answered.
///
/// Right: after three reports.
///
/// Wrong: after two; and message 15 once more in its place.
pub fn escalation_witnesses()
    ensures told_again { IsSaidAgain 3 }
    ensures too_soon { IsSaidAgain 2 → ⊥ }
    ensures before_again { IsSaidBeforeAgain 3 → ⊥ }
{}

/// Message 24 with two packets: identifier 0 is revoked, and a restriction of 11050 to 12050 to 80 km/h is told under
/// identifier 1.
///
/// Right: the revocation first, and then the restriction.
///
/// Wrong: one of them alone; the restriction twice; the other order; and another balise group, as for another train.
pub fn packets_witnesses()
    ensures both { IsSaidOfTwo (of_packets (lift_0 ∷ restrict_1 ∷ [])) }
    ensures last_dropped { IsSaidOfTwo (of_packets (lift_0 ∷ [])) → ⊥ }
    ensures first_dropped { IsSaidOfTwo (of_packets (restrict_1 ∷ [])) → ⊥ }
    ensures doubled { IsSaidOfTwo (of_packets (lift_0 ∷ restrict_1 ∷ restrict_1 ∷ [])) → ⊥ }
    ensures other_order { IsSaidOfTwo (of_packets (restrict_1 ∷ lift_0 ∷ [])) → ⊥ }
    ensures of_another_train { IsSaidOfTwo (naming 6 (of_packets (lift_0 ∷ restrict_1 ∷ []))) → ⊥ }
{}
