//! Worked cases of the law on places and of reports, right ones and wrong ones.

ghost use Rattle.rbc_track.specs.declared.group.Way.TheVariants.{Up, Down};
ghost use Rattle.rbc_place.specs.declared.reporting.NoReport.TheVariants.{NoLine, Beyond, NoGroup};
ghost use Rattle.rbc_place.specs.ReportWitnesses.{Tells, TellsNothing, at_the_group, against, from_6, in_metres};
ghost use Rattle.rbc_place.specs.Witnesses.{facing_up, told_in_metres, unequal_doubts, facing_down, from_to, Holds};

/// Worked cases of the law on places, for a train of 200 m whose balise group lies at 1,000 m. Its front is
/// reported 200 m from there, and each doubt is 10 m.
///
/// - Facing up beyond the group it may stand from 990 m to 1,210 m, also where the report counts in metres. Facing
///   down below the group it may stand from 790 m to 1,010 m.
/// - With doubts of 5 m over and 20 m under it may stand from 995 m to 1,220 m, and not where the two are swapped.
/// - Wrong too: the length added ahead of the front, no doubts, doubts in metres taken as units of 10 cm, and a
///   front on the other side of the group.
pub fn place_law_witnesses()
    ensures holds { Holds facing_up (from_to Up 9900 12100) }
    ensures holds_in_metres { Holds told_in_metres (from_to Up 9900 12100) }
    ensures holds_unequal_doubts { Holds unequal_doubts (from_to Up 9950 12200) }
    ensures holds_facing_down { Holds facing_down (from_to Down 7900 10100) }
    ensures doubts_swapped { Holds unequal_doubts (from_to Up 9800 12050) → ⊥ }
    ensures length_ahead { Holds facing_up (from_to Up 11900 14100) → ⊥ }
    ensures no_doubts { Holds facing_up (from_to Up 10000 12000) → ⊥ }
    ensures doubts_not_scaled { Holds told_in_metres (from_to Up 9990 12010) → ⊥ }
    ensures on_the_other_side { Holds facing_down (from_to Down 11900 14100) → ⊥ }
{}

/// Worked cases of the report of a train at a place, on a line of 30 km. Balise group 5 stands at 1,000 m, and 6 and 7
/// at 6,000 m. The nominal direction is down at 6 and up at the others.
///
/// - A train at group 5 that faces up is 0 m from it. With a doubt of 5 m, one that faces down at 900 m is 100 m from
///   group 5, and one that faces up at 6,100 m is 100 m from group 6. A distance of 4,000.5 m is told in metres: 4,000,
///   and a doubt of 1.6 m as 2 m over and 3 m under.
/// - There is no report of a train that faces up at 999.9 m, of one beyond the line, or of one on another line.
/// - Wrong: the balise group ahead, the farther one, the one with the higher number, a scale that is too great, the
///   nominal direction in place of the other one, a doubt that is rounded down, and one without the rest of the
///   distance.
pub fn report_witnesses()
    ensures at_the_group { Tells 10000 Up 0 at_the_group }
    ensures facing_down { Tells 9000 Down 50 against }
    ensures least_number { Tells 61000 Up 50 from_6 }
    ensures in_metres { Tells 50005 Up 16 in_metres }
    ensures no_group { TellsNothing 0 9999 Up NoGroup }
    ensures beyond { TellsNothing 0 300001 Up (Beyond 300000) }
    ensures no_line { TellsNothing 1 0 Up NoLine }
    ensures group_ahead { Tells 9000 Up 50 against → ⊥ }
    ensures farther_group { Tells 61000 Up 50 (record in_metres { distance = 5100; over = 5; under = 5 }) → ⊥ }
    ensures higher_number { Tells 61000 Up 50 (record from_6 { lrbg = 7; dir = 1; side = 1 }) → ⊥ }
    ensures scale_too_great { Tells 10000 Up 0 (record at_the_group { scale = 1 }) → ⊥ }
    ensures direction_turned { Tells 9000 Down 50 (record against { dir = 1 }) → ⊥ }
    ensures side_turned { Tells 9000 Down 50 (record against { side = 1 }) → ⊥ }
    ensures doubt_rounded_down { Tells 50005 Up 16 (record in_metres { over = 1 }) → ⊥ }
    ensures rest_left_out { Tells 50005 Up 16 (record in_metres { under = 2 }) → ⊥ }
{}
