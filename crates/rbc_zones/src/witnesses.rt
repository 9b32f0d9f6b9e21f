//! Worked cases of the laws: correct ones, which satisfy them, and wrong ones, which violate them.

ghost use Rattle.rbc_zones.specs.Concerns.{IsToldRightly};
ghost use Rattle.rbc_zones.specs.Limits.{IsToldPart};
ghost use Rattle.rbc_zones.specs.Witnesses.{facing_up, facing_down, near_stop, far_stop, double_stop, stop_elsewhere};
ghost use Rattle.rbc_zones.specs.Witnesses.{low_stop, lowest_stop, restriction};

/// Worked cases of the law on stops, for a train whose balise group lies at 1,000 m. Each case says a Q_SCALE and a
/// D_EMERGENCYSTOP.
///
/// - Facing up, an edge at 5,000.5 m is 4,000 units of 1 m away. Facing down, one at 300 m is 7,000 units of 10 cm
///   away.
/// - Wrong: 0 units of a scale that does not exist; 4,001 units of 1 m, which end beyond the edge; 400 units of 10 m,
///   which are coarser than they have to be; 12,000 units of 10 cm though the line ends after 10,000.
/// - Wrong too: a distance from the front of the train, the farther of two edges, the far end of a stop, and an edge
///   on another line.
pub fn stop_law_witnesses()
    ensures told_in_metres { IsToldRightly facing_up far_stop 50005 1 4000 }
    ensures told_facing_down { IsToldRightly facing_down low_stop 3000 0 7000 }
    ensures no_such_scale { IsToldRightly facing_up near_stop 20000 5 0 → ⊥ }
    ensures beyond_the_edge { IsToldRightly facing_up far_stop 50005 1 4001 → ⊥ }
    ensures too_coarse { IsToldRightly facing_up far_stop 50005 2 400 → ⊥ }
    ensures below_the_line { IsToldRightly facing_down lowest_stop 0 0 12000 → ⊥ }
    ensures counted_from_the_front { IsToldRightly facing_up far_stop 50005 1 3800 → ⊥ }
    ensures the_farther_edge { IsToldRightly facing_up double_stop 50005 1 4000 → ⊥ }
    ensures the_far_end { IsToldRightly facing_up near_stop 21000 0 11000 → ⊥ }
    ensures on_another_line { IsToldRightly facing_up stop_elsewhere 50005 1 4000 → ⊥ }
{}

/// Worked cases of the law on restrictions, for a train whose balise group lies at 1,000 m. Each case says a
/// Q_SCALE, a D_TSR and an L_TSR.
///
/// - Facing up, a restriction from 1,105 m to 1,205 m begins at 1,050 units of 10 cm and is 1,000 long. One from
///   1,105.5 m to 5,105.5 m begins at 105 units of 1 m and is 4,001 long. Of one from 900 m to 1,205 m, in which the
///   balise group lies, 2,050 units of 10 cm are ahead. Facing down, one from 700 m to 500 m begins at 3,000 units of
///   10 cm and is 2,000 long.
/// - Wrong: 5 m more at each end, a length rounded down, a start rounded up, units of 1 m though those of 10 cm have
///   room, and a start counted from the front of the train.
/// - Wrong too: the whole length though the balise group lies in the restriction, and facing down the ends swapped.
pub fn limit_law_witnesses()
    ensures told { IsToldPart (restriction 11050 12050) facing_up 0 1050 1000 }
    ensures told_in_metres { IsToldPart (restriction 11055 51055) facing_up 1 105 4001 }
    ensures told_at_the_group { IsToldPart (restriction 9000 12050) facing_up 0 0 2050 }
    ensures told_facing_down { IsToldPart (restriction 5000 7000) facing_down 0 3000 2000 }
    ensures too_long { IsToldPart (restriction 11050 12050) facing_up 0 1000 1100 → ⊥ }
    ensures length_rounded_down { IsToldPart (restriction 11055 51055) facing_up 1 105 4000 → ⊥ }
    ensures start_rounded_up { IsToldPart (restriction 11055 51055) facing_up 1 106 4000 → ⊥ }
    ensures too_coarse { IsToldPart (restriction 11050 12050) facing_up 1 105 100 → ⊥ }
    ensures counted_from_the_front { IsToldPart (restriction 11050 12050) facing_up 0 0 50 → ⊥ }
    ensures the_part_behind_told { IsToldPart (restriction 9000 12050) facing_up 0 0 3050 → ⊥ }
    ensures turned_round { IsToldPart (restriction 5000 7000) facing_down 0 5000 2000 → ⊥ }
{}
