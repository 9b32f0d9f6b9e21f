//! Worked cases of the laws: correct ones, which satisfy them, and wrong ones, which violate them.

ghost use Rattle.std.specs.Prelude.{Some, None, is_none};
ghost use Rattle.rbc_picture.specs.Trains.{StandsOnce, is_place_on};
ghost use Rattle.rbc_picture.specs.Window.{KeepsOrder};
ghost use Rattle.rbc_picture.specs.Witnesses.{on_line_1, always_on_line_0, never_lost};
ghost use Rattle.rbc_picture.specs.Witnesses.{x_to_1000, turned, a_pixel_short, broken};

/// A train is placed on line 1, or has no place.
///
/// Right: the tests of the picture.
///
/// Wrong: each train is on line 0; or none is without a place.
pub fn part_law_witnesses()
    ensures placed { StandsOnce is_place_on (λ place. is_none place) (Some on_line_1) }
    ensures unplaced { StandsOnce is_place_on (λ place. is_none place) None }
    ensures on_line_0 { StandsOnce always_on_line_0 (λ place. is_none place) (Some on_line_1) → ⊥ }
    ensures never_lost { StandsOnce is_place_on never_lost None → ⊥ }
{}

/// A window shows the places from 0 to 1000.
///
/// Right: where they stand on the picture.
///
/// Wrong: the picture is turned; its upper end is a pixel too far to the left; or the middle stands at the left.
pub fn order_law_witnesses()
    ensures straight { KeepsOrder x_to_1000 0 1000 }
    ensures turned { KeepsOrder turned 0 1000 → ⊥ }
    ensures short { KeepsOrder a_pixel_short 0 1000 → ⊥ }
    ensures broken { KeepsOrder broken 0 1000 → ⊥ }
{}
