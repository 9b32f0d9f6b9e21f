//! The law on places.

ghost use Rattle.rbc_place.specs.Reach.{EachPlaceHoldsItsTrain};

/// The interval of a place has exactly those places of its line at which a part of the train may stand.
pub fn place_law()
    ensures { EachPlaceHoldsItsTrain }
{}
