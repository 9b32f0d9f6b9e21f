//! Laws of a picture.

ghost use Rattle.rbc_picture.specs.Trains.{EachStandsOnce};
ghost use Rattle.rbc_picture.specs.Window.{EachWindowKeepsOrder};

/// Each train stands in one part of a picture: in the panel of its line, or in the list of the trains without a place.
pub fn part_law()
    ensures { EachStandsOnce }
{}

/// Order on the picture is order on the line, and the ends of a window stand at the ends of the panel.
pub fn order_law()
    ensures { EachWindowKeepsOrder }
{}
