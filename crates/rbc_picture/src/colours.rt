//! The colours and edges of a picture. No colour carries a meaning alone.

/// Stops.
pub(crate) const STOP: &str = "#D55E00";

/// Words, trains and balise groups.
pub(crate) const DARK: &str = "#1A1A1A";

/// The line, and words of less weight.
pub(crate) const GREY: &str = "#595959";

/// What is not told.
pub(crate) const RED: &str = "#A30000";

/// Words beside the sign of a stop.
pub(crate) const BROWN: &str = "#9C3F00";

/// What lies behind.
pub(crate) const WHITE: &str = "#FFFFFF";

/// The edge of the sign of a stop, as attributes.
pub(crate) const SIGN_EDGE: &str = " stroke=\"#D55E00\" stroke-width=\"2\"";

/// The edge of the band of a stop.
pub(crate) const STOP_EDGE: &str = " stroke=\"#D55E00\" stroke-width=\"1.5\"";

/// The edge of the band of a restriction.
pub(crate) const LIMIT_EDGE: &str = " stroke=\"#0072B2\" stroke-width=\"1.5\"";

/// The edge of a balise group, and of the frame round what is shown of a line.
pub(crate) const DARK_EDGE: &str = " stroke=\"#1A1A1A\" stroke-width=\"1.5\"";

/// The edge of the box of a train without a place.
pub(crate) const DASHED_EDGE: &str = " stroke=\"#595959\" stroke-dasharray=\"4 3\"";

/// What fills the band of a stop.
pub(crate) const STRIPES: &str = "url(#stop)";

/// What fills the band of a restriction.
pub(crate) const DOTS: &str = "url(#limit)";
