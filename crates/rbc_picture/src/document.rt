//! The text of a document while it is joined: pieces that were drawn, and texts that it has to show.

ghost use Rattle.std.specs.Prelude.{[], ◌∷◌, OnOk, string_bytes};
ghost use Rattle.rbc_picture.specs.Shown.{IsShownOn};

use crate::svg::Svg;
use std::alloc::AllocError;

/// Adds a piece. Reports a lack of memory here or while the piece was drawn.
#[tactic(auto, using(crate::proofs::Joining::shown_piece))]
pub(crate) fn push_piece(document: &mut String, piece: Svg) -> Result<(), AllocError>
    ensures { OnOk result (IsShownOn [] (string_bytes document.old) (string_bytes document.new)) }
{
    let piece = piece.ended()?;
    document.push_str(piece.as_str())
}

/// Adds a text as it is.
#[tactic(auto, using(crate::proofs::Joining::shown_text))]
pub(crate) fn push_text(document: &mut String, text: &str) -> Result<(), AllocError>
    ensures { OnOk result (IsShownOn (text.now ∷ []) (string_bytes document.old) (string_bytes document.new)) }
{
    document.push_str(text)
}
