//! The title of a train: where it may be, what it is told, and what it is not told.

ghost use Rattle.std.specs.Prelude.{OnOk, map, string_bytes};
ghost use Rattle.rbc_picture.specs.Shown.{IsShownOn};
ghost use Rattle.rbc_picture.specs.Titles.{train_texts, waiting_sentence};
ghost use Rattle.rbc_picture.specs.Trains.{train_shown};

use crate::document::{push_piece, push_text};
use crate::svg::Svg;
use crate::titles::{train_title, waiting_sentence};
use crate::train_state::TrainState;
use rbc_account::Waiting;
use std::alloc::{AllocError, Global};

/// Adds the title of a train to a document, on a line of its own.
pub(crate) fn push_train(
    alloc: Global,
    document: &mut String,
    train: &TrainState,
) -> Result<(), AllocError>
    ensures { OnOk result (IsShownOn (train_texts (train_shown train.now)) (string_bytes document.old)
        (string_bytes document.new)) }
{
    let title = train_title(alloc, train.engine, &train.place)?;
    push_text(document, title.as_str())?;
    push_piece(document, told(alloc, train))?;
    push_waiting(alloc, document, &train.waiting)?;
    push_piece(document, Svg::of(alloc, "</title>\n"))
}

/// What each identifier of a train is held for.
fn told(alloc: Global, train: &TrainState) -> Svg {
    let mut svg = Svg::new(alloc);
    svg.told_sentences(train);
    svg
}

/// Adds a sentence for each stop and restriction that a train is not told.
fn push_waiting(alloc: Global, document: &mut String, waiting: &[Waiting]) -> Result<(), AllocError>
    ensures { OnOk result (IsShownOn (map (λ one. waiting_sentence one.what) waiting.now)
        (string_bytes document.old) (string_bytes document.new)) }
{
    for one in waiting {
        push_text(document, waiting_sentence(alloc, one.what)?.as_str())?;
    }
    Ok(())
}
