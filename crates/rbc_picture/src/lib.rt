//! A picture of a track, of its trains, and of the stops and restrictions that stand after the inputs of a batch: SVG.
//!
//! It stands on rbc_account, which tells the state as values. `dispatch picture` calls [`picture`], and rests on
//! `IsPictureOfRun` (specs/Drawn.antt): each line, each active stretch, and each train with what it is not told are on
//! it, as far as a [`Selection`] asks for them, and it says how much is left out (specs/Selections.antt). [`part_law`]:
//! each train stands in one part. [`order_law`]: order on the picture is order on the line. The look is tested.
//!
//! Begin with batch_picture.rt, then parts.rt (which parts of lines are drawn), scene.rt (what stands on them), head.rt
//! and plan.rt (panels, and trains without a place). window.rt gives the places on a panel, escape.rt texts in XML,
//! lanes.rt keeps trains apart, nearness.rt and posts.rt arrange the marks of a train.
//!
//! Drawing keeps a lack of memory in the `Svg`, whose `ended` reports it. Any other function that cannot report it
//! takes no memory. `AllocError` means that memory was refused; what the function was changing is then of no further
//! use. A docstring names each other cause of an error.
#![tactic(auto)]

mod axis;
mod bands;
mod bar;
mod batch_picture;
mod colours;
mod document;
mod escape;
mod fault;
mod groups;
mod head;
mod label;
mod lanes;
mod law;
mod legend;
mod lost;
mod nearness;
mod panel;
mod parts;
mod pixels;
mod plan;
mod posts;
mod scene;
mod selection;
mod sentences;
mod shapes;
mod short_words;
mod stretches;
mod svg;
mod texts;
mod titles;
mod train_shape;
mod train_state;
mod train_texts;
mod window;
mod witnesses;

pub use batch_picture::picture;
pub use fault::DrawError;
pub use law::{order_law, part_law};
pub use selection::{LinePart, Selection};
pub use witnesses::{order_law_witnesses, part_law_witnesses};
