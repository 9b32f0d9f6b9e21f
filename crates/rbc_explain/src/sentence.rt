//! The sentences on messages, from what the messages say.

ghost use Rattle.std.specs.Prelude.{◌≡◌, IfOk, string_bytes};
ghost use Rattle.rbc_explain.specs.Sentences.{stop_sentence, restriction_sentence, packet_sentence};

use crate::said::Spoken;
use std::alloc::{AllocError, Global};

/// The sentence on a message to a train on a stop.
pub(crate) fn stop_sentence(
    alloc: Global,
    engine: u32,
    number: u32,
    said: &Spoken,
) -> Result<String, AllocError>
    ensures { IfOk result (λ text. string_bytes text ≡ stop_sentence engine number said.now) }
{
    format!(in alloc; "  To train {engine}, for stop {number}: {said}\n")
}

/// The sentence on a message to a train on one restriction.
pub(crate) fn restriction_sentence(
    alloc: Global,
    engine: u32,
    number: u32,
    said: &Spoken,
) -> Result<String, AllocError>
    ensures { IfOk result (λ text. string_bytes text ≡ restriction_sentence engine number said.now) }
{
    format!(in alloc; "  To train {engine}, for restriction {number}: {said}\n")
}

/// The sentence on one of several packets.
pub(crate) fn packet_sentence(
    alloc: Global,
    number: u32,
    said: &Spoken,
) -> Result<String, AllocError>
    ensures { IfOk result (λ text. string_bytes text ≡ packet_sentence number said.now) }
{
    format!(in alloc; "  For restriction {number}: {said}\n")
}
