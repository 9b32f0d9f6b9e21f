//! A log in words.

ghost use Rattle.std.specs.Prelude.{[], OnOk};
ghost use Rattle.rbc_explain.specs.Log.{IsInWords};
ghost use Rattle.rbc_explain.specs.Marked.{IsToldOn};

use crate::input_block::{TrackOfRun, push_block};
use crate::log::push_words;
use crate::log_end::{end, sums};
use crate::log_head::head;
use rbc_account::{Account, Block, LogForm, LogParts};
use rbc_track_report::NamedTrack;
use std::alloc::{AllocError, Global};

/// The words of a log, on a track.
#[derive(Drop)]
pub(crate) struct Words {
    pub track: NamedTrack,
    /// The parts of the log. An end that stands alone has no empty line before it.
    pub parts: LogParts,
}

/// Adds the empty line before the end, unless the end stands alone.
fn push_gap(log: &mut Vec<u8>, parts: LogParts) -> Result<(), AllocError>
    ensures { OnOk result (IsToldOn [] log.old.items log.new.items) }
{
    if parts == LogParts::End {
        return Ok(());
    }
    push_words(log, b"\n")
}

impl LogForm for Words {
    ghost is_text = { λ _ section text. IsInWords section text };

    fn push_head(&self, alloc: Global, log: &mut Vec<u8>, from: u64) -> Result<(), AllocError> {
        push_words(log, head(alloc, &self.track, from)?.as_bytes())
    }

    fn push_block(
        &self,
        alloc: Global,
        log: &mut Vec<u8>,
        account: &Account,
        line: &[u8],
        block: &Block,
    ) -> Result<(), AllocError> {
        let of = TrackOfRun {
            track: account.track(),
            lines: self.track.lines.len(),
        };
        push_block(alloc, log, of, line, block)
    }

    fn push_end(
        &self,
        alloc: Global,
        log: &mut Vec<u8>,
        account: &Account,
    ) -> Result<(), AllocError> {
        push_gap(log, self.parts)?;
        push_words(log, sums(alloc, account)?.as_bytes())?;
        let standing = account.standing(alloc)?;
        push_words(log, end(alloc, account, &standing)?.as_bytes())
    }
}
