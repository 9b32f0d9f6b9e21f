//! A log in objects.

ghost use Rattle.std.specs.Prelude.{◌≡◌, ◌++◌, OnOk};
ghost use Rattle.rbc_explain.specs.Marked.{ended};
ghost use Rattle.rbc_json.specs.Log.{IsInObjects};

use crate::end_object::push_end;
use crate::input_object::input_text;
use rbc_account::{Account, Block, LogForm};
use rbc_track_report::NamedTrack;
use std::alloc::{AllocError, Global};

/// The objects of a log, on a track.
#[derive(Drop)]
pub(crate) struct Objects {
    pub track: NamedTrack,
}

/// Adds an object in a line of its own.
fn push_line(log: &mut Vec<u8>, object: &[u8]) -> Result<(), AllocError>
    ensures { OnOk result (log.new.items ≡ log.old.items ++ ended object.now) }
{
    log.extend_from_slice(object)?;
    log.extend_from_slice(b"\n")
}

impl LogForm for Objects {
    ghost is_text = { λ _ section text. IsInObjects section text };

    /// Adds nothing: what the head of a log in words says stands in the object of the end.
    fn push_head(&self, _alloc: Global, _log: &mut Vec<u8>, _from: u64) -> Result<(), AllocError> {
        Ok(())
    }

    fn push_block(
        &self,
        alloc: Global,
        log: &mut Vec<u8>,
        account: &Account,
        line: &[u8],
        block: &Block,
    ) -> Result<(), AllocError> {
        let lines = self.track.lines.len();
        let object = input_text(alloc, account.track(), lines, line, block)?;
        push_line(log, object.as_bytes())
    }

    fn push_end(
        &self,
        alloc: Global,
        log: &mut Vec<u8>,
        account: &Account,
    ) -> Result<(), AllocError> {
        let standing = account.standing(alloc)?;
        push_end(alloc, log, &self.track, account, &standing)
    }
}
