//! Bytes that are given to a caller, in its own buffer.

ghost use Rattle.std.specs.Prelude.{◌≡◌, ◌⊎◌, ◌<◌, ◌≤◌, length};
ghost use Rattle.ertms_c.specs.Faults.{done, room};
ghost use Rattle.ertms_c.specs.Given.{fronted};

use crate::faults::{DONE, ROOM};

/// Writes bytes to the front of `out`, as many as there is room for.
pub fn write_front(bytes: &[u8], out: &mut [u8])
    ensures { out.new ≡ fronted bytes.now out.old }
{
    let count = bytes.len().min(out.len());
    out[..count].copy_from_slice(&bytes[..count]);
}

/// Writes bytes to the front of `out`, if there is room for all. Answers 0; or the code for too little room, and `out`
/// stays.
pub fn write_whole(bytes: &[u8], out: &mut [u8]) -> u32
    ensures codes { (result ≡ done) ⊎ (result ≡ room) }
    ensures whole { result ≡ done → length bytes.now ≤ length out.old }
    ensures written { result ≡ done → out.new ≡ fronted bytes.now out.old }
    ensures short { result ≡ room → length out.old < length bytes.now }
    ensures stays { result ≡ room → out.new ≡ out.old }
{
    if out.len() < bytes.len() {
        return ROOM;
    }
    write_front(bytes, out);
    DONE
}
