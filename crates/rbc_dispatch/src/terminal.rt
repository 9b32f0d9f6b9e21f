//! The notice for a batch that is typed.

ghost use Rattle.std.specs.Prelude.{◌≡◌, false};
ghost use Rattle.rbc_dispatch.specs.Terminal.{SaysOnly};

use rbc_text::write_text;
use std::io::Write;

/// The notice that a batch is read from a terminal. It tells the user that the program waits for input.
pub const NOTICE: &str = "dispatch: reading the batch from the terminal; end it with Ctrl-D\n";

/// Says that the batch is read from the terminal, if it is. A notice that cannot be written is no fault.
pub fn announce<E: Write>(at_terminal: bool, errors: &mut E)
    ensures silent { at_terminal ≡ false → errors.new ≡ errors.old }
    ensures says { SaysOnly NOTICE.now (E.contents errors.old) (E.contents errors.new) }
{
    if at_terminal {
        let _ = write_text(errors, NOTICE.as_bytes());
    }
}
