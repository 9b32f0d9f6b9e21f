//! What holds over all lines.
//!
//! A change of the rules may need another reason (reason.rt), words for it in rbc_explain, and cases in golden/told.

ghost use Rattle.rbc_account.specs.Runs.{EachAccountIsTrue};

/// The lines that an account took, from its opening on, each passed or told: the replies are the results of the serial
/// run of their inputs, and the messages, posted line after line, are its outboxes. The sums are those of the replies:
/// the inputs that were accepted and those that were refused add up to the lines. This holds whichever lines are told.
pub fn account_law()
    ensures { EachAccountIsTrue }
{}
