//! What holds after all events.

ghost use Rattle.rbc_core.specs.Events.{EventsAreSerial};
ghost use Rattle.rbc_core.specs.Conflicts.{EachIsExplained};
ghost use Rattle.rbc_core.specs.Forwards.{NoneIsComputedAgain};
ghost use Rattle.rbc_core.specs.Facts.{AttemptsStay, RecordsStay, NumbersStay, ClosedStays};

/// After any events of a book, in any order, the desk is that of the rules applied to the inputs that are committed,
/// one after another: attempts made from reads at different moments make no difference, although only numbers are
/// compared when an attempt is taken over. This holds because a number means one record for good.
pub fn event_law()
    ensures { EventsAreSerial }
{}

/// What one event leaves: an attempt that was deposited stays until its input is committed, or lost if memory is
/// refused, which closes the book; what stands under a key, and its number, change only if an input is committed whose
/// writes name the key; and a book that is closed stays closed.
pub fn staying_law()
    ensures attempts { AttemptsStay }
    ensures records { RecordsStay }
    ensures numbers { NumbersStay }
    ensures closed { ClosedStays }
{}

/// Why an input is recomputed, if all that is noted in an attempt was read: it was given up; or a number that was read
/// for its attempt was the present one when it was read, and an earlier input that was committed since then wrote that
/// key; or that number was what an attempt at an earlier input put there, and since then that input was recomputed, or
/// one between the two was committed that wrote that key.
pub fn conflict_law()
    ensures { EachIsExplained }
{}

/// When no input is recomputed. As in `conflict_law`, all that is noted in an attempt was read. If also no input is
/// given up, and each read for an input comes after attempts at all earlier inputs were deposited and gives the latest
/// number that is written before it, then no input is recomputed.
pub fn forward_law()
    ensures { NoneIsComputedAgain }
{}
