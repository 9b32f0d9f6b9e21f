//! What the mails of each run say.

ghost use Rattle.rbc_desk.specs.SaidMails.{EachRunSays};

/// Each mail that a run adds to an engine's outbox has the number of the input that caused it, and says what the rules
/// give that train after that input, for one thing that settling it does. Its message fits, and is what its bytes
/// spell. The mails that a run adds to an outbox are those of each input, in order, and those of an input are one for
/// each thing that settling the train does, in order: none is lost, none is duplicated, and none stands before an
/// earlier one.
pub fn mails_law()
    ensures { EachRunSays }
{}
