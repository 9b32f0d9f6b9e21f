//! What holds over all lines.

ghost use Rattle.rbc_live.specs.AlarmLaws.{EachAlarmHasReason, NothingIsEverMissed};
ghost use Rattle.rbc_live.specs.Causes.{EachCauseIsTrue};
ghost use Rattle.rbc_live.specs.History.{EachHistoryIsSerial};
ghost use Rattle.rbc_live.specs.Lines.{EachAnswerSays};

/// The lines that a desk took since it was opened, whatever faults came in between: the records are those of the serial
/// run of their inputs, the answers are its results, and the messages, posted line after line, are its outboxes. So the
/// output text of a batch (`render` of rbc_text) can be written from what `LiveDesk::feed` gave for its lines.
pub fn history_law()
    ensures { EachHistoryIsSerial }
{}

/// What `answer_lines` writes says what the rules give: each line `ENGINE INPUT HEX` in the answers spells a message that
/// reads back as itself, and says what the rules give the train of ENGINE after the line with the number INPUT. No
/// message is lost, duplicated or out of order.
pub fn answers_law()
    ensures { EachAnswerSays }
{}

/// If a stop or a restriction that concerns a train waits, no identifier of its kind is free, or the train has no stamp
/// left. The same holds if a stop that is due is not told again. So nothing waits for a reason other than the one
/// reported.
pub fn waiting_law()
    ensures { EachCauseIsTrue }
{}

/// An alarm has its reason: the train has no place; or all its identifiers of that kind are held, or no stamp is left
/// for it. And nothing is missed: an active stop or restriction that concerns a train and is not told to it has an
/// alarm.
pub fn alarm_law()
    ensures reason { EachAlarmHasReason }
    ensures nothing_missed { NothingIsEverMissed }
{}
