//! What the rules promise of each step.

ghost use Rattle.rbc_rule.specs.Laws.{EachStepKeepsWorlds};
ghost use Rattle.rbc_rule.specs.SaidFor.{EachStepSays, EachMessageSaysOneThing, SayingIsByPlace};
ghost use Rattle.rbc_rule.specs.Told.{EachStepKeepsWhatWasSent, EachStepRevokesRightly, EachStepTells};

/// A step of a valid state leaves a valid state, in which every train is settled.
pub fn step_law()
    ensures { EachStepKeepsWorlds }
{}

/// Each step sends to each train one message for each action that settling it carries out, in order, and nothing else;
/// an input that is refused sends nothing. The first message to a train has the stamp after its last one, and each
/// other one the stamp after that of the message before; no stamp is the number for an unknown time. M_ACK is 1 in
/// messages 18 and 24, and 0 in messages 15 and 16. Each message names the balise group of its train, or the number for
/// none, and each of its variables is in its range and wide enough for its value. Read back from its variables, by the
/// balise group that it names, it says what the rules give its train there: that a stop or a restriction is revoked; to
/// stop at once; to stop before the last whole unit ahead, the way the train faces, that does not lie beyond the edge,
/// in the finest unit that has room; or to keep to the speed of a restriction on a stretch that covers all of it beyond
/// the balise group and less than a unit more at each end, in the finest unit that has room. No message says two
/// things. A message that says this also says it by the place of a stop alone, whatever balise group it names.
pub fn says_law()
    ensures says { EachStepSays }
    ensures one_thing { EachMessageSaysOneThing }
    ensures by_place { SayingIsByPlace }
{}

/// After each step, for each train whose stamps have not ended: every active stop and every active temporary speed
/// restriction that concerns it is told to it, unless all its identifiers of that kind are held; and no identifier is
/// used by one that is to be revoked.
pub fn told_law()
    ensures { EachStepTells }
{}

/// Each step revokes only what may be revoked, as the train stands after the effect of the input. The slot of a stop
/// identifier that a message 18 names is used by a number that is not active, or by a stop that the train left
/// unanswered in three reports, while it has an identifier to spare. The slot of a restriction identifier that a packet
/// 66 names is used by a number that is not active, or by a restriction that is clear of the train.
pub fn revocation_law()
    ensures { EachStepRevokesRightly }
{}

/// After each step the slots of each train keep what the step sent to it. The slot of an identifier that a message
/// tells is used by the number that was told, with the stamp and of the kind of that message, and not acknowledged. The
/// slot of an identifier that a message revokes is being revoked, with the stamp of that message.
pub fn slots_law()
    ensures { EachStepKeepsWhatWasSent }
{}
