//! Worked cases of the laws: correct ones, which satisfy a law, and wrong ones, which violate it.

ghost use Rattle.std.specs.Prelude.{◌≡◌, [], ◌∷◌};
ghost use Rattle.rbc_track.specs.Plan.{Plan};
ghost use Rattle.rbc_live.specs.declared.waiting.Waits.TheVariants.{Again, Restriction, Stop};
ghost use Rattle.rbc_live.specs.declared.alarm.Alarm.TheVariants.{NoPlace, Untold};
ghost use Rattle.rbc_live.specs.declared.waiting.Cause.TheVariants.{NoIdentifier, NoStamp};
ghost use Rattle.rbc_live.specs.AlarmLaws.{HasReason, IsStopToldOrAlarmed};
ghost use Rattle.rbc_live.specs.declared.alarm.Change.TheVariants.{Cleared, Raised};
ghost use Rattle.rbc_live.specs.Alarms.{changes};
ghost use Rattle.rbc_live.specs.Causes.{IsCauseOf};
ghost use Rattle.rbc_live.specs.History.{IsHistory, IsSerialRunOf};
ghost use Rattle.rbc_live.specs.Witnesses.{refused, accepted, sending, engines_there, stop_1, train_7};
ghost use Rattle.rbc_live.specs.Witnesses.{train_7_at_the_end, train_7_placed};

/// A desk is opened and takes the line `x`, which is not an input, on any track.
///
/// Right: the line is refused with code 1, nothing is sent, and no record stands there; this is the serial run of one
/// input. So is the same twice.
///
/// Wrong: the line is accepted; a message is sent; a record stands there afterwards; or nothing was taken, and a record
/// stands there.
pub fn history_law_witnesses()
    ensures taken { (plan : Plan) → IsHistory plan [] (refused ∷ []) [] }
    ensures taken_twice { (plan : Plan) → IsHistory plan [] (refused ∷ refused ∷ []) [] }
    ensures serial { (plan : Plan) → IsSerialRunOf plan (refused ∷ []) [] }
    ensures accepted { (plan : Plan) → IsHistory plan [] (accepted ∷ []) [] → ⊥ }
    ensures sending { (plan : Plan) → IsHistory plan [] (sending ∷ []) [] → ⊥ }
    ensures left_behind { (plan : Plan) → IsHistory plan [] (refused ∷ []) engines_there → ⊥ }
    ensures from_nothing { (plan : Plan) → IsHistory plan [] [] engines_there → ⊥ }
{}

/// Stop 1 waits at train 7, to which nothing was told.
///
/// Right: it has no stamp left.
///
/// Wrong: it waits for an identifier, which are all free; or for a stamp, of which the train has many.
pub fn waiting_law_witnesses()
    ensures at_the_end { IsCauseOf train_7_at_the_end (Stop 1) NoStamp }
    ensures identifiers { IsCauseOf train_7 (Stop 1) NoIdentifier → ⊥ }
    ensures stamps { IsCauseOf train_7 (Stop 1) NoStamp → ⊥ }
{}

/// Train 7, to which nothing was told, has an alarm; or stop 1 of 20000 to 21000 on line 0 is active.
///
/// Right: it has no place; it has no stamp left, and stop 1 is untold; it has no place, so the stop concerns it, and
/// has its alarm.
///
/// Wrong: stop 1, restriction 1 or the answer to stop 1 has an alarm, though identifiers are free and stamps are left;
/// the train has an alarm for its place, though it has one; and the stop has no alarm, or that of another stop.
pub fn alarm_law_witnesses()
    ensures no_place { HasReason train_7 NoPlace }
    ensures no_stamp { HasReason train_7_at_the_end (Untold (Stop 1)) }
    ensures alarmed { IsStopToldOrAlarmed train_7 (NoPlace ∷ Untold (Stop 1) ∷ []) stop_1 }
    ensures stop { HasReason train_7 (Untold (Stop 1)) → ⊥ }
    ensures restriction { HasReason train_7 (Untold (Restriction 1)) → ⊥ }
    ensures answer { HasReason train_7 (Untold (Again 1)) → ⊥ }
    ensures placed { HasReason train_7_placed NoPlace → ⊥ }
    ensures missed { IsStopToldOrAlarmed train_7 (NoPlace ∷ []) stop_1 → ⊥ }
    ensures other_stop { IsStopToldOrAlarmed train_7 (NoPlace ∷ Untold (Stop 2) ∷ []) stop_1 → ⊥ }
{}

/// The alarms of a train that stood, and those that stand now.
///
/// Right: a place is cleared, and stop 16 raised after it; stop 2 is raised before stop 16, which stands still, and the
/// answer to stop 1 is cleared after it; nothing changes.
///
/// Wrong: what is cleared is left out; what is raised is; raised is told for cleared; the other order; what stands
/// still is raised again; another stop is raised.
pub fn alarm_changes_witnesses()
    ensures both { changes (NoPlace ∷ []) (Untold (Stop 16) ∷ []) ≡ Cleared NoPlace ∷ Raised (Untold (Stop 16)) ∷ [] }
    ensures around { changes (Untold (Stop 16) ∷ Untold (Again 1) ∷ []) (Untold (Stop 2) ∷ Untold (Stop 16) ∷ [])
        ≡ Raised (Untold (Stop 2)) ∷ Cleared (Untold (Again 1)) ∷ [] }
    ensures nothing { changes (NoPlace ∷ Untold (Again 1) ∷ []) (NoPlace ∷ Untold (Again 1) ∷ []) ≡ [] }
    ensures not_cleared { changes (NoPlace ∷ []) (Untold (Stop 16) ∷ []) ≡ Raised (Untold (Stop 16)) ∷ [] → ⊥ }
    ensures not_raised { changes (NoPlace ∷ []) (Untold (Stop 16) ∷ []) ≡ Cleared NoPlace ∷ [] → ⊥ }
    ensures turned { changes (NoPlace ∷ []) [] ≡ Raised NoPlace ∷ [] → ⊥ }
    ensures other_order { changes (NoPlace ∷ []) (Untold (Stop 16) ∷ [])
        ≡ Raised (Untold (Stop 16)) ∷ Cleared NoPlace ∷ [] → ⊥ }
    ensures again { changes (NoPlace ∷ []) (NoPlace ∷ []) ≡ Raised NoPlace ∷ [] → ⊥ }
    ensures other_stop { changes [] (Untold (Stop 16) ∷ []) ≡ Raised (Untold (Stop 15)) ∷ [] → ⊥ }
{}
