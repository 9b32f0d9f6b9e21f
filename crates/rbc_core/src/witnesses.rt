//! Worked cases of the laws: correct ones, which satisfy a law, and wrong ones, which violate it.

ghost use Rattle.std.specs.Prelude.{◌≡◌, [], ◌∷◌, Some, None, true};
ghost use Rattle.std.specs.List.{All};
ghost use Rattle.rbc_records.specs.declared.record.Key.TheVariants as key;
ghost use Rattle.rbc_core.specs.Events.{May, Follow, Meaning, AreMeant, IsMeant, IsOpeningIn, IsForwarded};
ghost use Rattle.rbc_core.specs.Events.Event.{Takes, Deposits, Applies, Recomputes, Waits, Ends};
ghost use Rattle.rbc_core.specs.Facts.{KeepsAttempts, KeepsRecords, KeepsNumbers, KeepsClosed};
ghost use Rattle.rbc_core.specs.Conflicts.{AreAnswered, WasVoided, IsOvertaken, IsMisled, IsExplained};
ghost use Rattle.rbc_core.specs.Forwards.{IsForwarding};
ghost use Rattle.rbc_core.specs.Witnesses.{two_inputs, engines, train_7, enrolled, refused, absent, under};
ghost use Rattle.rbc_core.specs.Witnesses.{enrolled_numbers, means, two_under_one, no_numbers, start};
ghost use Rattle.rbc_core.specs.Witnesses.{first_try, second_try, stops_try, computing_again, applying, failing};
ghost use Rattle.rbc_core.specs.Witnesses.{after_events, one_stale, published_again, second_first};
ghost use Rattle.rbc_core.specs.Witnesses.{both_tried, first_committed, first_lost, none_tried, second_enrols};
ghost use Rattle.rbc_core.specs.Witnesses.{second_gone, second_changed, engines_there, stops_there, stops_numbered};
ghost use Rattle.rbc_core.specs.Witnesses.{second_overtaken, second_given_up, giving_up, again_for_nothing, stops_read};
ghost use Rattle.rbc_core.specs.Witnesses.{nothing_read};
ghost use Rattle.rbc_core.specs.Witnesses.{forwarded_try, first_tried, forwarding, applying_forwarded, passing_over};
ghost use Rattle.rbc_core.specs.Witnesses.{then_again, MissesAnswers, MissesAttempts, MissesLatest, MissesDeposits};
ghost use Rattle.rbc_core.specs.Witnesses.{started_with_4, second_misled, start_of_three, third_try, third_misled};

/// From the empty state train 7 is enrolled, and then comes a line that is not an input. The three records of the first
/// are published under the numbers 1, 2 and 3.
///
/// Right: both are attempted, the second one first, from a read that does not stand any more when its turn comes, so
/// that it is recomputed, and once in all; both are attempted one after the other, and nothing is recomputed;
/// and memory is refused as the first one is to be committed, after which nothing is committed any more, and the second
/// one is given up.
pub fn event_law_witnesses()
    ensures computing_again { Follow two_inputs start computing_again }
    ensures once { (after_events computing_again).recomputed ≡ 1 }
    ensures applying { Follow two_inputs start applying }
    ensures never { (after_events applying).recomputed ≡ 0 }
    ensures failing { Follow two_inputs start failing }
    ensures none_committed { (after_events failing).committed ≡ 0 }
{}

/// What the numbers of those records mean, and what they decide.
///
/// Right: what the first of those runs says of numbers is what they mean, and so are the numbers of its desk before;
/// and the second input is recomputed, and has no numbers, though its attempt had some.
///
/// Wrong: two versions are published under one number; number 0 means a record; an attempt is taken over of whose three
/// numbers one is not the present one, be it that nothing stands there, or the same record under another number; an
/// input that is recomputed keeps the numbers of its attempt, which had another outcome.
pub fn event_numbers_witnesses()
    ensures meant { All (IsMeant means) computing_again }
    ensures opening_meant { IsOpeningIn means two_inputs no_numbers }
    ensures own_numbers { May two_inputs second_enrols (Recomputes refused []) }
    ensures two_under_one { (meaning : Meaning) → All (IsMeant meaning) two_under_one → ⊥ }
    ensures record_under_zero { (meaning : Meaning) → AreMeant meaning ((key.Roster, under 0 engines) ∷ []) → ⊥ }
    ensures one_stale_note { May two_inputs one_stale (Applies enrolled enrolled_numbers) → ⊥ }
    ensures same_record { May two_inputs published_again (Applies enrolled enrolled_numbers) → ⊥ }
    ensures dropped_numbers { May two_inputs second_enrols (Recomputes refused enrolled_numbers) → ⊥ }
{}

/// Events that may not come when they do.
///
/// Wrong: the second input is committed before the first; an attempt is kept at an input that was not taken; all is
/// done before the end; the first number is taken twice; an input with an attempt is not ready; an input is computed
/// again whose attempt is fresh.
pub fn event_order_witnesses()
    ensures second_before_first { May two_inputs second_first (Applies refused []) → ⊥ }
    ensures not_out { May two_inputs start (Deposits first_try true) → ⊥ }
    ensures done_too_soon { May two_inputs second_first Ends → ⊥ }
    ensures taken_twice { May two_inputs second_first (Takes (Some 1)) → ⊥ }
    ensures ready_yet_waiting { May two_inputs one_stale Waits → ⊥ }
    ensures again_though_fresh { May two_inputs both_tried (Recomputes enrolled enrolled_numbers) → ⊥ }
{}

/// There are attempts at both of those inputs.
///
/// Right: the first is committed by its attempt, which leaves the second one and writes the engines and train 7, with
/// their numbers; memory is refused, which closes the book and loses the first attempt; and a book that is closed stays
/// so as the second is given up.
///
/// Wrong: the second attempt is gone, or another one, as the first is committed; the first is lost though the book was
/// closed before; the engines change at a deposit, or as nothing is taken, and so do their numbers; the stops change
/// though no write names them, or their number does; the book is open again.
pub fn staying_law_witnesses()
    ensures second_stays { KeepsAttempts both_tried first_committed }
    ensures lost_as_closed { KeepsAttempts both_tried first_lost }
    ensures written { KeepsRecords both_tried (Applies enrolled enrolled_numbers) first_committed }
    ensures numbered { KeepsNumbers both_tried (Applies enrolled enrolled_numbers) first_committed }
    ensures still_closed { KeepsClosed first_lost none_tried }
    ensures gone { KeepsAttempts both_tried second_gone → ⊥ }
    ensures changed { KeepsAttempts both_tried second_changed → ⊥ }
    ensures lost_though_closed { KeepsAttempts (record both_tried { closed = true }) first_lost → ⊥ }
    ensures written_at_deposit { KeepsRecords both_tried (Deposits second_try true) engines_there → ⊥ }
    ensures written_at_take { KeepsRecords both_tried (Takes None) engines_there → ⊥ }
    ensures not_named { KeepsRecords both_tried (Applies enrolled enrolled_numbers) stops_there → ⊥ }
    ensures numbered_at_deposit { KeepsNumbers both_tried (Deposits second_try true) engines_there → ⊥ }
    ensures numbered_at_take { KeepsNumbers both_tried (Takes None) engines_there → ⊥ }
    ensures number_not_named { KeepsNumbers both_tried (Applies enrolled enrolled_numbers) stops_numbered → ⊥ }
    ensures opened_again { KeepsClosed first_lost both_tried → ⊥ }
{}

/// The first of those inputs is committed by its attempt, and then it is the turn of the second one.
///
/// Right: it was read for the second that there is no train 7, and then the first was committed, which writes that
/// record, so the attempt at the second is overtaken; and the second was given up. Each note of an attempt was read. Or
/// train 7 was read for the second as the attempt at the first wrote it, and then the first was recomputed, so that
/// the attempt at the second is misled. Or the engines were read for a third as the attempt at the first wrote them,
/// the first was committed by it, and then a second wrote them, so that the attempt at the third is misled.
///
/// Wrong: the first is recomputed though its attempt is fresh; a note of stops is overtaken, which nobody writes; a
/// note is overtaken that was never read; a note that was never read is answered; and the attempt at the second is
/// misled though the first is committed by its attempt.
pub fn conflict_law_witnesses()
    ensures answered { AreAnswered second_overtaken }
    ensures overtaken { IsOvertaken start second_overtaken second_try (key.Train 7, absent) }
    ensures explained { IsExplained start second_overtaken }
    ensures giving_up { Follow two_inputs start giving_up }
    ensures answered_too { AreAnswered second_given_up }
    ensures given_up { WasVoided second_given_up 2 }
    ensures explained_too { IsExplained start second_given_up }
    ensures for_nothing { Follow two_inputs start again_for_nothing → ⊥ }
    ensures unwritten { IsOvertaken start stops_read stops_try (key.Stops, absent) → ⊥ }
    ensures unread { IsOvertaken start nothing_read second_try (key.Train 7, absent) → ⊥ }
    ensures unanswered { AreAnswered nothing_read → ⊥ }
    ensures misled { IsMisled started_with_4 second_misled forwarded_try (key.Train 7, under 2 train_7) }
    ensures misled_again { Follow two_inputs started_with_4 (then_again second_misled) }
    ensures misled_in_between { IsMisled start_of_three third_misled third_try (key.Roster, under 1 engines) }
    ensures not_misled { IsMisled start forwarding forwarded_try (key.Train 7, under 2 train_7) → ⊥ }
{}

/// Both of those inputs are taken.
///
/// Right: train 7 is read for the second after the first is attempted, as that attempt writes it and before it is
/// committed; and nothing is recomputed.
///
/// Wrong, and recomputed: nothing was read for the second, though its attempt has a note; the second was given up;
/// train 7 was read for the second as it stood before, though the first was attempted; and it was read before the first
/// was attempted. In each of these all else holds that has to.
pub fn forward_law_witnesses()
    ensures forwarding { Follow two_inputs start applying_forwarded }
    ensures all_met { IsForwarding start applying_forwarded }
    ensures never { (after_events applying_forwarded).recomputed ≡ 0 }
    ensures forwarded { IsForwarded (after_events first_tried) 2 (key.Train 7) 2 }
    ensures not_present { (after_events first_tried).present (key.Train 7) ≡ 0 }
    ensures unread { MissesAnswers nothing_read }
    ensures unread_again { Follow two_inputs start (then_again nothing_read) }
    ensures given_up { MissesAttempts second_given_up }
    ensures given_up_again { Follow two_inputs start (then_again second_given_up) }
    ensures passed_over { MissesLatest passing_over }
    ensures passed_over_again { Follow two_inputs start (then_again passing_over) }
    ensures too_early { MissesDeposits second_overtaken }
    ensures too_early_again { Follow two_inputs start (then_again second_overtaken) }
{}
