//! Worked cases of what words ask for and of the rows of a message, right ones and wrong ones.

ghost use Rattle.std.specs.Prelude.{[], ◌∷◌, None, Some, codes, false, true};
ghost use Rattle.rbc_account.specs.declared.log_form.LogParts.TheVariants as parts;
ghost use Rattle.rbc_dispatch.specs.Witnesses.{AskFor, AskForNothing, AskForRun, AskFrom, AskToDraw, AskToExplain};
ghost use Rattle.rbc_dispatch.specs.Witnesses.{in_bits, on_track, row_in};
ghost use Rattle.rbc_dispatch.specs.Long.{ShowAllBits};
ghost use Rattle.rbc_dispatch.specs.Words.{All, Asks, Busy, Codes, Decode, DecodeLines, DoNotFit, Lines, Page, Train};
ghost use Rattle.rbc_dispatch.specs.Words.{whole_line};
ghost use Rattle.rbc_dispatch.specs.declared.pages.Topic.TheVariants as topic;

/// What words after `run --track t` and `live --track t` ask for.
///
/// - No word asks for one worker, and not for two. `--workers 16` asks for 16 workers, and `--workers=007` for 7.
/// - `--workers 0` asks for none, which the run refuses. `--workers 2` does not ask for one.
/// - `--workers 256`, `--workers -1`, `--workers x` and a number that is named twice ask for nothing.
/// - `--stats`, `--by-train` and `--alarms` each leave the number of workers as it is. A flag that is named twice asks
///   for nothing.
/// - After `live`, `--from 7` asks for the answers from number 7 on, and `--from 0` for nothing; `--alarms` asks for
///   alarms, before `--from 7` or after it, and `--alarms` twice for nothing.
pub fn run_words_witnesses()
    ensures one { AskFor 1 [] }
    ensures sixteen { AskFor 16 (codes "--workers" ∷ codes "16" ∷ []) }
    ensures leading_zeros { AskFor 7 (codes "--workers=007" ∷ []) }
    ensures zero { AskFor 0 (codes "--workers" ∷ codes "0" ∷ []) }
    ensures two_by_default { AskFor 2 [] → ⊥ }
    ensures one_whatever_is_named { AskFor 1 (codes "--workers" ∷ codes "2" ∷ []) → ⊥ }
    ensures too_great { AskForNothing (on_track (codes "run") (codes "--workers" ∷ codes "256" ∷ [])) }
    ensures below_zero { AskForNothing (on_track (codes "run") (codes "--workers" ∷ codes "-1" ∷ [])) }
    ensures no_number { AskForNothing (on_track (codes "run") (codes "--workers" ∷ codes "x" ∷ [])) }
    ensures twice { AskForNothing (on_track (codes "run")
        (codes "--workers" ∷ codes "1" ∷ codes "--workers" ∷ codes "1" ∷ [])) }
    ensures figures { AskForRun 1 false true false (codes "--stats" ∷ []) }
    ensures figures_unasked { AskForRun 1 false true false [] → ⊥ }
    ensures figures_of_four { AskForRun 4 false true false (codes "--stats" ∷ codes "--workers" ∷ codes "4" ∷ []) }
    ensures figures_twice { AskForNothing (on_track (codes "run") (codes "--stats" ∷ codes "--stats" ∷ [])) }
    ensures by_train_of_four { AskForRun 4 true false false
        (codes "--workers" ∷ codes "4" ∷ codes "--by-train" ∷ []) }
    ensures by_train_unasked { AskForRun 1 true false false [] → ⊥ }
    ensures alarms_of_four { AskForRun 4 false false true (codes "--alarms" ∷ codes "--workers" ∷ codes "4" ∷ []) }
    ensures alarms_unasked { AskForRun 1 false false true [] → ⊥ }
    ensures from_seven { AskFrom 7 false (codes "--from" ∷ codes "7" ∷ []) }
    ensures from_zero { AskForNothing (on_track (codes "live") (codes "--from" ∷ codes "0" ∷ [])) }
    ensures alarms_from_seven { AskFrom 7 true (codes "--alarms" ∷ codes "--from" ∷ codes "7" ∷ []) }
    ensures from_seven_alarms { AskFrom 7 true (codes "--from" ∷ codes "7" ∷ codes "--alarms" ∷ []) }
    ensures live_alarms_unasked { AskFrom 1 true [] → ⊥ }
    ensures live_alarms_twice { AskForNothing (on_track (codes "live") (codes "--alarms" ∷ codes "--alarms" ∷ [])) }
{}

/// What words after `explain --track t` and `picture --track t` ask for.
///
/// - `--from 18446744073709551615` asks for the log from that input on, and `--from 0` for nothing. `--to 9` asks for
///   the log to input 9, `--to 9 --from 9` for input 9 alone, and `--from 9 --to 8` for nothing. `--refused` and
///   `--end` each ask for what they name, and both together for nothing. `--end --json` asks for the end as an object.
/// - After `picture`, `--after 0` asks for the picture before all inputs, `--after 18446744073709551615` for the one
///   after that many, and `--after -1` for nothing. `--line 3 --line 0` asks for these two lines,
///   `--line 2 --km 8.4-17.5` for that part of line 2, `--train 7` for the part of train 7, and `--busy` for the lines
///   on which something is. `--km` without one `--line`, a part that does not rise, and two of `--line`, `--train` and
///   `--busy` ask for nothing.
pub fn telling_words_witnesses()
    ensures from_last { AskToExplain 18446744073709551615 None parts.All false
        (codes "--from" ∷ codes "18446744073709551615" ∷ []) }
    ensures from_zero { AskForNothing (on_track (codes "explain") (codes "--from" ∷ codes "0" ∷ [])) }
    ensures to_nine { AskToExplain 1 (Some 9) parts.All false (codes "--to" ∷ codes "9" ∷ []) }
    ensures to_nine_from_nine { AskToExplain 9 (Some 9) parts.All false
        (codes "--to" ∷ codes "9" ∷ codes "--from" ∷ codes "9" ∷ []) }
    ensures ended_before { DoNotFit (on_track (codes "explain")
        (codes "--from" ∷ codes "9" ∷ codes "--to" ∷ codes "8" ∷ [])) }
    ensures refused { AskToExplain 1 None parts.Refused false (codes "--refused" ∷ []) }
    ensures end { AskToExplain 1 None parts.End false (codes "--end" ∷ []) }
    ensures end_as_object { AskToExplain 1 None parts.End true (codes "--end" ∷ codes "--json" ∷ []) }
    ensures refused_end { DoNotFit (on_track (codes "explain") (codes "--refused" ∷ codes "--end" ∷ [])) }
    ensures all_for_the_end { AskToExplain 1 None parts.All false (codes "--end" ∷ []) → ⊥ }
    ensures at_first { AskToDraw (Some 0) All (codes "--after" ∷ codes "0" ∷ []) }
    ensures at_last { AskToDraw (Some 18446744073709551615) All
        (codes "--after" ∷ codes "18446744073709551615" ∷ []) }
    ensures before_first { AskForNothing (on_track (codes "picture") (codes "--after" ∷ codes "-1" ∷ [])) }
    ensures all_for_the_first { AskToDraw None All (codes "--after" ∷ codes "0" ∷ []) → ⊥ }
    ensures two_lines { AskToDraw None (Lines (whole_line 3 ∷ whole_line 0 ∷ []))
        (codes "--line" ∷ codes "3" ∷ codes "--line" ∷ codes "0" ∷ []) }
    ensures part { AskToDraw None (Lines (record { line = 2; part = Some (84000, 175000) } ∷ []))
        (codes "--line" ∷ codes "2" ∷ codes "--km" ∷ codes "8.4-17.5" ∷ []) }
    ensures falling { DoNotFit (on_track (codes "picture")
        (codes "--line" ∷ codes "2" ∷ codes "--km" ∷ codes "9-8.5" ∷ [])) }
    ensures no_line { DoNotFit (on_track (codes "picture") (codes "--km" ∷ codes "8-9" ∷ [])) }
    ensures train { AskToDraw None (Train 7) (codes "--train" ∷ codes "7" ∷ []) }
    ensures busy { AskToDraw None Busy (codes "--busy" ∷ []) }
    ensures busy_train { DoNotFit (on_track (codes "picture")
        (codes "--busy" ∷ codes "--train" ∷ codes "7" ∷ [])) }
    ensures all_for_a_train { AskToDraw None All (codes "--train" ∷ codes "7" ∷ []) → ⊥ }
{}

/// What words ask for that name no track.
///
/// - `codes` asks for all codes, `codes 12` for code 12, `codes --json` for objects, and `codes 0`, `codes 17` and
///   `codes 12 --json` for nothing.
/// - `decode` asks for lines, `decode 00` for one message, and `decode --long` for nothing.
/// - `help batch` and `help track` ask for a page; `help run` and `help batch batch` for nothing.
pub fn other_words_witnesses()
    ensures all_codes { Asks (Codes None false) (codes "codes" ∷ []) }
    ensures code_twelve { Asks (Codes (Some 12) false) (codes "codes" ∷ codes "12" ∷ []) }
    ensures another_code { Asks (Codes (Some 13) false) (codes "codes" ∷ codes "12" ∷ []) → ⊥ }
    ensures code_zero { AskForNothing (codes "codes" ∷ codes "0" ∷ []) }
    ensures code_seventeen { AskForNothing (codes "codes" ∷ codes "17" ∷ []) }
    ensures objects { Asks (Codes None true) (codes "codes" ∷ codes "--json" ∷ []) }
    ensures one_object { DoNotFit (codes "codes" ∷ codes "12" ∷ codes "--json" ∷ []) }
    ensures lines { Asks DecodeLines (codes "decode" ∷ []) }
    ensures message { Asks (Decode (codes "00") false) (codes "decode" ∷ codes "00" ∷ []) }
    ensures long_lines { DoNotFit (codes "decode" ∷ codes "--long" ∷ []) }
    ensures batch_page { Asks (Page topic.Batch) (codes "help" ∷ codes "batch" ∷ []) }
    ensures track_page { Asks (Page topic.Track) (codes "help" ∷ codes "track" ∷ []) }
    ensures help_of_run { AskForNothing (codes "help" ∷ codes "run" ∷ []) }
    ensures page_and_more { AskForNothing (codes "help" ∷ codes "batch" ∷ codes "batch" ∷ []) }
{}

/// The rows of a message of one byte, 146.
///
/// - One row of 8 bits with the value 146 shows all bits, as do two rows of 4 bits with the values 9 and 2.
/// - They are not all shown by the value 147, by 7 bits, by no row, by the row twice, or by the two rows in the other
///   order.
pub fn rows_law_witnesses()
    ensures one { ShowAllBits (row_in 8 146 ∷ []) (in_bits 146) }
    ensures two { ShowAllBits (row_in 4 9 ∷ row_in 4 2 ∷ []) (in_bits 146) }
    ensures another_value { ShowAllBits (row_in 8 147 ∷ []) (in_bits 146) → ⊥ }
    ensures too_narrow { ShowAllBits (row_in 7 73 ∷ []) (in_bits 146) → ⊥ }
    ensures left_out { ShowAllBits [] (in_bits 146) → ⊥ }
    ensures twice { ShowAllBits (row_in 8 146 ∷ row_in 8 146 ∷ []) (in_bits 146) → ⊥ }
    ensures out_of_order { ShowAllBits (row_in 4 2 ∷ row_in 4 9 ∷ []) (in_bits 146) → ⊥ }
{}
