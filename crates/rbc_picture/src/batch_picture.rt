//! The picture after the inputs of a reader.

ghost use Rattle.std.specs.Prelude.{◌≡◌, ◌<◌, ◌^◌, ◌++◌, ◌∷◌, [], true, false, List, ℕ, IfOk, IfErr, OnOk};
ghost use Rattle.std.specs.Prelude.{length, map, string_bytes};
ghost use Rattle.rbc_track.specs.Plan.{Plan};
ghost use Rattle.rbc_account.specs.Telling.{TooFewFor};
ghost use Rattle.rbc_picture.specs.Drawn.{AreTakenTo, HasTaken, IsDrawn, IsPictureOf, IsPictureOfRun, IsShownOf};
ghost use Rattle.rbc_picture.specs.Drawn.{lines_taken};
ghost use Rattle.rbc_picture.specs.NotDrawn.{Draws, FailsFor, LacksNow, LacksTrain, StaysUnread};
ghost use Rattle.rbc_picture.specs.Trains.{train_shown};

use crate::fault::DrawError;
use crate::parts::{check_lines, check_train, parts_of};
use crate::plan::document_of;
use crate::scene::{Scene, Sums, has_marks};
use crate::selection::Selection;
use crate::train_state::{TrainState, trains_of};
use rbc_account::{Account, LineReader, TellError, account_law};
use rbc_track::Track;
use rbc_track_report::{NamedTrack, tracks_from_toml};
use std::alloc::{AllocError, Global};
use std::io::Read;

/// Draws what `selection` asks for of the track with its trains, stops and restrictions, after the first `after` inputs,
/// or after all of them, as an SVG document. `text` is the track file, a TOML document. The lines are read from `input`
/// to its end, and those after the first `after` are only counted. The memory depends on the trains, stops and
/// restrictions and on the longest line, not on the number of lines.
///
/// These texts stand in the document, in this order. Unless the whole track is drawn, how many lines and trains are
/// left out, in the title and in the heading. For each line or part of a line that is drawn the number of the line; for
/// each active stretch of a stop that meets it what it is and where; for each train that is placed there where it may
/// be, and each stop and restriction that it is not told; and for each active stretch of a restriction what it is and
/// where. Then for each train without a place that is drawn that it has none, and what it is not told.
///
/// # Errors
///
/// `Tell(Track)` if the text is not a track. `NoLine` or `BeyondLine` if `selection` names a line that the track does
/// not have, or a part that does not lie on its line. In these cases nothing is read. `Tell(Read)` if the lines cannot
/// be read. `Tell(Memory)`. `Tell(OnlyInputs)` if there are fewer inputs than `after`. `NoTrain` if `selection` names a
/// train that is not enrolled after the inputs. Never `Tell(Write)` or `Tell(ReaderGone)`.
pub fn picture<R: Read>(
    alloc: Global,
    text: &str,
    input: &mut R,
    after: Option<u64>,
    selection: &Selection<'_>,
) -> Result<String, DrawError>
    ensures draws { Draws text.now after selection.now (R.remaining input.old) (R.remaining input.new) result }
    ensures unread { StaysUnread result input.old input.new }
    ensures drawn { IfOk result (λ svg. IsPictureOfRun text.now after selection.now (R.remaining input.old)
        (R.remaining input.new) (string_bytes svg)) }
{
    let (track, named) = tracks_from_toml(alloc, text)?;
    let mut account = Account::new(alloc, track);
    check_lines(account.track(), selection)?;
    let count = take_lines(alloc, &mut account, input, after)?;
    if is_below(count, after) {
        return Err(DrawError::Tell(TellError::OnlyInputs { count }));
    }
    let picture = drawn(alloc, named, &account, count, selection)?;
    Ok(picture)
}

/// Whether there are fewer inputs than `after`.
fn is_below(count: u64, after: Option<u64>) -> bool
    ensures few { result ≡ true → TooFewFor after count }
    ensures enough { result ≡ false → ¬ (TooFewFor after count) }
{
    match after {
        Some(after) => after > count,
        None => false,
    }
}

/// Takes the first `after` lines of a reader, or all of them, and counts all.
fn take_lines<R: Read>(
    alloc: Global,
    account: &mut Account,
    input: &mut R,
    after: Option<u64>,
) -> Result<u64, TellError>
    ensures { (plan : Plan) → HasTaken plan account.old []
        → AreTakenTo plan after account.new (R.remaining input.old) (R.remaining input.new) result }
{
    let mut lines = LineReader::new(alloc);
    let mut count = 0;
    while lines.advance(input)? {
        pass_among(alloc, account, lines.line(), count, after)?;
        count += 1;
    }
    Ok(count)
}

/// Takes a line behind this many, if it is among the first `after`.
fn pass_among(
    alloc: Global,
    account: &mut Account,
    line: &[u8],
    count: u64,
    after: Option<u64>,
) -> Result<(), AllocError>
    ensures { (plan : Plan) (lines : List (List ℕ)) → length lines ≡ count → HasTaken plan account.old (lines_taken after lines)
        → OnOk result (HasTaken plan account.new (lines_taken after (lines ++ line.now ∷ []))) }
{
    if !is_taken(count, after) {
        return Ok(());
    }
    pass(alloc, account, line)
}

/// Whether the line behind this many is among the first `after`.
fn is_taken(count: u64, after: Option<u64>) -> bool
    ensures taken { result ≡ true → (lines : List (List ℕ)) (line : List ℕ) → length lines ≡ count
        → (lines_taken after lines ≡ lines) × (lines_taken after (lines ++ line ∷ []) ≡ lines ++ line ∷ []) }
    ensures left { result ≡ false → (lines : List (List ℕ)) (line : List ℕ) → length lines ≡ count
        → lines_taken after (lines ++ line ∷ []) ≡ lines_taken after lines }
{
    match after {
        Some(after) => count < after,
        None => true,
    }
}

/// Draws what a selection asks for of what stands after the lines that an account has taken, out of this many. Fails
/// also if the track with names is not that of the account.
fn drawn(
    alloc: Global,
    named: NamedTrack,
    account: &Account,
    count: u64,
    selection: &Selection<'_>,
) -> Result<String, DrawError>
    ensures drawn { (plan : Plan) (lines : List (List ℕ)) → HasTaken plan account.now lines → length lines < 2 ^ 64
        → IfOk result (λ svg. IsPictureOf plan selection.now lines (string_bytes svg)) }
    ensures fails { (plan : Plan) (lines : List (List ℕ)) → HasTaken plan account.now lines → length lines < 2 ^ 64
        → IfErr result (FailsFor (LacksTrain plan selection.now lines)) }
{
    account_law();
    let named = fitting(named, account.track())?;
    picture_of(alloc, account, &named, count as usize, selection)
}

/// Takes a line.
fn pass(alloc: Global, account: &mut Account, line: &[u8]) -> Result<(), AllocError>
    ensures { (plan : Plan) (lines : List (List ℕ)) → HasTaken plan account.old lines
        → OnOk result (HasTaken plan account.new (lines ++ line.now ∷ [])) }
{
    let _answer = account.pass(alloc, line)?;
    Ok(())
}

/// A track with names, if it has as many lines as a track.
fn fitting(named: NamedTrack, track: &Track) -> Result<NamedTrack, AllocError>
    ensures { IfOk result (λ named. length named.lines.items ≡ length track.now.lines) }
{
    if !has_lines(track, named.lines.len()) {
        return Err(AllocError);
    }
    Ok(named)
}

/// Whether a track has this many lines.
fn has_lines(track: &Track, lines: usize) -> bool
    ensures { result ≡ true → lines ≡ length track.now.lines }
{
    let Ok(lines) = u32::try_from(lines) else {
        return false;
    };
    let has_last = lines == 0 || track.line_len(lines - 1).is_some();
    has_last && track.line_len(lines).is_none()
}

/// Draws what a selection asks for of the state after the inputs that an account has taken, out of this many.
fn picture_of(
    alloc: Global,
    account: &Account,
    track: &NamedTrack,
    inputs: usize,
    selection: &Selection<'_>,
) -> Result<String, DrawError>
    ensures drawn { IfOk result (λ svg. IsDrawn selection.now account.now.desk.track.horizon
        (length track.now.lines.items) account.now.desk.records (string_bytes svg)) }
    ensures fails { IfErr result (FailsFor (LacksNow selection.now account.now.desk.track.horizon
        account.now.desk.records)) }
{
    let standing = account.standing(alloc)?;
    let sums = Sums {
        taken: account.inputs(),
        inputs,
        acknowledgements: standing.acknowledgements,
        untold: standing.untold,
        untold_again: standing.untold_again,
    };
    let trains = trains_of(alloc, account, &standing.trains)?;
    check_train(selection, &trains)?;
    let picture = scene_drawn(alloc, account, track, &trains, sums, selection)?;
    Ok(picture)
}

/// Draws what a selection asks for of the state of an account with these trains.
fn scene_drawn(
    alloc: Global,
    account: &Account,
    track: &NamedTrack,
    trains: &[TrainState],
    sums: Sums,
    selection: &Selection<'_>,
) -> Result<String, AllocError>
    ensures { IfOk result (λ svg. IsShownOf selection.now (length track.now.lines.items) account.now.desk.records
        (map train_shown trains.now) (string_bytes svg)) }
{
    let (stops, limits) = (account.stops(), account.limits());
    let parts = parts_of(alloc, selection, track, stops, limits, trains)?;
    let has_marks = has_marks(selection, &parts, trains);
    document_of(
        alloc,
        &Scene {
            track,
            stops,
            limits,
            trains,
            sums,
            selection,
            parts: &parts,
            has_marks,
        },
    )
}
