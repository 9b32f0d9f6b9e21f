//! The task that the arguments ask for.
ghost use Rattle.std.specs.Prelude.{◌≡◌, ◌⊎◌, ◌∷◌, Option, [], IfErr, IfOk, filter_map, map, None, Ok, option_map};
ghost use Rattle.std.specs.Prelude.{codes, false, Some, string_bytes};
ghost use Rattle.clap.specs.Matches.{found_of};
ghost use Rattle.clap.specs.Walk.{first_of, rows_of};
ghost use Rattle.clap.specs.Words.{fault_of, kind_of, subcommand_rows_of};
ghost use Rattle.rbc_dispatch.specs.CommandLine.{command_line};
ghost use Rattle.rbc_dispatch.specs.Ending.{IsRefusal, ending_of};
ghost use Rattle.rbc_dispatch.specs.NoTask.{status_of, status_of_kind};
ghost use Rattle.rbc_dispatch.specs.Pages.{topic_in};
ghost use Rattle.rbc_dispatch.specs.Words.{Asked, Asks, IsFor, IsTakenFor, IsWantOfMemory, asked_in};
ghost use Rattle.rbc_dispatch.specs.Words.{asked_named, asked_of, byte_of, check_asked, chosen_by, chosen_of};
ghost use Rattle.rbc_dispatch.specs.Words.{codes_asked, count_of, decode_asked, encode_asked, explain_asked};
ghost use Rattle.rbc_dispatch.specs.Words.{fault_in, finding_in, flag_of, live_asked, log_asked, number_in, number_of};
ghost use Rattle.rbc_dispatch.specs.declared.pages.Topic.{Topic as TopicOf};
ghost use Rattle.rbc_dispatch.specs.declared.words.Task.TheVariants.{Page as PageOn};
ghost use Rattle.rbc_dispatch.specs.Words.{IsUnfit, numbers_in, parts_asked, picture_asked, run_asked, whole_line};
ghost use Rattle.rbc_dispatch.specs.Words.{words_of};

use crate::command_line::command;
use crate::kilometres::part_in;
use crate::misuse::Misuse;
use crate::no_task::NoTask;
use crate::pages::{Topic, topic_in};
use clap::ArgMatches;
use clap::error::ErrorKind;
use rbc_explain::{LogParts, LogWanted};
use rbc_live::Wanted;
use rbc_picture::LinePart;
use std::alloc::{AllocError, Global};
use std::env::{Env, FillError};
use std::{env, io};

/// What the arguments ask the program to do. `track` is the name of the track file.
#[derive(Drop)]
pub enum Task<'a> {
    /// `dispatch run --track FILE --workers N --by-train --stats --alarms`: run the batch on standard input.
    ///
    /// - `workers`: the number of workers, 1 by default. One worker takes the inputs in order. Several workers attempt
    ///   many inputs at once, commit them in input order, and recompute the attempts that went stale.
    /// - `by_train`: several workers share runs of messages by train instead.
    /// - `stats`: report on standard error what the workers did.
    /// - `alarms`: write the alarms too, each after the result of its input. One worker takes the inputs then, in
    ///   order, and nothing is reported.
    Run {
        track: &'a str,
        workers: u8,
        by_train: bool,
        stats: bool,
        alarms: bool,
    },
    /// `dispatch live --track FILE --from N --alarms`: answer the lines on standard input as they come, and write what
    /// is wanted of the answers.
    Live {
        track: &'a str,
        wanted: Wanted,
    },
    /// `dispatch explain --track FILE --from N --to N --refused --end --json`: tell the log on standard input in words,
    /// or with `json` as objects for programs.
    Explain {
        track: &'a str,
        wanted: LogWanted,
        json: bool,
    },
    /// `dispatch picture --track FILE --after N --line L --km A-B --train E --busy`: draw the state after this many
    /// inputs of the log on standard input, or after all, on the chosen part of the track.
    Picture {
        track: &'a str,
        after: Option<u64>,
        choice: Choice,
    },
    /// `dispatch check --track FILE --other-keys --json`: report on the track, in words or as an object.
    Check {
        track: &'a str,
        other_keys: bool,
        json: bool,
    },
    /// `dispatch encode --track FILE TEXT ..`: write the bytes of the message whose text these words are, or, if there
    /// are none, put the bytes of messages in place of their text in the lines on standard input. Reports are placed
    /// on the track. `words` are all arguments.
    Encode {
        track: Option<&'a str>,
        words: &'a [String],
    },
    /// `dispatch decode HEX --long`: write the text of the message whose bytes this word gives, in one line or, with
    /// the option, in a line for each variable.
    Decode {
        word: &'a str,
        long: bool,
    },
    /// `dispatch decode`: put the text of messages in place of their bytes in the lines on standard input.
    DecodeLines,
    /// `dispatch codes CODE --json`: list what each code and each fault means, or this code alone; all as objects.
    Codes {
        code: Option<u32>,
        json: bool,
    },
    /// `dispatch help batch` and `dispatch help track`: print a page of help.
    Page(Topic),
}

/// What of the track is drawn.
#[derive(Drop)]
pub enum Choice {
    /// All of it.
    All,
    /// The lines on which there is a train, a stop or a restriction.
    Busy,
    /// These lines and parts of lines.
    Lines(Vec<LinePart>),
    /// The part of its line on which this train is.
    Train(u32),
}

/// The arguments, as words. They are bad if one of them is not UTF-8.
pub fn read<R: Env + AllocGlobal>(rt: &R) -> Result<Vec<String>, NoTask>
    ensures { IfErr result (λ no_task. IsWantOfMemory no_task ⊎ (status_of no_task ≡ 2)) }
{
    match env::args(&Nameless(rt)) {
        Ok(words) => Ok(words.collect(rt.alloc())?),
        Err(error) if error.kind() == io::ErrorKind::OutOfMemory => {
            Err(NoTask::from(AllocError))
        }
        Err(_) => {
            let message = "invalid UTF-8 was detected in one or more arguments";
            Err(refuse(rt.alloc(), ErrorKind::InvalidValue, message))
        }
    }
}

// What the program says of words that it refuses itself, if there is memory for it.
fn refuse(alloc: Global, kind: ErrorKind, message: &str) -> NoTask
    ensures { IsWantOfMemory result ⊎ (status_of result ≡ status_of_kind kind) }
{
    match refusal(alloc, kind, message) {
        Ok(error) => NoTask::Words(error),
        Err(refused) => NoTask::from(refused),
    }
}

fn refusal(alloc: Global, kind: ErrorKind, message: &str) -> Result<clap::Error, AllocError>
    ensures { IfOk result (λ error. kind_of error ≡ kind) }
{
    command(alloc)?.error(kind, message)
}

/// The task that the arguments ask for. The error is the help that they ask for, what is wrong with them, or a lack of
/// memory. A page of help that belongs to no command is a task.
pub fn parse<'a>(alloc: Global, words: &'a [String]) -> Result<Task<'a>, NoTask>
    ensures task { IfOk result (λ task. Asks (asked_of task) (map string_bytes words.now)) }
    ensures taken { (asked : Asked) → Asks asked (map string_bytes words.now) → IsTakenFor asked result }
    ensures page { (topic : TopicOf) → topic_in (map string_bytes words.now) ≡ Some topic
        → result ≡ Ok (PageOn topic) }
    ensures refused { fault_in (map string_bytes words.now) ≡ []
        → IfErr result (λ no_task. IsRefusal (ending_of no_task)) }
{
    match topic_in(words) {
        Some(topic) => Ok(Task::Page(topic)),
        None => parse_command(alloc, words),
    }
}

/// The task of arguments that name a command.
fn parse_command<'a>(alloc: Global, words: &'a [String]) -> Result<Task<'a>, NoTask>
    ensures task { IfOk result (λ task. (fault_of command_line (map string_bytes words.now) ≡ [])
        × (asked_in (map string_bytes words.now) (finding_in (map string_bytes words.now)) ≡ Some (asked_of task))) }
    ensures taken { (asked : Asked) → fault_of command_line (map string_bytes words.now) ≡ []
        → asked_in (map string_bytes words.now) (finding_in (map string_bytes words.now)) ≡ Some asked
        → IsTakenFor asked result }
    ensures refused { fault_of command_line (map string_bytes words.now) ≡ []
        → IfErr result (λ no_task. IsRefusal (ending_of no_task)) }
{
    let matches = command(alloc)?.try_get_matches_from(words)?;
    match task_of(alloc, &matches, words) {
        Ok(task) => Ok(task),
        Err(Misuse::Words(message)) => Err(refuse(alloc, ErrorKind::ArgumentConflict, message)),
        Err(Misuse::OutOfMemory) => Err(NoTask::OutOfMemory),
    }
}

/// The task that the words name, by what was found in them.
fn task_of<'a>(
    alloc: Global,
    matches: &ArgMatches<'a>,
    words: &'a [String],
) -> Result<Task<'a>, Misuse>
    ensures { IsFor (asked_in (map string_bytes words.now) (subcommand_rows_of matches.now)) result }
{
    match matches.subcommand() {
        Some((name, found)) => task_named(alloc, name, found, words),
        // Never reached: clap requires a subcommand.
        None => Err(Misuse::Words("no command was named")),
    }
}

/// The task of the subcommand of this name, by what was found for its arguments.
fn task_named<'a>(
    alloc: Global,
    name: &str,
    found: &ArgMatches<'a>,
    words: &'a [String],
) -> Result<Task<'a>, Misuse>
    ensures { IsFor (asked_named (map string_bytes words.now) name.now (rows_of (found_of found.now))) result }
{
    if name == "run" {
        run_task(found)
    } else if name == "live" {
        live_task(found)
    } else if name == "explain" {
        explain_task(found)
    } else if name == "picture" {
        picture_task(alloc, found)
    } else if name == "check" {
        check_task(found)
    } else if name == "encode" {
        Ok(encode_task(found, words))
    } else if name == "decode" {
        decode_task(found)
    } else if name == "codes" {
        codes_task(found)
    } else {
        // Never reached: there is no other subcommand.
        Err(Misuse::Words("no command was named"))
    }
}

fn run_task<'a>(found: &ArgMatches<'a>) -> Result<Task<'a>, Misuse>
    ensures { IsFor (run_asked (rows_of (found_of found.now))) result }
{
    Ok(Task::Run {
        track: track_in(found)?,
        workers: byte_in(found, "workers"),
        by_train: flag_in(found, "by-train"),
        stats: flag_in(found, "stats"),
        alarms: flag_in(found, "alarms"),
    })
}

fn live_task<'a>(found: &ArgMatches<'a>) -> Result<Task<'a>, Misuse>
    ensures { IsFor (live_asked (rows_of (found_of found.now))) result }
{
    let track = track_in(found)?;
    let alarms = flag_in(found, "alarms");
    let wanted = Wanted {
        from: count_in(found, "from").unwrap_or(1),
        alarms,
    };
    Ok(Task::Live { track, wanted })
}

fn explain_task<'a>(found: &ArgMatches<'a>) -> Result<Task<'a>, Misuse>
    ensures { IsFor (explain_asked (rows_of (found_of found.now))) result }
{
    let track = track_in(found)?;
    let parts = parts_asked(flag_in(found, "refused"), flag_in(found, "end"))?;
    let from = count_in(found, "from").unwrap_or(1);
    let wanted = log_asked(from, count_in(found, "to"), parts)?;
    let json = flag_in(found, "json");
    Ok(Task::Explain {
        track,
        wanted,
        json,
    })
}

/// The parts of a log, unless both flags stand there.
fn parts_asked(refused: bool, end: bool) -> Result<LogParts, Misuse>
    ensures ok { IfOk result (λ parts. parts_asked refused end ≡ Some parts) }
    ensures err { IfErr result (IsUnfit (parts_asked refused end)) }
{
    match (refused, end) {
        (true, true) => Err(Misuse::Words("--refused and --end do not go together")),
        (true, false) => Ok(LogParts::Refused),
        (false, true) => Ok(LogParts::End),
        (false, false) => Ok(LogParts::All),
    }
}

/// What is wanted of a log, unless it would end before it begins.
fn log_asked(from: u64, to: Option<u64>, parts: LogParts) -> Result<LogWanted, Misuse>
    ensures ok { IfOk result (λ wanted. log_asked from to parts ≡ Some wanted) }
    ensures err { IfErr result (IsUnfit (log_asked from to parts)) }
{
    match to {
        Some(last) if last < from => Err(Misuse::Words("--to is less than --from")),
        _ => Ok(LogWanted { from, to, parts }),
    }
}

fn picture_task<'a>(alloc: Global, found: &ArgMatches<'a>) -> Result<Task<'a>, Misuse>
    ensures { IsFor (picture_asked (rows_of (found_of found.now))) result }
{
    let track = track_in(found)?;
    let lines = lines_in(alloc, found)?;
    let km = word_in(found, "km");
    let train = number_in(found, "train");
    let choice = choice_of(alloc, &lines, km, train, flag_in(found, "busy"))?;
    Ok(Task::Picture {
        track,
        after: count_in(found, "after"),
        choice,
    })
}

/// The lines that are named.
fn lines_in(alloc: Global, found: &ArgMatches<'_>) -> Result<Vec<u32>, AllocError>
    ensures { IfOk result (λ lines. lines.items ≡ numbers_in (words_of (codes "line") (rows_of (found_of found.now)))) }
{
    match found.get_strs("line") {
        Some(words) => numbers_of(alloc, words),
        None => Ok(Vec::new(alloc)),
    }
}

/// The numbers among words. Here each word is one: clap takes no other.
fn numbers_of(alloc: Global, words: &[&str]) -> Result<Vec<u32>, AllocError>
    ensures { IfOk result (λ numbers. numbers.items ≡ filter_map (λ word. number_in word.now) words.now) }
{
    words
        .iter()
        .filter_map(|word| number_of(word))
        .collect(alloc)
}

/// The number that a word is, if it is one.
fn number_of(word: &str) -> Option<u32>
    ensures { result ≡ number_in word.now }
{
    word.parse::<u32>().ok()
}

/// What is drawn, by the lines that are named, the part of a line, the train and the flag `--busy`.
fn choice_of(
    alloc: Global,
    lines: &[u32],
    km: Option<&str>,
    train: Option<u32>,
    busy: bool,
) -> Result<Choice, Misuse>
    ensures ok { IfOk result (λ choice. chosen_by lines.now (option_map (λ word. word.now) km.entry) train busy
        ≡ Some (chosen_of choice)) }
    ensures err { IfErr result (IsUnfit (chosen_by lines.now (option_map (λ word. word.now) km.entry) train busy)) }
{
    match (lines, km, train, busy) {
        ([], None, None, false) => Ok(Choice::All),
        ([], None, None, true) => Ok(Choice::Busy),
        ([], None, Some(engine), false) => Ok(Choice::Train(engine)),
        ([_, ..], None, None, false) => Ok(Choice::Lines(whole_lines(alloc, lines)?)),
        ([line], Some(km), None, false) => part_of_line(alloc, *line, km),
        ([_, _, ..], Some(_), None, false) => {
            Err(Misuse::Words("--km needs exactly one --line"))
        }
        ([], Some(_), ..) => Err(Misuse::Words("--km needs exactly one --line")),
        _ => Err(Misuse::Words("only one of --line, --train and --busy can be asked for")),
    }
}

/// Lines from their beginnings to their ends.
fn whole_lines(alloc: Global, lines: &[u32]) -> Result<Vec<LinePart>, AllocError>
    ensures { IfOk result (λ parts. parts.items ≡ map whole_line lines.now) }
{
    lines.iter().map(|line| whole_line(*line)).collect(alloc)
}

/// A line from its beginning to its end.
fn whole_line(line: u32) -> LinePart
    ensures { result ≡ whole_line line }
{
    LinePart { line, part: None }
}

/// A part of a line, which a text names in kilometres.
fn part_of_line(alloc: Global, line: u32, km: &str) -> Result<Choice, Misuse>
    ensures ok { IfOk result (λ choice. chosen_by (line ∷ []) (Some km.now) None false ≡ Some (chosen_of choice)) }
    ensures err { IfErr result (IsUnfit (chosen_by (line ∷ []) (Some km.now) None false)) }
{
    match part_in(km) {
        Some(part) => Ok(Choice::Lines(one_part(alloc, line, part)?)),
        None => Err(Misuse::Words("--km is not two rising numbers of kilometres, as in 8.4-17.5")),
    }
}

/// One part of one line.
fn one_part(alloc: Global, line: u32, part: (u32, u32)) -> Result<Vec<LinePart>, AllocError>
    ensures { IfOk result (λ parts. parts.items ≡ record { line = line; part = Some part } ∷ []) }
{
    let mut parts = Vec::new(alloc);
    parts.push(LinePart {
        line,
        part: Some(part),
    })?;
    Ok(parts)
}

fn check_task<'a>(found: &ArgMatches<'a>) -> Result<Task<'a>, Misuse>
    ensures { IsFor (check_asked (rows_of (found_of found.now))) result }
{
    Ok(Task::Check {
        track: track_in(found)?,
        other_keys: flag_in(found, "other-keys"),
        json: flag_in(found, "json"),
    })
}

fn encode_task<'a>(found: &ArgMatches<'a>, words: &'a [String]) -> Task<'a>
    ensures { encode_asked (map string_bytes words.now) (rows_of (found_of found.now)) ≡ Some (asked_of result) }
{
    Task::Encode {
        track: word_in(found, "track"),
        words,
    }
}

fn decode_task<'a>(found: &ArgMatches<'a>) -> Result<Task<'a>, Misuse>
    ensures { IsFor (decode_asked (rows_of (found_of found.now))) result }
{
    match (word_in(found, "HEX"), flag_in(found, "long")) {
        (Some(word), long) => Ok(Task::Decode { word, long }),
        (None, false) => Ok(Task::DecodeLines),
        (None, true) => Err(Misuse::Words(
            "--long needs the bytes of a message: dispatch decode --long HEX",
        )),
    }
}

fn codes_task<'a>(found: &ArgMatches<'a>) -> Result<Task<'a>, Misuse>
    ensures { IsFor (codes_asked (rows_of (found_of found.now))) result }
{
    match (number_in(found, "CODE"), flag_in(found, "json")) {
        (None, json) => Ok(Task::Codes { code: None, json }),
        (Some(code), false) => Ok(Task::Codes {
            code: Some(code),
            json: false,
        }),
        (Some(_), true) => Err(Misuse::Words("--json writes all codes, not one")),
    }
}

/// The name of the track file.
fn track_in<'a>(found: &ArgMatches<'a>) -> Result<&'a str, Misuse>
    ensures ok { IfOk result (λ track. first_of (codes "track") (rows_of (found_of found.now)) ≡ Some track.now) }
    ensures err { IfErr result (IsUnfit (first_of (codes "track") (rows_of (found_of found.now)))) }
{
    match word_in(found, "track") {
        Some(track) => Ok(track),
        // Never reached: clap requires the option.
        None => Err(Misuse::Words("no track was named")),
    }
}

/// The word that an argument was given, if it was given one.
fn word_in<'a>(found: &ArgMatches<'a>, id: &str) -> Option<&'a str>
    ensures { option_map (λ word. word.now) result ≡ first_of id.now (rows_of (found_of found.now)) }
{
    found.get_str(id)
}

/// The number below 256 that an argument was given, or 0 if it was given none: no run takes that many workers.
fn byte_in(found: &ArgMatches<'_>, id: &str) -> u8
    ensures { result ≡ byte_of id.now (rows_of (found_of found.now)) }
{
    found.get_one::<u8>(id).unwrap_or(0)
}

/// The number below 2 ^ 64 that an argument was given, if it was given one.
fn count_in(found: &ArgMatches<'_>, id: &str) -> Option<u64>
    ensures { result ≡ count_of id.now (rows_of (found_of found.now)) }
{
    found.get_one::<u64>(id)
}

/// The number below 2 ^ 32 that an argument was given, if it was given one.
fn number_in(found: &ArgMatches<'_>, id: &str) -> Option<u32>
    ensures { result ≡ number_of id.now (rows_of (found_of found.now)) }
{
    found.get_one::<u32>(id)
}

/// Whether a flag stands there.
fn flag_in(found: &ArgMatches<'_>, id: &str) -> bool
    ensures { result ≡ flag_of id.now (rows_of (found_of found.now)) }
{
    found.get_one::<bool>(id).unwrap_or(false)
}

/// An environment without the program's name, which may be any bytes.
#[derive(Clone, Copy)]
struct Nameless<'a, R>(&'a R);

impl<R: Env> Env for Nameless<'_, R> {
    fn arg(&self, i: usize, buf: &mut [u8]) -> Result<usize, FillError> {
        match i.checked_add(1) {
            Some(next) => self.0.arg(next, buf),
            None => Err(FillError::NotPresent),
        }
    }

    fn var(&self, name: &str, buf: &mut [u8]) -> Result<usize, FillError> {
        self.0.var(name, buf)
    }

    fn var_at(&self, i: usize, buf: &mut [u8]) -> Result<usize, FillError> {
        self.0.var_at(i, buf)
    }
}

impl<R: Alloc> Alloc for Nameless<'_, R> {
    type A = R::A;

    fn alloc(&self) -> R::A {
        self.0.alloc()
    }
}
