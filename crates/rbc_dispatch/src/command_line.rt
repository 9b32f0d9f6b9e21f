//! The command line that the program takes, and its help.
ghost use Rattle.std.specs.Prelude.{◌≡◌, Some, false, IfOk, map};
ghost use Rattle.clap.specs.Simple.{App, Shape, new_app, new_rule, with_subcommand};
ghost use Rattle.clap.specs.Words.{app_of, rule_of, shape_of};
ghost use Rattle.clap.specs.declared.builder.command.Command.TheViews.{out-Command as fields_of};
ghost use Rattle.rbc_dispatch.specs.CommandLine.{bare_line, code_rule, codes_shape, check_shape, command_line};
ghost use Rattle.rbc_dispatch.specs.CommandLine.{decode_shape, encode_shape, explain_shape, flag_rule, hex_rule};
ghost use Rattle.rbc_dispatch.specs.CommandLine.{km_rule, known_track_rule, line_rule, live_shape, picture_shape};
ghost use Rattle.rbc_dispatch.specs.CommandLine.{run_shape, text_rule, track_rule, train_rule};

use clap::builder::ValueParser;
use clap::{Arg, ArgAction, Command};
use std::alloc::{AllocError, Global};

/// A subcommand's name, and what its help says at the top and at the end.
struct Page {
    name: &'static str,
    about: &'static str,
    after_help: &'static str,
}

/// An option that takes a number.
struct NumberOption {
    /// Its name, without hyphens.
    name: &'static str,
    /// What the number has to be.
    parser: ValueParser<'static>,
    /// The number if the option is not given, if it has a default.
    default: &'static [&'static str],
    /// What help says of it.
    help: &'static str,
}

/// A flag.
struct Flag {
    /// Its name, without hyphens.
    name: &'static str,
    /// What help says of it.
    help: &'static str,
}

const AFTER_HELP: &str = "\
First:    dispatch check --track FILE                 what the track file says
Then:     dispatch run --track FILE < BATCH           results and messages, as bytes
Or:       dispatch live --track FILE                  the same, an answer as each line comes
To write: dispatch encode --track FILE < LINES        a batch, from messages and places in words
To read:  dispatch explain --track FILE < BATCH       the same run in words
          dispatch picture --track FILE < BATCH > out.svg
Pages:    `dispatch help batch` on the lines of a batch, `dispatch help track` on track files
More:     README.md, docs/GUIDE.md; `dispatch help COMMAND` for one command.";

const RUN: &Page = &Page {
    name: "run",
    about: "Run a batch: its results, and each train's messages as bytes",
    after_help: "\
Reads a batch from standard input, to its end, and writes one line for each input in order,
`INPUT ok COUNT` or `INPUT refused CODE`, and then one line for each message, by engine number:
`ENGINE INPUT HEX`. Nothing is written before the whole batch is run.

One worker takes the inputs in order. Several workers attempt many inputs at once, commit them in
input order, and recompute an attempt if a record that it read has changed. Most inputs take about
a microsecond to decide, so one worker is usually fastest. With --by-train, several workers share
long runs of messages by train instead: faster where trains hold many restrictions. The output is
the same in every case.

With --alarms, each result is followed by one line for each alarm that its input raises or clears:
`INPUT raised ENGINE ALARM` or `INPUT cleared ENGINE ALARM`. An alarm says what a train is not told:
  place                the train has no place: a stop not told before stops it, and it is told no restriction
  stop NUMBER          the stop concerns the train, which is not told of it
  restriction NUMBER   the same for a restriction
  answer NUMBER        the train left the stop unanswered, and cannot yet be told to stop at once
One worker then takes the inputs in order, and --stats writes nothing.

Exit status: 0 done; 1 a fault, one line on standard error; 2 bad arguments.
`dispatch codes` says what each code and each fault means, `dispatch explain` tells a run in words.",
};

const LIVE: &Page = &Page {
    name: "live",
    about: "Answer inputs one line at a time, each before the next is waited for",
    after_help: "\
Reads inputs from standard input, a line each, and answers each before it waits for the next one:
`INPUT ok COUNT` or `INPUT refused CODE`, and then one line for each message that it sends, in the
order in which they are sent: `ENGINE INPUT HEX`. Ends where standard input ends.

With --alarms, one line for each alarm that the input raises or clears comes after its messages:
`INPUT raised ENGINE ALARM` or `INPUT cleared ENGINE ALARM`. ALARM is `place`, `stop NUMBER`,
`restriction NUMBER` or `answer NUMBER`; `dispatch help run` says what each means.

No state is kept. Keep the lines in a log. After a crash, start the program again, give it the log
first, and name in --from the first input whose answer you do not have. With --alarms, the alarms
that stand before that input come first, as raised by the input before it.

Exit status: 0 done; 1 a fault, one line on standard error; 2 bad arguments. What was written before
a fault stands.",
};

const EXPLAIN: &Page = &Page {
    name: "explain",
    about: "Tell a run as a log, in words or as JSON",
    after_help: "\
Reads inputs from standard input, to its end, and tells for each input what came of it and each
message with its reason; then what is active, told, not told and not acknowledged at the end. The
lines that begin with \"= \" are those of `run`. Places are in km from the beginning of their line.
There may be any number of inputs. The log is written as they are read.

--from and --to choose the inputs that are told, by number. The run always begins with input 1. It
ends with the input that --to names, and the end then says what stands after that input. With
--refused, only the refused inputs are told, and no end. With --end, only the end is told.

With --json, writes an object for each input that is told and one for the end, in place of words.
Programs can rely on the form of the objects; docs/JSON.md describes it.

Exit status: 0 done; 1 a fault, one line on standard error; 2 bad arguments. What was written before
a fault stands.",
};

const PICTURE: &Page = &Page {
    name: "picture",
    about: "Draw the track with its trains, stops and restrictions, as SVG",
    after_help: "\
Reads inputs from standard input, to its end, and writes one SVG document: for each line of track
its balise groups, the stops and restrictions that are active, and each train where it may be, with
the places before which it is told to stop. Trains without a place are listed below. There may be
any number of inputs. Nothing is written before the whole picture is known.

A part of the track is drawn by --line, by --line and --km, by --train or by --busy. The title then
says what is left out. The counts are always those of the whole track.

Exit status: 0 done; 1 a fault, one line on standard error; 2 bad arguments.",
};

const CHECK: &Page = &Page {
    name: "check",
    about: "Show what a track file says, and what is wrong with it",
    after_help: "\
Writes the lines with their balise groups in order, then warnings and notes. Where the file is
refused, writes the rule that it breaks and where. Standard input is not read.

With --json, writes one object in place of words, also where the file is refused (docs/JSON.md).

Exit status: 0 good, without a warning; 1 refused (`track: RULE` on standard error, as `run` has
it), or good with warnings (`track: N warnings`); 2 bad arguments.",
};

const ENCODE: &Page = &Page {
    name: "encode",
    about: "Turn readable lines of trains into a batch, or one text into a message",
    after_help: "\
Without TEXT, reads lines from standard input and writes each as soon as it is read:
  recv TEXT                                    a message from a train, as `decode` writes it
  report ENGINE STAMP LINE:PLACE WAY [DOUBT]   the report of a train whose front is at PLACE
Each becomes `recv HEX`; any other line stays as it is. WAY, `up` or `down`, is where the train
faces. PLACE and DOUBT are in units of 10 cm. The front may be as far as DOUBT from PLACE; DOUBT is
0 if it is left out. A report needs --track, and a balise group at the train or behind it.
So `dispatch encode --track FILE < LINES | dispatch run --track FILE` runs what a person wrote.

With TEXT, one word or several, writes the bytes of this one message, to a train or from one. Write
-- before a TEXT of several words if one of them begins with a hyphen.

  dispatch encode 16 stamp 2 ack 0 lrbg 16777215 em 1
  1002800000009FFFFFE2

Exit status: 0 done; 1 a fault, one line on standard error, as in `encode: line 3, word 8: 'scale'`;
2 bad arguments. What was written before a fault stands.",
};

const DECODE: &Page = &Page {
    name: "decode",
    about: "Show what the bytes of messages mean",
    after_help: "\
Messages 15, 16, 18 and 24 are read as messages to a train, all others as messages from one.
Writes one line: the message's number, then each variable with its value.

  dispatch decode 1002800000009FFFFFE2
  16 stamp 2 ack 0 lrbg 16777215 em 1

Without HEX, reads lines from standard input and writes each as soon as it is read. The bytes of a
message become its text where they stand alone, behind `recv` or behind `ENGINE INPUT`. All else
stays as it is. So `dispatch run .. | dispatch decode` shows the messages in words.

With HEX and --long, writes one line for each variable, and for the bits that are none: the place of
its first bit, its width in bits, its name in SUBSET-026, its value, and what that means.

Exit status: 0 done; 1 a fault: `bad hex`, or `decode: NAME` with NAME Length, Message, Packet or
Field; 2 bad arguments.",
};

const CODES: &Page = &Page {
    name: "codes",
    about: "List all result codes and faults, and what to do about each",
    after_help: "\
Writes for each its number or its line, its name, what it means and what to do. With CODE, writes
what stands there of this code alone. Reads nothing.

With --json, writes an object for each code and each fault in place of words (docs/JSON.md). CODE
and --json do not go together.

Exit status: 0 done; 1 a fault, one line on standard error; 2 bad arguments.",
};

const WORKERS: &NumberOption = &NumberOption {
    name: "workers",
    parser: ValueParser::Signed(0, 255),
    default: &["1"],
    help: "How many threads may work at once, 1 to 16",
};

const FIRST_ANSWER: &NumberOption = &NumberOption {
    name: "from",
    parser: ValueParser::Unsigned(1, 18_446_744_073_709_551_615),
    default: &["1"],
    help: "The first input whose answer is written, 1 or more",
};

const FIRST_TOLD: &NumberOption = &NumberOption {
    name: "from",
    parser: ValueParser::Unsigned(1, 18_446_744_073_709_551_615),
    default: &[],
    help: "Tell inputs from number N on; earlier ones are run, but not told",
};

const LAST_TOLD: &NumberOption = &NumberOption {
    name: "to",
    parser: ValueParser::Unsigned(1, 18_446_744_073_709_551_615),
    default: &[],
    help: "Tell inputs up to number N; later ones are not run",
};

const LAST_DRAWN: &NumberOption = &NumberOption {
    name: "after",
    parser: ValueParser::Unsigned(0, 18_446_744_073_709_551_615),
    default: &[],
    help: "Draw what stands after the first N inputs; without it, after all",
};

const BY_TRAIN: &Flag = &Flag {
    name: "by-train",
    help: "Let workers share messages by train, not attempt inputs",
};

const STATS: &Flag = &Flag {
    name: "stats",
    help: "Say on standard error what the workers did",
};

const ALARMS: &Flag = &Flag {
    name: "alarms",
    help: "Write what trains are not told, as it begins and ends",
};

const REFUSED: &Flag = &Flag {
    name: "refused",
    help: "Tell only the refused inputs, and not the end",
};

const END: &Flag = &Flag {
    name: "end",
    help: "Tell only what stands at the end",
};

const JSON: &Flag = &Flag {
    name: "json",
    help: "Write JSON for programs, one object in each line",
};

const BUSY: &Flag = &Flag {
    name: "busy",
    help: "Leave lines out that have no train, stop or restriction",
};

const OTHER_KEYS: &Flag = &Flag {
    name: "other-keys",
    help: "Count unknown keys as notes, not as warnings",
};

const LONG: &Flag = &Flag {
    name: "long",
    help: "Write one line for each variable of the message",
};

/// The command line that the program takes, by the name `dispatch` whatever its file is called.
pub fn command<'a>(alloc: Global) -> Result<Command<'a>, AllocError>
    ensures { IfOk result (λ command. app_of command ≡ command_line) }
{
    let with_run = with_subcommand(bare_command(alloc), run_command(alloc));
    let with_live = with_subcommand(with_run, live_command(alloc));
    let with_explain = with_subcommand(with_live, explain_command(alloc));
    let with_picture = with_subcommand(with_explain, picture_command(alloc));
    let with_check = with_subcommand(with_picture, check_command(alloc));
    let with_encode = with_subcommand(with_check, encode_command(alloc));
    let with_decode = with_subcommand(with_encode, decode_command(alloc));
    with_subcommand(with_decode, codes_command(alloc))
}

/// The command line with one more subcommand, if there was memory for both.
fn with_subcommand<'a>(
    command: Result<Command<'a>, AllocError>,
    subcommand: Result<Command<'a>, AllocError>,
) -> Result<Command<'a>, AllocError>
    ensures { (app : App) (shape : Shape) → IfOk command.entry (λ c. app_of c ≡ app)
        → IfOk subcommand.entry (λ s. shape_of s ≡ shape)
        → IfOk subcommand.entry (λ s. (fields_of s).has_globals ≡ false)
        → IfOk result (λ r. app_of r ≡ with_subcommand app shape) }
{
    match (command, subcommand) {
        (Ok(command), Ok(subcommand)) => command.subcommand(subcommand),
        _ => Err(AllocError),
    }
}

/// The command line without its subcommands.
fn bare_command<'a>(alloc: Global) -> Result<Command<'a>, AllocError>
    ensures { IfOk result (λ command. app_of command ≡ bare_line) }
{
    Command::new(alloc, "dispatch")
        .no_binary_name(true)
        .version("3.21.0, rules 3")
        .about(
            "Emergency stops and speed restrictions, from a signaller's batch to each train's messages",
        )
        .after_help(AFTER_HELP)
        .subcommand_required(true)
        .bin_name("dispatch")
}

/// `run`, with its five options.
fn run_command<'a>(alloc: Global) -> Result<Command<'a>, AllocError>
    ensures shape { IfOk result (λ command. shape_of command ≡ run_shape) }
    ensures local { IfOk result (λ command. (fields_of command).has_globals ≡ false) }
{
    subcommand(alloc, RUN)
        .arg(track_option(alloc))?
        .arg(number_option(alloc, WORKERS))?
        .arg(flag_option(alloc, BY_TRAIN))?
        .arg(flag_option(alloc, STATS))?
        .arg(flag_option(alloc, ALARMS))
}

/// `live`, with its three options.
fn live_command<'a>(alloc: Global) -> Result<Command<'a>, AllocError>
    ensures shape { IfOk result (λ command. shape_of command ≡ live_shape) }
    ensures local { IfOk result (λ command. (fields_of command).has_globals ≡ false) }
{
    subcommand(alloc, LIVE)
        .arg(track_option(alloc))?
        .arg(number_option(alloc, FIRST_ANSWER))?
        .arg(flag_option(alloc, ALARMS))
}

/// `explain`, with its six options.
fn explain_command<'a>(alloc: Global) -> Result<Command<'a>, AllocError>
    ensures shape { IfOk result (λ command. shape_of command ≡ explain_shape) }
    ensures local { IfOk result (λ command. (fields_of command).has_globals ≡ false) }
{
    subcommand(alloc, EXPLAIN)
        .arg(track_option(alloc))?
        .arg(number_option(alloc, FIRST_TOLD))?
        .arg(number_option(alloc, LAST_TOLD))?
        .arg(flag_option(alloc, REFUSED))?
        .arg(flag_option(alloc, END))?
        .arg(flag_option(alloc, JSON))
}

/// `picture`, with its six options.
fn picture_command<'a>(alloc: Global) -> Result<Command<'a>, AllocError>
    ensures shape { IfOk result (λ command. shape_of command ≡ picture_shape) }
    ensures local { IfOk result (λ command. (fields_of command).has_globals ≡ false) }
{
    subcommand(alloc, PICTURE)
        .arg(track_option(alloc))?
        .arg(number_option(alloc, LAST_DRAWN))?
        .arg(line_option(alloc))?
        .arg(km_option(alloc))?
        .arg(train_option(alloc))?
        .arg(flag_option(alloc, BUSY))
}

/// `check`, with its three options.
fn check_command<'a>(alloc: Global) -> Result<Command<'a>, AllocError>
    ensures shape { IfOk result (λ command. shape_of command ≡ check_shape) }
    ensures local { IfOk result (λ command. (fields_of command).has_globals ≡ false) }
{
    subcommand(alloc, CHECK)
        .arg(track_option(alloc))?
        .arg(flag_option(alloc, OTHER_KEYS))?
        .arg(flag_option(alloc, JSON))
}

/// `encode`, with its option and its words.
fn encode_command<'a>(alloc: Global) -> Result<Command<'a>, AllocError>
    ensures shape { IfOk result (λ command. shape_of command ≡ encode_shape) }
    ensures local { IfOk result (λ command. (fields_of command).has_globals ≡ false) }
{
    subcommand(alloc, ENCODE)
        .arg(known_track_option(alloc))?
        .arg(text_words(alloc))
}

/// `decode`, with its word and its option.
fn decode_command<'a>(alloc: Global) -> Result<Command<'a>, AllocError>
    ensures shape { IfOk result (λ command. shape_of command ≡ decode_shape) }
    ensures local { IfOk result (λ command. (fields_of command).has_globals ≡ false) }
{
    subcommand(alloc, DECODE)
        .arg(hex_word(alloc))?
        .arg(flag_option(alloc, LONG))
}

/// `codes`, with its word and its flag.
fn codes_command<'a>(alloc: Global) -> Result<Command<'a>, AllocError>
    ensures shape { IfOk result (λ command. shape_of command ≡ codes_shape) }
    ensures local { IfOk result (λ command. (fields_of command).has_globals ≡ false) }
{
    subcommand(alloc, CODES)
        .arg(code_word(alloc))?
        .arg(flag_option(alloc, JSON))
}

/// A subcommand without arguments.
fn subcommand<'a>(alloc: Global, page: &Page) -> Command<'a>
    ensures app { app_of result ≡ new_app page.now.name.now }
    ensures local { (fields_of result).has_globals ≡ false }
{
    Command::new(alloc, page.name)
        .about(page.about)
        .after_help(page.after_help)
}

fn track_option<'a>(alloc: Global) -> Arg<'a>
    ensures rule { rule_of result ≡ track_rule }
    ensures local { result.global ≡ false }
{
    Arg::new(alloc, "track")
        .long("track")
        .value_name("FILE")
        .required(true)
        .help("The track file, a TOML document")
}

fn known_track_option<'a>(alloc: Global) -> Arg<'a>
    ensures rule { rule_of result ≡ known_track_rule }
    ensures local { result.global ≡ false }
{
    Arg::new(alloc, "track")
        .long("track")
        .value_name("FILE")
        .help("The track file that reports are placed on, a TOML document")
}

fn text_words<'a>(alloc: Global) -> Arg<'a>
    ensures rule { rule_of result ≡ text_rule }
    ensures local { result.global ≡ false }
{
    Arg::new(alloc, "TEXT").num_args(1..).help(
        "The text of one message, in one word or several; lines are read if there is none",
    )
}

fn number_option<'a>(alloc: Global, option: &NumberOption) -> Arg<'a>
    ensures rule { rule_of result ≡ record (new_rule option.now.name.now) {
      long = Some option.now.name.now;
      value_names = 1;
      parser = Some option.now.parser;
      defaults = map (λ text. text.now) option.now.default.now;
    } }
    ensures local { result.global ≡ false }
{
    Arg::new(alloc, option.name)
        .long(option.name)
        .value_name("N")
        .value_parser(option.parser)
        .default_values(option.default)
        .help(option.help)
}

fn flag_option<'a>(alloc: Global, flag: &Flag) -> Arg<'a>
    ensures rule { rule_of result ≡ flag_rule flag.now.name.now }
    ensures local { result.global ≡ false }
{
    Arg::new(alloc, flag.name)
        .long(flag.name)
        .action(ArgAction::SetTrue)
        .help(flag.help)
}

fn line_option<'a>(alloc: Global) -> Arg<'a>
    ensures rule { rule_of result ≡ line_rule }
    ensures local { result.global ≡ false }
{
    Arg::new(alloc, "line")
        .long("line")
        .value_name("L")
        .action(ArgAction::Append)
        .value_parser(ValueParser::Signed(0, 4_294_967_295))
        .help("Draw line L alone; several --line draw several lines")
}

fn km_option<'a>(alloc: Global) -> Arg<'a>
    ensures rule { rule_of result ≡ km_rule }
    ensures local { result.global ≡ false }
{
    Arg::new(alloc, "km").long("km").value_name("A-B").help(
        "Draw this part of the line, in kilometres, as in 8.4-17.5",
    )
}

fn train_option<'a>(alloc: Global) -> Arg<'a>
    ensures rule { rule_of result ≡ train_rule }
    ensures local { result.global ≡ false }
{
    Arg::new(alloc, "train")
        .long("train")
        .value_name("E")
        .value_parser(ValueParser::Signed(0, 16_777_215))
        .help("Draw the part of the line on which train E is")
}

fn code_word<'a>(alloc: Global) -> Arg<'a>
    ensures rule { rule_of result ≡ code_rule }
    ensures local { result.global ≡ false }
{
    Arg::new(alloc, "CODE")
        .value_parser(ValueParser::Signed(1, 16))
        .help("List this result code alone, 1 to 16")
}

fn hex_word<'a>(alloc: Global) -> Arg<'a>
    ensures rule { rule_of result ≡ hex_rule }
    ensures local { result.global ≡ false }
{
    Arg::new(alloc, "HEX").help(
        "The bytes of one message, two hexadecimal digits each; lines are read if there are none",
    )
}
