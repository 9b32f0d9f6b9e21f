//! What each result code means, and what to do about it.

ghost use Rattle.std.specs.Prelude.{◌≡◌, ◌↔◌, IsSome, IsSomeAnd, IfSome};
ghost use Rattle.rbc_rule.specs.Codes.{code_of};
ghost use Rattle.rbc_rule.specs.declared.refuse.Refusal.{Refusal};
ghost use Rattle.rbc_words.specs.Rows.{IsRowOf, name_of};

use rbc_rule::Refusal;

/// A result code with its name, what it means and what to do about it. A sentence that is longer than a line is broken,
/// and its further lines are indented as in the text of all codes.
#[derive(Clone, Copy, Debug, PartialEq, Eq)]
pub struct Row {
    /// The code, 1 to 16.
    pub code: u8,
    /// Its name.
    pub name: &'static str,
    /// What it means.
    pub sentence: &'static str,
    /// What to do.
    pub to_do: &'static str,
}

/// The row of a refusal.
pub fn row_of(refusal: Refusal) -> Row
    ensures { IsRowOf refusal result }
{
    Row {
        code: refusal.code(),
        name: name_of(refusal),
        sentence: sentence_of(refusal),
        to_do: to_do_of(refusal),
    }
}

/// The row of a code, if an input can be refused with it.
pub fn row_of_code(code: u8) -> Option<Row>
    ensures each { (refusal : Refusal) → code ≡ code_of refusal → IsSomeAnd result (IsRowOf refusal) }
    ensures code { IfSome result (λ row. row.code ≡ code) }
{
    match refusal_of(code) {
        Some(refusal) => Some(row_of(refusal)),
        None => None,
    }
}

/// The refusal that has a code.
fn refusal_of(code: u8) -> Option<Refusal>
    ensures each { (refusal : Refusal) → code ≡ code_of refusal → result ≡ Some refusal }
    ensures code { IfSome result (λ refusal. code_of refusal ≡ code) }
{
    match code {
        1 => Some(Refusal::BadLine),
        2 => Some(Refusal::BadHex),
        3 => Some(Refusal::Length),
        4 => Some(Refusal::Message),
        5 => Some(Refusal::Packet),
        6 => Some(Refusal::Field),
        7 => Some(Refusal::UnknownTrain),
        8 => Some(Refusal::AlreadyEnrolled),
        9 => Some(Refusal::TooManyTrains),
        10 => Some(Refusal::StopsOutstanding),
        11 => Some(Refusal::NumberUsed),
        12 => Some(Refusal::BadArea),
        13 => Some(Refusal::TooManyActive),
        14 => Some(Refusal::NoSuchNumber),
        15 => Some(Refusal::StampTooHigh),
        16 => Some(Refusal::NothingToAcknowledge),
        _ => None,
    }
}

/// The second row of a code that means one thing of stops and another of restrictions.
pub fn other_row_of(refusal: Refusal) -> Option<Row>
    ensures there { IsSome result ↔ (refusal ≡ Refusal.BadArea) }
    ensures code { IfSome result (λ row. row.code ≡ code_of refusal) }
{
    if refusal != Refusal::BadArea {
        return None;
    }
    Some(Row {
        code: refusal.code(),
        name: "bad restriction",
        sentence: "The stretch of the restriction does not lie on a line of the track, or has no length,
      or its speed is above 600 km/h or not a multiple of 5.",
        to_do: "As above.",
    })
}

/// The name of a refusal.
fn name_of(refusal: Refusal) -> &'static str
    ensures { result.now ≡ name_of refusal }
{
    match refusal {
        Refusal::BadLine => "bad line",
        Refusal::BadHex => "bad hex",
        Refusal::Length => "length",
        Refusal::Message => "message",
        Refusal::Packet => "packet",
        Refusal::Field => "field",
        Refusal::UnknownTrain => "unknown train",
        Refusal::AlreadyEnrolled => "already enrolled",
        Refusal::TooManyTrains => "too many trains",
        Refusal::StopsOutstanding => "stops outstanding",
        Refusal::NumberUsed => "number used",
        Refusal::BadArea => "bad area",
        Refusal::TooManyActive => "too many active",
        Refusal::NoSuchNumber => "no such number",
        Refusal::StampTooHigh => "stamp too high",
        Refusal::NothingToAcknowledge => "nothing to acknowledge",
    }
}

/// What a refusal means.
fn sentence_of(refusal: Refusal) -> &'static str {
    match refusal {
        Refusal::BadLine =>
            "The line is none of the seven inputs, or a number in it is out of its range.",
        Refusal::BadHex => "The word after `recv` is not pairs of hexadecimal digits.",
        Refusal::Length =>
            "The bytes are not as long as the message says, or too short for its kind.",
        Refusal::Message => "The message is none of 136, 146 and 147.",
        Refusal::Packet =>
            "A packet in the message is cut short, is too short, or is no position packet.",
        Refusal::Field => "A variable in the message has a spare value.",
        Refusal::UnknownTrain => "No train with this engine number is enrolled.",
        Refusal::AlreadyEnrolled => "A train with this engine number is enrolled.",
        Refusal::TooManyTrains => "2000 trains are enrolled.",
        Refusal::StopsOutstanding => "A stop identifier of the train is in use, or being revoked.",
        Refusal::NumberUsed => "The number is not above the last one that was given.",
        Refusal::BadArea =>
            "A stretch of the stop does not lie on a line of the track, or there are more than 8.",
        Refusal::TooManyActive => "64 stops, or 300 restrictions, are active.",
        Refusal::NoSuchNumber => "No stop, or no restriction, with this number is active.",
        Refusal::StampTooHigh =>
            "The stamp of the message (T_TRAIN) is above 4200000000 (units of 10 ms).",
        Refusal::NothingToAcknowledge => "No message to the train waits for this acknowledgement.",
    }
}

/// What to do about a refusal.
fn to_do_of(refusal: Refusal) -> &'static str {
    match refusal {
        Refusal::BadLine => "Append the line again, corrected. Leave the refused line where it is.",
        Refusal::BadHex => "Append the message again, as it was received. Check how it is copied.",
        Refusal::Length =>
            "The old place of the train still counts. Ask it for a report; if this comes
             again, tell the operator of the radio.",
        Refusal::Message => "As for 3. Do not pass other messages to this program.",
        Refusal::Packet | Refusal::Field => "As for 3.",
        Refusal::UnknownTrain => "Look at the number. Enrol the train, and ask it for a report.",
        Refusal::AlreadyEnrolled =>
            "Nothing, if it is the same train. Otherwise withdraw the old one first.",
        Refusal::TooManyTrains => "Withdraw trains that have left.",
        Refusal::StopsOutstanding =>
            "Release its stops, wait until it has acknowledged each revocation, then withdraw it.",
        Refusal::NumberUsed => "Take the next number. Stops and restrictions count apart.",
        Refusal::BadArea =>
            "Look at the line with `dispatch check`, and append the command again, corrected.",
        Refusal::TooManyActive => "Release stops, or lift restrictions, that are no longer needed.",
        Refusal::NoSuchNumber => "Look at what is active: the end of `dispatch explain`.",
        Refusal::StampTooHigh =>
            "The old place of the train still counts. Its clock is wrong: tell the operator of the
             radio.",
        Refusal::NothingToAcknowledge =>
            "Nothing, if it came twice. Otherwise treat the train as one that has not acknowledged.",
    }
}
