//! What each fault of the program means, and what to do about it.

/// A fault: the form of its line, what it means and what to do about it.
pub struct FaultRow {
    /// The form of the line on standard error.
    pub line: &'static str,
    /// What it means.
    pub sentence: &'static str,
    /// What to do.
    pub to_do: &'static str,
}

/// All faults, in the order in which they are told.
pub const FAULTS: &[FaultRow] = &[
    FaultRow {
        line: "track: unreadable",
        sentence: "The track file cannot be opened or read, or is not UTF-8.",
        to_do: "Look at the name after --track, and at who may read the file.",
    },
    FaultRow {
        line: "track: RULE",
        sentence: "The text of the track file breaks this rule: Text, Shape, TooManyLines, TooManyGroups,
      BadLength, GroupOffLine or GroupTwice; or OutOfMemory.",
        to_do: "`dispatch check --track FILE` says where, in words.",
    },
    FaultRow {
        line: "track: N warnings",
        sentence: "check: the track is good, and its report, on standard output, has warnings.",
        to_do: "Read them before the track is used.",
    },
    FaultRow {
        line: "read fault",
        sentence: "Standard input could not be read to its end.",
        to_do: "Run again. What was written stands; `run` and `picture` wrote nothing.",
    },
    FaultRow {
        line: "batch too long",
        sentence: "run: the batch has more than 16777216 bytes. Other commands take any number.",
        to_do: "Nothing was written. See docs/GUIDE.md, \"Limits\".",
    },
    FaultRow {
        line: "workers must be 1 to 16",
        sentence: "run --workers: the number is outside 1 to 16.",
        to_do: "Nothing was written. Take a number from 1 to 16, or leave --workers out.",
    },
    FaultRow {
        line: "too many inputs",
        sentence: "run: the batch has more than 100000 inputs. Other commands take any number.",
        to_do: "Nothing was written. See docs/GUIDE.md, \"Limits\".",
    },
    FaultRow {
        line: "only N inputs",
        sentence: "explain --from and picture --after: there are fewer inputs than this number.",
        to_do: "Nothing was written. Take a smaller number.",
    },
    FaultRow {
        line: "picture: no line L",
        sentence: "picture --line: the track has no line with this number.",
        to_do: "Nothing was written. `dispatch check` lists the lines.",
    },
    FaultRow {
        line: "picture: the part is not on line L",
        sentence: "picture --km: the part goes beyond the end of the line.",
        to_do: "Nothing was written. `dispatch check` says how long each line is.",
    },
    FaultRow {
        line: "picture: no train E",
        sentence: "picture --train: no train with this number is enrolled after the inputs.",
        to_do: "Nothing was written. The end of `dispatch explain` lists the trains.",
    },
    FaultRow {
        line: "out of memory",
        sentence: "Memory was refused.",
        to_do: "Run again with more memory. What was written stands; `run` and `picture` wrote nothing.",
    },
    FaultRow {
        line: "out of memory after N inputs",
        sentence: "Memory was refused after the first N inputs were done.",
        to_do: "Nothing was written. Run again with more memory.",
    },
    FaultRow {
        line: "write fault after N bytes",
        sentence: "Standard output took exactly the first N bytes.",
        to_do: "Throw the part away, make room, and run again: the output is the same, byte for byte.",
    },
    FaultRow {
        line: "bad hex",
        sentence: "decode: the word is not pairs of hexadecimal digits.",
        to_do: "Copy the message again.",
    },
    FaultRow {
        line: "decode: NAME",
        sentence: "decode: the bytes are no message; NAME is Length, Message, Packet or Field,
      as result codes 3 to 6.",
        to_do: "See there.",
    },
    FaultRow {
        line: "encode: WRONG",
        sentence: "encode: the text is the text of no message; WRONG names its first wrong word and says
      what was expected there.",
        to_do: "Correct the word. What was written stands: the lines before it.",
    },
];
