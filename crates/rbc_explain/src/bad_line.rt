//! What is wrong with a line that is not an input.

use ertms_codec::cut;

/// The form of each input, by its first word.
const FORMS: &[(&str, &str)] = &[
    (
        "enrol",
        "The form is `enrol ENGINE LENGTH`: ENGINE 0 to 16777215, LENGTH 1 to 40000 (units of 10 cm).",
    ),
    (
        "withdraw",
        "The form is `withdraw ENGINE`: ENGINE 0 to 16777215.",
    ),
    (
        "stop",
        "The form is `stop NUMBER LINE:FROM-TO ..`: one LINE:FROM-TO or more, places in units of 10 cm.",
    ),
    ("release", "The form is `release NUMBER`."),
    (
        "restrict",
        "The form is `restrict NUMBER LINE:FROM-TO WAYS SPEED FRONT`: WAYS up, down or both; FRONT 0 or 1.",
    ),
    ("lift", "The form is `lift NUMBER`."),
    (
        "recv",
        "The form is `recv HEX`: one word of hexadecimal digits.",
    ),
];

/// What is wrong with a line that is refused as a bad one (code 1).
#[derive(Clone, Copy)]
pub enum BadLine {
    /// It has a carriage return.
    CarriageReturn,
    /// It is empty.
    Empty,
    /// It begins or ends with a space, or has two spaces side by side.
    Spaces,
    /// The words behind this first one are wrong. `form` says in words what they have to be.
    Form {
        word: &'static str,
        form: &'static str,
    },
    /// Its first word is that of no input.
    FirstWord,
}

impl BadLine {
    /// What is wrong with a line: the first that applies.
    pub fn of(line: &[u8]) -> BadLine {
        if line.contains(&b'\r') {
            BadLine::CarriageReturn
        } else if line.is_empty() {
            BadLine::Empty
        } else if has_empty_word(line) {
            BadLine::Spaces
        } else {
            form_of(cut(line, b' ').0)
        }
    }

    /// It in a sentence.
    pub(crate) fn sentence(self) -> &'static str {
        match self {
            BadLine::CarriageReturn => {
                "It has a carriage return: lines end with a line feed alone."
            }
            BadLine::Empty => "It is empty.",
            BadLine::Spaces => "Words stand between single spaces, with none at the ends.",
            BadLine::Form { form, .. } => form,
            BadLine::FirstWord => {
                "Its first word is none of enrol, withdraw, stop, release, restrict, lift and recv."
            }
        }
    }
}

/// Whether a line begins or ends with a space, or has two spaces side by side.
fn has_empty_word(line: &[u8]) -> bool {
    let mut was_space = true;
    for byte in line {
        let is_space = *byte == b' ';
        if is_space && was_space {
            return true;
        }
        was_space = is_space;
    }
    was_space
}

/// What is wrong with a line that begins with a word.
fn form_of(first: &[u8]) -> BadLine {
    for (word, form) in FORMS {
        if first == word.as_bytes() {
            return BadLine::Form { word, form };
        }
    }
    BadLine::FirstWord
}
