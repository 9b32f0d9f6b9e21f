//! The two pages of help that belong to no command: the lines of a batch, and the keys of a track file.

ghost use Rattle.std.specs.Prelude.{◌≡◌, List, map, string_bytes};
ghost use Rattle.rbc_dispatch.specs.Pages.{topic_in, topic_named};

/// What a page is about.
#[derive(Clone, Copy)]
pub enum Topic {
    /// `dispatch help batch`: the seven kinds of line, with an example each.
    Batch,
    /// `dispatch help track`: the keys of a track file, with an example.
    Track,
}

/// The page on the lines of a batch.
pub const BATCH_PAGE: &str = "\
THE LINES OF A BATCH. `dispatch run`, `explain` and `picture` read them from standard input, to its
end; `dispatch live` takes them one at a time. Words are separated by single spaces. Places and
lengths are in units of 10 cm, and a place is counted from the beginning of its line of track.

  enrol ENGINE LENGTH
      A train comes under this centre. ENGINE is 0 to 16777215, LENGTH 1 to 40000.
      enrol 1071 2000

  withdraw ENGINE
      The train leaves it.
      withdraw 1071

  stop NUMBER SEGMENT ..
      An emergency stop becomes active, on 1 to 8 segments. Each is LINE:FROM-TO.
      stop 1 0:152000-168500 1:152000-168500

  release NUMBER
      The stop is no longer active.
      release 1

  restrict NUMBER SEGMENT WAYS SPEED FRONT
      A temporary speed restriction becomes active. WAYS is up, down or both. SPEED is in km/h, a
      multiple of 5, up to 600. FRONT is 0 if the length of a train delays the end, and else 1.
      restrict 1 0:140000-152000 up 80 0

  lift NUMBER
      The restriction is no longer active.
      lift 1

  recv HEX
      A message from a train, as it was received, in hexadecimal digits.
      recv 880600015F9000010BC000E4AC01F8007850014002800830

Stops and restrictions are numbered apart; each number is above the last one of its kind. A line
that is none of these is refused with code 1, an empty line too. A refused line changes nothing.
`dispatch codes` says what each code means.

A BATCH. The train enrols and reports where it is, and is then told to stop.

enrol 1071 2000
recv 880600015F9000010BC000E4AC01F8007850014002800830
stop 1 0:152000-168500
";

/// The page on the keys of a track file.
pub const TRACK_PAGE: &str = "\
THE KEYS OF A TRACK FILE, a TOML document. Places and lengths are whole numbers, in units of 10 cm.

  horizon     1 to 3000000: how far ahead of a train a restriction is told to it
  [[line]]    a line of track; the first is line 0, and there are at most 64
    length    1 to 3000000; places on the line go from 0 to its length, and `up` is towards rising
              places
  [[group]]   a balise group; there are at most 8000, in any order
    nid       0 to 16777214, each once: NID_C * 16384 + NID_BG
    line      the number of the line on which it stands
    at        its place on the line
    nominal   \"up\" or \"down\": the direction from its first balise to its last

A `name`, a text, may stand at the top, in a [[line]] and in a [[group]]. Lines that begin with #
are comments. `dispatch check --track FILE` shows what a file says, and what is wrong with it.

A TRACK. Two lines of 60.4 km beside each other, with two balise groups.

# Lindau (km 0.0) to Eschen (km 60.4)
horizon = 80000

[[line]]
name = \"Lindau - Eschen\"
length = 604000

[[line]]
name = \"Eschen - Lindau\"
length = 604000

[[group]]
nid = 5768168
line = 0
at = 1250
nominal = \"up\"

[[group]]
nid = 5769168
line = 1
at = 1835
nominal = \"down\"
";

/// The page on a topic.
pub fn page_on(topic: Topic) -> &'static str
    ensures batch { topic ≡ Topic.Batch → result.now ≡ BATCH_PAGE.now }
    ensures track { topic ≡ Topic.Track → result.now ≡ TRACK_PAGE.now }
{
    match topic {
        Topic::Batch => BATCH_PAGE,
        Topic::Track => TRACK_PAGE,
    }
}

/// What the page is about that words ask for, if they ask for one.
pub fn topic_in(words: &[String]) -> Option<Topic>
    ensures { result ≡ topic_in (map string_bytes words.now) }
{
    match words {
        [help, name] if help.as_str() == "help" => topic_named(name.as_str()),
        _ => None,
    }
}

/// What the page of this name is about, if there is one.
fn topic_named(name: &str) -> Option<Topic>
    ensures { result ≡ topic_named name.now }
{
    if name == "batch" {
        Some(Topic::Batch)
    } else if name == "track" {
        Some(Topic::Track)
    } else {
        None
    }
}
