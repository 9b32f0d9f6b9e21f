//! What waits at a train, and why, as an object.

use rbc_account::{Cause, Waiting, Waits};
use std::fmt;

/// What waits at the train of an engine.
#[derive(Clone, Copy)]
pub(crate) struct NotToldObject {
    pub engine: u32,
    pub waiting: Waiting,
}

impl fmt::Display for NotToldObject {
    ghost use Rattle.std.specs.Prelude.{Some};
    ghost use Rattle.rbc_json.specs.Json.{json_text};
    ghost use Rattle.rbc_json.specs.Waits.{not_told_object};

    ghost output = { λ shown. Some (json_text (not_told_object shown.engine shown.waiting)) };

    fn fmt<W: fmt::Write>(&self, f: &mut fmt::Formatter<W>) -> fmt::Result {
        let (engine, lacks) = (self.engine, LackWord(self.waiting.cause));
        match self.waiting.what {
            Waits::Stop(number) => write!(
                f,
                "{{\"engine\":{engine},\"kind\":\"stop\",\"stop\":{number},\"lacks\":{lacks}}}"
            ),
            Waits::Restriction(number) => write!(
                f,
                "{{\"engine\":{engine},\"kind\":\"restriction\",\"restriction\":{number},\"lacks\":{lacks}}}"
            ),
            Waits::Again(number) => write!(
                f,
                "{{\"engine\":{engine},\"kind\":\"stop_again\",\"stop\":{number},\"lacks\":{lacks}}}"
            ),
        }
    }
}

/// What the train lacks.
#[derive(Clone, Copy)]
struct LackWord(Cause);

impl fmt::Display for LackWord {
    ghost use Rattle.std.specs.Prelude.{Some};
    ghost use Rattle.rbc_json.specs.Json.{json_text};
    ghost use Rattle.rbc_json.specs.Waits.{lack_word};

    ghost output = { λ shown. Some (json_text (lack_word shown.0)) };

    fn fmt<W: fmt::Write>(&self, f: &mut fmt::Formatter<W>) -> fmt::Result {
        match self.0 {
            Cause::NoIdentifier => write!(f, "\"identifier\""),
            Cause::NoStamp => write!(f, "\"stamp\""),
        }
    }
}
