//! What a stop or a restriction that began means for the trains, as an object.

use rbc_account::Counts;
use std::fmt;

/// What a stop means for the trains.
#[derive(Clone, Copy)]
pub(crate) struct StopCounts(pub Option<Counts>);

impl fmt::Display for StopCounts {
    ghost use Rattle.std.specs.Prelude.{Some};
    ghost use Rattle.rbc_json.specs.Json.{json_text};
    ghost use Rattle.rbc_json.specs.Effects.{stop_counts};

    ghost output = { λ shown. Some (json_text (stop_counts shown.0)) };

    fn fmt<W: fmt::Write>(&self, f: &mut fmt::Formatter<W>) -> fmt::Result {
        match self.0 {
            Some(counts) => {
                let Counts {
                    trains,
                    told,
                    untold,
                    unconcerned,
                    ..
                } = counts;
                write!(
                    f,
                    "{{\"trains\":{trains},\"told\":{told},\"not_told\":{untold},\"not_concerned\":{unconcerned}}}"
                )
            }
            None => write!(f, "null"),
        }
    }
}

/// What a restriction means for the trains.
#[derive(Clone, Copy)]
pub(crate) struct RestrictCounts(pub Option<Counts>);

impl fmt::Display for RestrictCounts {
    ghost use Rattle.std.specs.Prelude.{Some};
    ghost use Rattle.rbc_json.specs.Json.{json_text};
    ghost use Rattle.rbc_json.specs.Effects.{restrict_counts};

    ghost output = { λ shown. Some (json_text (restrict_counts shown.0)) };

    fn fmt<W: fmt::Write>(&self, f: &mut fmt::Formatter<W>) -> fmt::Result {
        match self.0 {
            Some(counts) => {
                let Counts {
                    trains,
                    told,
                    untold,
                    unplaced,
                    unconcerned,
                } = counts;
                write!(
                    f,
                    "{{\"trains\":{trains},\"told\":{told},\"not_told\":{untold},\"without_place\":{unplaced},\
                     \"not_concerned\":{unconcerned}}}"
                )
            }
            None => write!(f, "null"),
        }
    }
}
