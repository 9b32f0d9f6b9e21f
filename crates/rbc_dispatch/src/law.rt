//! What the forms of `run`, `live`, `explain`, `picture` and `decode` ask for.

ghost use Rattle.rbc_dispatch.specs.Forms.{AfterAllByDefault, AlarmsOfLive, AlarmsOfRun, AsManyAsNamed};
ghost use Rattle.rbc_dispatch.specs.Forms.{BeginAtOneByDefault};
ghost use Rattle.rbc_dispatch.specs.Forms.{FromOneByDefault, LongIfAsked, OneByDefault, OneLineByDefault};

/// `run` with a track asks for one worker, without sharing by train, without figures and without alarms; with a number
/// of workers, it asks for that many. `live` with a track is taken for the answers from the first one on, without
/// alarms, `explain` for all of the log in words, and `picture` for the whole track after all inputs. `run` and `live`
/// with `--alarms` ask for alarms. `decode` asks for one line, and with `--long` for one for each variable.
pub fn forms_law()
    ensures one { OneByDefault }
    ensures named { AsManyAsNamed }
    ensures first { FromOneByDefault }
    ensures log { BeginAtOneByDefault }
    ensures drawn { AfterAllByDefault }
    ensures run_alarms { AlarmsOfRun }
    ensures live_alarms { AlarmsOfLive }
    ensures one_line { OneLineByDefault }
    ensures long { LongIfAsked }
{}
