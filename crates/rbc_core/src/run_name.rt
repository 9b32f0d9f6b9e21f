//! What a book and its attempts are about.

use std::marker::Brand;

/// Names a run and a log: the track, the desk before the run, and its inputs; and the log in which its records are
/// published. Each call of a program that makes a book picks the name, and its attempts carry the same one.
pub trait RunName {
    ghost use Rattle.rbc_versions.specs.Log.{LogName};
    ghost use Rattle.rbc_core.specs.Runs.{Run};

    ghost run: { Run };

    ghost log: { LogName };
}

impl RunName for Brand {
    ghost use Rattle.std.specs.Prelude.{[]};
    ghost use Rattle.rbc_core.specs.Runs.{empty_run};

    ghost run = { empty_run };

    ghost log = { record { tag = []; buckets = [] } };
}
