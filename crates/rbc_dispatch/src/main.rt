//! `dispatch`, the program. `dispatch run --track FILE` runs a batch, `live` answers one line at a time, `explain`
//! tells a run in words, `picture` draws what stands after it, `check` says what a track file says, `encode` and
//! `decode` turn the text of messages into bytes and back, and `codes` says what each code means. `explain`, `check`
//! and `codes` also write JSON, for other programs. command_line.rt has the options and the help of each command,
//! pages.rt the pages of help that belong to no command.
//!
//! It stands on the crates that do the tasks. However many workers run a batch, and however they share it, the output
//! is the same. The exit status is 0 if the task was done, for help and for the version, 1 for a fault, which is one
//! line on standard error, and 2 for bad arguments. It is also 0 if the reader of a text for people went away.
//!
//! Begin with program.rt: the contract of `run` says that what words ask for (`Asks`, specs/Words.antt) is done
//! (`Does`, specs/Doing.antt), or that nothing is read.
#![tactic(auto)]

mod attempts;
mod check;
mod codes;
mod command_line;
mod decode;
mod encode;
mod ending;
mod explain;
mod fault;
mod figures;
mod kilometres;
mod law;
mod live;
mod long;
mod meaning;
mod misuse;
mod no_task;
mod pages;
mod picture;
mod program;
mod replies;
mod report;
mod show;
mod stand;
mod terminal;
mod variable;
mod witnesses;
mod words;

use std::io::IsTerminal;
use std::process::ExitCode;

fn main(rt: HostRuntime) -> ExitCode {
    let mut stdin = rt.stdin();
    let at_terminal = stdin.is_terminal();
    program::run(
        &rt,
        at_terminal,
        &mut stdin,
        &mut rt.stdout(),
        &mut rt.stderr(),
    )
}
