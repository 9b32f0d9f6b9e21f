//! Windows as a pace says. Trains that move from list to list in windows are in the golden batches.

use super::batches::{FULL, Worked};
use super::runs::assert_answers_by_train;
use super::same;
use rbc_engine::Pace;
use std::process::Abort;
use std::sync::Wait;
use std::thread::Threads;

/// Trains 7 and 39 report twice in a row and, after an input that is not a message and changes nothing, three times.
/// The expected output was made by another program that follows the same rules.
const APART: Worked = Worked {
    batch: "enrol 7 2000
enrol 39 2000
restrict 1 0:15000-16000 both 40 1
recv 88063FFFFFFFC00001C000E400000287D0500C8019000830
recv 88063FFFFFFFC00009C000E400000287D0500C8019000830
lift 9
recv 88063FFFFFFFC00001C000E400000287D0500C8019000830
recv 88063FFFFFFFC00009C000E400000287D0500C8019000830
recv 88063FFFFFFFC00001C000E400000287D0500C8019000830
stop 1 0:100000-110000
",
    output: "1 ok 0
2 ok 0
3 ok 0
4 ok 1
5 ok 1
6 refused 14
7 ok 0
8 ok 0
9 ok 0
10 ok 2
7 4 1804C0000000600000A82811C0027100FA2200
7 10 0F03C0000000800000A0800028CA00
39 5 1804C0000000600000A82811C0027100FA2200
39 10 0F03C0000000800000A0800028CA00
",
};

/// Runs a batch by two workers at a pace, and asserts its output, and that no input was computed twice. Returns how
/// many windows there were, and how many messages were shared in them: all that they had.
fn run_at<R>(rt: &R, worked: Worked, pace: Pace) -> (u32, u32)
where
    R: Abort + AllocGlobal + Threads + Wait + Sync,
{
    let (stats, windows) = assert_answers_by_train(rt, worked.batch, 2, pace, worked.output);
    same(rt, stats.recomputed, 0);
    same(rt, windows.refused, 0);
    (windows.count, windows.shared)
}

// R-INPUT-11. There are two consecutive messages, and then three. The train of the other batch holds 15 identifiers.
#[test]
fn windows_as_the_pace_says(rt: HostRuntime) {
    let rows = [
        (0, 0, (5, 5)),
        (1, 256, (2, 5)),
        (1, 2, (3, 5)),
        (2, 2, (2, 4)),
        (3, 256, (1, 3)),
        (4, 256, (0, 0)),
        (1, usize::MAX, (2, 5)),
        (usize::MAX, usize::MAX, (0, 0)),
    ];
    for (least, most, wanted) in rows {
        let pace = Pace {
            held: 0,
            least,
            many: usize::MAX,
            most,
        };
        same(&rt, run_at(&rt, APART, pace), wanted);
    }
    for (held, wanted) in [(15, (1, 1)), (16, (0, 0)), (usize::MAX, (0, 0))] {
        let pace = Pace {
            held,
            least: 1,
            many: usize::MAX,
            most: 1,
        };
        same(&rt, run_at(&rt, FULL, pace), wanted);
    }
}
