//! Batches worked by hand, on the track of `setting`, with what they lead to. The train is engine 7.

use std::alloc::{AllocError, Global};

/// A batch, and its output text.
#[derive(Clone, Copy)]
pub(crate) struct Worked {
    pub(crate) batch: &'static str,
    pub(crate) output: &'static str,
}

/// R-STOP-1, R-STOP-6. The train is told a stop: it has not reported, so it has to stop at once.
pub(crate) const STOPPED: Worked = Worked {
    batch: "enrol 7 2000\nstop 1 0:0-10\n",
    output: "1 ok 0\n2 ok 1\n7 2 1002800000005FFFFFE0\n",
};

/// R-IDENTIFIER-3, R-SETTLE-1, R-SETTLE-2, R-INPUT-7. Stops take all 15 identifiers of the train; one more waits until
/// it acknowledges that the first one is revoked.
pub(crate) const FULL: Worked = Worked {
    batch: "enrol 7 2000
stop 1 0:0-10
stop 2 0:0-10
stop 3 0:0-10
stop 4 0:0-10
stop 5 0:0-10
stop 6 0:0-10
stop 7 0:0-10
stop 8 0:0-10
stop 9 0:0-10
stop 10 0:0-10
stop 11 0:0-10
stop 12 0:0-10
stop 13 0:0-10
stop 14 0:0-10
stop 15 0:0-10
stop 16 0:0-10
release 1
recv 9203800000FA000001C000000400
",
    output: "1 ok 0
2 ok 1
3 ok 1
4 ok 1
5 ok 1
6 ok 1
7 ok 1
8 ok 1
9 ok 1
10 ok 1
11 ok 1
12 ok 1
13 ok 1
14 ok 1
15 ok 1
16 ok 1
17 ok 0
18 ok 1
19 ok 1
7 2 1002800000005FFFFFE0
7 3 1002800000009FFFFFE2
7 4 100280000000DFFFFFE4
7 5 1002800000011FFFFFE6
7 6 1002800000015FFFFFE8
7 7 1002800000019FFFFFEA
7 8 100280000001DFFFFFEC
7 9 1002800000021FFFFFEE
7 10 1002800000025FFFFFF0
7 11 1002800000029FFFFFF2
7 12 100280000002DFFFFFF4
7 13 1002800000031FFFFFF6
7 14 1002800000035FFFFFF8
7 15 1002800000039FFFFFFA
7 16 100280000003DFFFFFFC
7 18 1202800000043FFFFFE0
7 19 1002800000FA5FFFFFE0
",
};

/// Lines of a batch, this many, after the first ones.
pub(crate) fn lines_of(
    alloc: Global,
    batch: &str,
    from: usize,
    count: usize,
) -> Result<String, AllocError> {
    let mut lines = String::new(alloc);
    for line in batch.lines().skip(from).take(count) {
        lines.push_str(line)?;
        lines.push('\n')?;
    }
    Ok(lines)
}
