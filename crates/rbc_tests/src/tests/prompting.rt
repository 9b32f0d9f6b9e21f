//! Lines that are answered as they come, from a reader to a writer.

use super::same;
use super::setting::TRACK;
use rbc_live::{LiveDesk, PromptError, Wanted, answer_lines};
use std::cell::Cell;
use std::io;
use std::io::{ErrorKind, Read, Write};
use std::process::Abort;

/// All answers, and no alarms.
const ALL: Wanted = Wanted {
    from: 1,
    alarms: false,
};

/// Four lines, of which the last one lacks its line feed.
const LINES: &str = "enrol 7 2000\nstop 1 0:0-10\nx\nrelease 1";

/// The answers to them, worked by hand.
const ANSWERS: &str = "1 ok 0
2 ok 1
7 2 1002800000005FFFFFE0
3 refused 1
4 ok 1
7 4 120280000000BFFFFFE0
";

/// Gives `LINES` in pieces of this many bytes, and an error at one call. It also fails where it is asked for more while
/// answers wait to be flushed.
#[derive(Drop)]
struct Asking<'a> {
    text: &'a [u8],
    size: usize,
    calls: u32,
    fails_at: u32,
    kind: ErrorKind,
    answers_wait: &'a Cell<bool>,
}

impl Read for Asking<'_> {
    fn read(&mut self, buf: &mut [u8]) -> io::Result<usize> {
        self.calls = self.calls.wrapping_add(1);
        if self.calls == self.fails_at {
            return Err(io::Error::from(self.kind));
        }
        if self.answers_wait.get() {
            return Err(io::Error::from(ErrorKind::Other));
        }
        let room = buf.len().min(self.size);
        self.text.read(&mut buf[..room])
    }
}

/// Takes all bytes, and fails at one flush.
#[derive(Drop)]
struct Telling<'a> {
    taken: Vec<u8>,
    flushes: u32,
    fails_at: u32,
    answers_wait: &'a Cell<bool>,
}

impl Write for Telling<'_> {
    fn write(&mut self, buf: &[u8]) -> io::Result<usize> {
        self.taken.extend_from_slice(buf)?;
        self.answers_wait.set(true);
        Ok(buf.len())
    }

    fn flush(&mut self) -> io::Result<()> {
        self.flushes = self.flushes.wrapping_add(1);
        if self.flushes == self.fails_at {
            return Err(io::Error::from(ErrorKind::Other));
        }
        self.answers_wait.set(false);
        Ok(())
    }
}

/// Where a reader or a writer fails: pieces of this many bytes are read, one call of the reader gives an error of this
/// kind, and one flush fails. There is no call number 0.
#[derive(Clone, Copy)]
struct Course {
    size: usize,
    read: u32,
    kind: ErrorKind,
    flush: u32,
}

/// Answers `LINES` on such a course. Asserts how that ends, that exactly the first `sent` bytes of the answers are out,
/// and after how many calls of the reader; and, where it ends well, that none of them waits to be flushed.
fn assert_course<R>(rt: &R, course: Course, ended: Result<(), PromptError>, sent: usize, calls: u32)
where
    R: Abort + AllocGlobal,
{
    let answers_wait = Cell::new(false);
    let desk = LiveDesk::open(rt.alloc(), TRACK).expect(rt, "a good track");
    let mut reader = Asking {
        text: LINES.as_bytes(),
        size: course.size,
        calls: 0,
        fails_at: course.read,
        kind: course.kind,
        answers_wait: &answers_wait,
    };
    let mut writer = Telling {
        taken: Vec::new(rt.alloc()),
        flushes: 0,
        fails_at: course.flush,
        answers_wait: &answers_wait,
    };
    let result = answer_lines(rt.alloc(), desk, &mut reader, &mut writer, ALL);
    same(rt, result, ended);
    let answers = ANSWERS.as_bytes();
    same(
        rt,
        writer.taken.as_slice(),
        &answers[..sent.min(answers.len())],
    );
    same(rt, reader.calls, calls);
    same(rt, answers_wait.get() && ended.is_ok(), false);
}

// The lines have 38 bytes, so they come in 38, in 6 or in one piece. The next call gives the end.
#[test]
fn makes_an_interrupted_call_again(rt: HostRuntime) {
    for (size, calls) in [(1, 39), (7, 7), (64, 2)] {
        for read in 0..=calls {
            let course = Course {
                size,
                read,
                kind: ErrorKind::Interrupted,
                flush: 0,
            };
            let made = if read == 0 {
                calls
            } else {
                calls.saturating_add(1)
            };
            assert_course(&rt, course, Ok(()), ANSWERS.len(), made);
        }
    }
}

// Lines 1 to 3 end with byte 13, 27 and 29. The answers to them have 7, 32 and 12 bytes.
#[test]
fn answers_the_lines_before_a_failure(rt: HostRuntime) {
    for (read, sent) in [(1, 0), (2, 0), (3, 7), (4, 7), (5, 39), (6, 51), (7, 51)] {
        let course = Course {
            size: 7,
            read,
            kind: ErrorKind::Other,
            flush: 0,
        };
        assert_course(&rt, course, Err(PromptError::Read), sent, read);
    }
}

// All comes in one piece, so lines 1 to 3 are answered together, and line 4 at the end.
#[test]
fn tells_that_a_flush_failed(rt: HostRuntime) {
    for (flush, sent) in [(1, 51), (2, 83)] {
        let course = Course {
            size: 64,
            read: 0,
            kind: ErrorKind::Other,
            flush,
        };
        let ended = Err(PromptError::Write { sent: sent as u64 });
        assert_course(&rt, course, ended, sent, flush);
    }
}
