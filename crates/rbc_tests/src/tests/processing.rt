//! Batches from a reader to a writer.

use super::batches::{FULL, STOPPED};
use super::same;
use super::setting::good_track;
use rbc_batch::{ProcessError, process, write_text};
use rbc_engine::OpenGate;
use std::io;
use std::io::{ErrorKind, Read, Write};
use std::process::Abort;
use std::sync::Wait;
use std::thread::Threads;

/// Gives a text in pieces of this many bytes, and fails at one call.
#[derive(Drop)]
struct Pieces<'a> {
    text: &'a [u8],
    size: usize,
    calls: u32,
    fails_at: u32,
    kind: ErrorKind,
}

impl Read for Pieces<'_> {
    fn read(&mut self, buf: &mut [u8]) -> io::Result<usize> {
        self.calls = self.calls.wrapping_add(1);
        if self.calls == self.fails_at {
            return Err(io::Error::from(self.kind));
        }
        let room = buf.len().min(self.size);
        self.text.read(&mut buf[..room])
    }
}

/// Runs the longer batch, which is given in pieces of this many bytes, and fails at one call. Asserts that nothing is
/// written if reading fails, and otherwise all.
fn assert_pieces<R>(rt: &R, size: usize, fails_at: u32, kind: ErrorKind)
where
    R: Abort + AllocGlobal + Threads + Wait + Sync,
{
    let track = good_track(rt);
    let mut reader = Pieces {
        text: FULL.batch.as_bytes(),
        size,
        calls: 0,
        fails_at,
        kind,
    };
    let mut written = Vec::new(rt.alloc());
    let fault = process(rt, &track, &mut reader, &mut written, 1, &OpenGate).err();
    if kind == ErrorKind::Other && fails_at != 0 && fails_at <= reader.calls {
        same(rt, fault, Some(ProcessError::Read));
        same(rt, written.len(), 0);
    } else {
        same(rt, fault, None);
        same(rt, written.as_slice(), FULL.output.as_bytes());
    }
}

// The batch is given in 42 pieces, and the next call gives the end. Then it is given one byte a call, and as many as
// there is room for.
#[test]
fn fails_where_the_reader_fails(rt: HostRuntime) {
    same(&rt, FULL.batch.len().div_ceil(7), 42);
    for fails_at in 1..=44 {
        assert_pieces(&rt, 7, fails_at, ErrorKind::Other);
        assert_pieces(&rt, 7, fails_at, ErrorKind::Interrupted);
    }
    assert_pieces(&rt, 1, 0, ErrorKind::Other);
    assert_pieces(&rt, usize::MAX, 0, ErrorKind::Other);
}

/// Is always interrupted, and counts it.
#[derive(Drop)]
struct Interrupted {
    calls: u32,
}

impl Read for Interrupted {
    fn read(&mut self, _: &mut [u8]) -> io::Result<usize> {
        self.calls = self.calls.wrapping_add(1);
        Err(io::Error::from(ErrorKind::Interrupted))
    }
}

impl Write for Interrupted {
    fn write(&mut self, _: &[u8]) -> io::Result<usize> {
        self.calls = self.calls.wrapping_add(1);
        Err(io::Error::from(ErrorKind::Interrupted))
    }

    fn flush(&mut self) -> io::Result<()> {
        Ok(())
    }
}

#[test]
fn gives_up_on_endless_interruptions(rt: HostRuntime) {
    let track = good_track(&rt);
    let mut reader = Interrupted { calls: 0 };
    let mut written = Vec::new(rt.alloc());
    let result = process(&rt, &track, &mut reader, &mut written, 1, &OpenGate);
    same(&rt, result, Err(ProcessError::Read));
    same(&rt, (reader.calls, written.len()), (20_000_000, 0));
    let mut text = b"enrol 7 2000".as_slice();
    let mut writer = Interrupted { calls: 0 };
    let result = process(&rt, &track, &mut text, &mut writer, 1, &OpenGate);
    same(&rt, result, Err(ProcessError::Write { sent: 0 }));
    same(&rt, writer.calls, 1_000);
}

/// Takes one byte a call up to some number, then gives 0 or fails for this many calls, and works again. Every other
/// call is interrupted.
#[derive(Drop)]
struct Narrow {
    taken: Vec<u8>,
    room: usize,
    fails: bool,
    faults: u32,
    interrupts: bool,
}

impl Write for Narrow {
    fn write(&mut self, buf: &[u8]) -> io::Result<usize> {
        self.interrupts = !self.interrupts;
        if self.interrupts {
            return Err(io::Error::from(ErrorKind::Interrupted));
        }
        if self.taken.len() >= self.room && self.faults > 0 {
            self.faults -= 1;
            return if self.fails {
                Err(io::Error::from(ErrorKind::BrokenPipe))
            } else {
                Ok(0)
            };
        }
        match buf.first() {
            Some(byte) => {
                self.taken.push(*byte)?;
                Ok(1)
            }
            None => Ok(0),
        }
    }

    fn flush(&mut self) -> io::Result<()> {
        Ok(())
    }
}

// A writer that fails once is not tried again, even if it would work.
#[test]
fn counts_what_is_out_where_the_writer_fails(rt: HostRuntime) {
    let track = good_track(&rt);
    let batch = STOPPED.batch.as_bytes();
    let whole = STOPPED.output.as_bytes();
    for room in 0..=whole.len() {
        for (fails, faults) in [(false, 1), (true, 1), (false, u32::MAX), (true, u32::MAX)] {
            let mut reader = batch;
            let mut writer = Narrow {
                taken: Vec::new(rt.alloc()),
                room,
                fails,
                faults,
                interrupts: false,
            };
            let result = process(&rt, &track, &mut reader, &mut writer, 1, &OpenGate);
            if room < whole.len() {
                let sent = room as u64;
                same(&rt, result, Err(ProcessError::Write { sent }));
                same(&rt, writer.taken.as_slice(), &whole[..room]);
            } else {
                same(&rt, result.is_ok(), true);
                same(&rt, writer.taken.as_slice(), whole);
            }
        }
    }
}

/// Is interrupted 600 times, takes at most a given number of bytes, is interrupted a given number of times again, and
/// then takes all.
#[derive(Drop)]
struct Stuttering {
    taken: Vec<u8>,
    calls: u32,
    first: usize,
    again: u32,
}

impl Write for Stuttering {
    fn write(&mut self, buf: &[u8]) -> io::Result<usize> {
        self.calls = self.calls.wrapping_add(1);
        let is_between = self.calls == 601;
        if !is_between && self.calls <= self.again.saturating_add(601) {
            return Err(io::Error::from(ErrorKind::Interrupted));
        }
        let room = if is_between {
            buf.len().min(self.first)
        } else {
            buf.len()
        };
        self.taken.extend_from_slice(&buf[..room])?;
        Ok(room)
    }

    fn flush(&mut self) -> io::Result<()> {
        Ok(())
    }
}

// Interruptions are counted over all parts: 600 and 400 of them are too many, 600 and 399 are not.
#[test]
fn counts_interruptions_of_all_parts(rt: HostRuntime) {
    let text = STOPPED.output.as_bytes();
    for (again, sent) in [(400, 5), (399, text.len())] {
        let mut writer = Stuttering {
            taken: Vec::new(rt.alloc()),
            calls: 0,
            first: 5,
            again,
        };
        let result = write_text(&mut writer, text);
        let unwritten = result.err().map(|unwritten| unwritten.sent);
        same(&rt, unwritten, (again == 400).then_some(sent));
        same(&rt, writer.taken.as_slice(), &text[..sent]);
    }
}

/// 134 trains without a place, and 15 stops of which each of them is told: so many messages that several workers make
/// the output text in parts, of which the first one has the results.
fn many_messages<R: Abort + AllocGlobal>(rt: &R) -> String {
    let mut batch = String::new(rt.alloc());
    for engine in 1..=134 {
        writeln!(batch, "enrol {engine} 2000").expect(rt, "memory");
    }
    for number in 1..=15 {
        writeln!(batch, "stop {number} 0:0-10").expect(rt, "memory");
    }
    batch
}

/// What has come out of a batch when a writer has taken all, or has failed.
fn output_of<R, W>(rt: &R, batch: &str, writer: &mut W, workers: u8) -> Option<ProcessError>
where
    R: Abort + AllocGlobal + Threads + Wait + Sync,
    W: Write,
{
    let track = good_track(rt);
    let mut reader = batch.as_bytes();
    process(rt, &track, &mut reader, writer, workers, &OpenGate).err()
}

// The 149 results have 1,263 bytes: 9 with 7, 90 with 8, 35 with 9, and 15 with 11. Interruptions and bytes are counted
// over the parts of an output text as over those of one part.
#[test]
fn counts_interruptions_of_all_texts(rt: HostRuntime) {
    let batch = many_messages(&rt);
    let mut whole = Vec::new(rt.alloc());
    same(&rt, output_of(&rt, &batch, &mut whole, 1), None);
    for (again, sent) in [(400, 1_263), (399, whole.len())] {
        let mut writer = Stuttering {
            taken: Vec::new(rt.alloc()),
            calls: 0,
            first: usize::MAX,
            again,
        };
        let fault = ProcessError::Write { sent: sent as u64 };
        same(
            &rt,
            output_of(&rt, &batch, &mut writer, 2),
            (again == 400).then_some(fault),
        );
        same(
            &rt,
            writer.taken.as_slice(),
            &whole[..sent.min(whole.len())],
        );
    }
}
