//! Long runs: of more than one stretch, with more than 64 trains, and with chunks in which trains report several times.

use super::runs::{new_desk, run_in_order, run_lines};
use super::same;
use super::setting::good_track;
use rbc_batch::render;
use rbc_engine::{OpenGate, Stats};
use rbc_track::Track;
use std::process::Abort;
use std::sync::Wait;
use std::thread::Threads;

/// How many trains are enrolled: as many as there can be. The lists of trains that this writes have some 4,000,000
/// items, and the log of one stretch is full at 1,600,000.
const TRAINS: u32 = 2_000;

/// A batch that enrols trains 1 to `count`.
fn enrolments<R: Abort + AllocGlobal>(rt: &R, count: u32) -> String {
    let mut batch = String::new(rt.alloc());
    for engine in 1..=count {
        writeln!(batch, "enrol {engine} 2000").expect(rt, "memory");
    }
    batch
}

/// Adds a line to a batch: a train faces up, this many units of 10 cm, at most 32,766, beyond balise group 5. It is the
/// report of train 7 in the batches by hand, with another engine number and distance.
fn add_report(rt: &impl Abort, batch: &mut String, engine: u32, distance: u32) {
    let engine = engine.saturating_mul(4);
    let distance = distance.saturating_add(0x8000);
    writeln!(
        batch,
        "recv 88063FFFFFFFC{engine:06X}000E4000002{distance:04X}500C8019000830"
    )
    .expect(rt, "memory");
}

/// Adds a line to a batch: a train acknowledges the message with a stamp.
fn add_ack(rt: &impl Abort, batch: &mut String, engine: u32, stamp: u32) {
    let engine = engine.saturating_mul(4);
    let stamp = stamp.saturating_mul(64);
    writeln!(batch, "recv 9203800000FA0{engine:06X}{stamp:09X}").expect(rt, "memory");
}

/// Runs a batch on a new desk by this many workers on a book, and returns its text, and the counts of the run.
fn run_by<R>(rt: &R, track: &Track, batch: &str, workers: u8) -> (Vec<u8>, Stats)
where
    R: Abort + AllocGlobal + Threads + Wait + Sync,
{
    let mut desk = new_desk(rt.alloc(), track);
    let stats = run_lines(rt, track, &mut desk, batch, workers, &OpenGate);
    let text = render(rt.alloc(), &desk).expect(rt, "memory");
    (text, stats.expect(rt, "a run"))
}

/// Has one worker take the lines of a batch in order on a new desk, and returns its text, and how many were taken.
fn text_in_order<R>(rt: &R, track: &Track, batch: &str) -> (Vec<u8>, u32)
where
    R: Abort + AllocGlobal + Threads + Wait + Sync,
{
    let mut desk = new_desk(rt.alloc(), track);
    let stats = run_in_order(rt, track, &mut desk, batch);
    let text = render(rt.alloc(), &desk).expect(rt, "memory");
    (text, stats.expect(rt, "a run").taken)
}

/// Asserts that a batch has the same text by 1, 2 and 16 workers on a book as by one that takes its lines in order, and
/// returns the text.
fn assert_as_in_order<R>(rt: &R, batch: &str) -> Vec<u8>
where
    R: Abort + AllocGlobal + Threads + Wait + Sync,
{
    let track = good_track(rt);
    let (wanted, count) = text_in_order(rt, &track, batch);
    for workers in [1, 2, 16] {
        let (text, stats) = run_by(rt, &track, batch, workers);
        same(rt, stats.taken, count);
        same(rt, text.as_slice(), wanted.as_slice());
    }
    wanted
}

/// Asserts that an output text contains a line, given with the line feeds before and after it.
fn assert_line(rt: &impl Abort, text: &[u8], line: &str) {
    let text = str::from_utf8(text).expect(rt, "ASCII");
    assert!(rt; text.contains(line), "{line}");
}

// R-INPUT-11. Each enrolment writes the list of all trains anew, and that of the trains without a place, so the run
// takes more than one stretch.
#[test]
fn goes_on_where_a_log_is_full(rt: HostRuntime) {
    let mut batch = enrolments(&rt, TRAINS);
    batch.push_str("stop 1 0:0-10\n").expect(&rt, "memory");
    let text = assert_as_in_order(&rt, &batch);
    assert_line(&rt, &text, "\n2001 ok 2000\n");
}

/// How many trains are enrolled in a batch whose commands are computed at their commit, since they concern more than
/// 64.
const CROWD: u32 = 80;

/// Adds a report of each train: train 1 is `distance` beyond balise group 5, and each one 200 further than the one
/// before.
fn add_reports(rt: &impl Abort, batch: &mut String, distance: u32) {
    for engine in 1..=CROWD {
        let further = engine.saturating_mul(200);
        add_report(rt, batch, engine, distance.saturating_add(further));
    }
}

/// Adds an acknowledgement of each train.
fn add_acks(rt: &impl Abort, batch: &mut String, stamp: u32) {
    for engine in 1..=CROWD {
        add_ack(rt, batch, engine, stamp);
    }
}

// R-STOP-1, R-STOP-2, R-STOP-4, R-INPUT-9. At the stop the front of train `e` is at 10,050 + 200 e, and its rear may be
// 2,100 behind. So the first 40 trains have to stop before 15,000 or are there, and the others are beyond 16,000.
#[test]
fn commands_among_messages_of_a_crowd(rt: HostRuntime) {
    let mut batch = enrolments(&rt, CROWD);
    add_reports(&rt, &mut batch, 0);
    add_reports(&rt, &mut batch, 50);
    batch
        .push_str("stop 1 0:15000-16000\n")
        .expect(&rt, "memory");
    add_acks(&rt, &mut batch, 1);
    add_reports(&rt, &mut batch, 500);
    add_reports(&rt, &mut batch, 550);
    batch.push_str("release 1\n").expect(&rt, "memory");
    add_acks(&rt, &mut batch, 2);
    add_reports(&rt, &mut batch, 1_000);
    add_reports(&rt, &mut batch, 1_050);
    let text = assert_as_in_order(&rt, &batch);
    assert_line(&rt, &text, "\n241 ok 40\n");
}

/// Adds messages of four trains: each reports in turn, five times, 500 further each time, and then acknowledges its
/// first message.
fn add_burst(rt: &impl Abort, batch: &mut String, first: u32, distance: u32) {
    let behind = first.saturating_add(4);
    for step in 0..5u32 {
        for engine in first..behind {
            add_report(rt, batch, engine, distance.saturating_add(step * 500));
        }
    }
    for engine in first..behind {
        add_ack(rt, batch, engine, 1);
    }
}

/// 60 trains, each of which sends 12 messages, among those of three others. At first they come to a restriction.
fn bursts<R: Abort + AllocGlobal>(rt: &R) -> String {
    let mut batch = enrolments(rt, 60);
    batch
        .push_str("restrict 1 0:11000-12000 both 40 1\n")
        .expect(rt, "memory");
    for distance in [500, 3_000] {
        for group in 0..15u32 {
            add_burst(rt, &mut batch, group * 4 + 1, distance);
        }
    }
    batch
}

// R-INPUT-11. If many inputs are left, one worker takes so many at once that several of them are from one train. It
// sees what its own earlier attempts write, before they are deposited.
#[test]
fn sees_its_own_attempts(rt: HostRuntime) {
    let track = good_track(&rt);
    let batch = bursts(&rt);
    let (wanted, _) = text_in_order(&rt, &track, &batch);
    let (text, stats) = run_by(&rt, &track, &batch, 1);
    let counts = Stats {
        taken: 781,
        recomputed: 0,
    };
    same(&rt, stats, counts);
    same(&rt, text.as_slice(), wanted.as_slice());
    assert_line(&rt, &text, "\n62 ok 1\n");
}
