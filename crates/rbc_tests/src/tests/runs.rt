//! Runs by several workers. The expected results do not come from this program.

ghost use Rattle.rbc_engine.specs.Answers.{IsOpening};

use super::batches::{FULL, STOPPED, lines_of};
use super::gates::{Both, Hold, Inside, Moment, Told};
use super::same;
use super::setting::good_track;
use rbc_batch::{parse_batch, process, process_by_train, render};
use rbc_core::Stats;
use rbc_desk::Desk;
use rbc_engine::{Gate, OpenGate, PACE, Pace, RunError, Windows, run, run_by_train};
use rbc_track::Track;
use std::alloc::Global;
use std::process::Abort;
use std::sync::Wait;
use std::thread::Threads;

/// Asserts what comes of a batch, by this many workers.
pub(super) fn assert_answers<R, G>(rt: &R, batch: &str, workers: u8, gate: &G, text: &str) -> Stats
where
    R: Abort + AllocGlobal + Threads + Wait + Sync,
    G: Gate + Sync,
{
    let track = good_track(rt);
    let mut written = Vec::new(rt.alloc());
    let mut reader = batch.as_bytes();
    let stats = process(rt, &track, &mut reader, &mut written, workers, gate);
    same(rt, written.as_slice(), text.as_bytes());
    stats.expect(rt, "an output")
}

/// Asserts what comes of a batch whose messages are shared by train, by this many workers, at a pace. Returns the
/// windows too.
pub(super) fn assert_answers_by_train<R>(
    rt: &R,
    batch: &str,
    workers: u8,
    pace: Pace,
    text: &str,
) -> (Stats, Windows)
where
    R: Abort + AllocGlobal + Threads + Wait + Sync,
{
    let track = good_track(rt);
    let mut written = Vec::new(rt.alloc());
    let mut reader = batch.as_bytes();
    let mut windows = Windows::none();
    let done = process_by_train(
        rt,
        &track,
        &mut reader,
        &mut written,
        workers,
        pace,
        &mut windows,
    );
    same(rt, written.as_slice(), text.as_bytes());
    let (stats, _) = done.expect(rt, "an output");
    (stats, windows)
}

/// A new desk, from which a run on any track can begin.
pub(super) fn new_desk(alloc: Global, track: &Track) -> Desk
    ensures { IsOpening track.now result }
{
    let _ = track;
    Desk::new(alloc)
}

/// Runs the lines of a batch on a desk.
pub(super) fn run_lines<R, G>(
    rt: &R,
    track: &Track,
    desk: &mut Desk,
    batch: &str,
    workers: u8,
    gate: &G,
) -> Result<Stats, RunError>
where
    R: Abort + AllocGlobal + Threads + Wait + Sync,
    G: Gate + Sync,
    requires { IsOpening track.now desk.old }
    ensures { IsOpening track.now desk.new }
{
    let inputs = parse_batch(rt, batch.as_bytes()).expect(rt, "memory");
    run(rt, track, desk, &inputs, workers, gate)
}

/// Has one worker take the lines of a batch in order, on the desk itself.
pub(super) fn run_in_order<R>(
    rt: &R,
    track: &Track,
    desk: &mut Desk,
    batch: &str,
) -> Result<Stats, RunError>
where
    R: Abort + AllocGlobal + Threads + Wait + Sync,
    requires { IsOpening track.now desk.old }
    ensures { IsOpening track.now desk.new }
{
    let inputs = parse_batch(rt, batch.as_bytes()).expect(rt, "memory");
    run_by_train(rt, track, desk, &inputs, 1, PACE, &mut Windows::none())
}

/// Asserts the output text of a desk.
fn assert_desk<R: Abort + AllocGlobal>(rt: &R, desk: &Desk, text: &str) {
    let written = render(rt.alloc(), desk).expect(rt, "memory");
    same(rt, written.as_slice(), text.as_bytes());
}

// R-INPUT-11. The second input reads what the first one writes, and is deposited before it: it is recomputed. Then the
// first input is begun after attempts at all others are deposited, each of which has read what it writes.
#[test]
fn computes_again_what_went_stale(rt: HostRuntime) {
    let gate = Hold::new(&rt, Moment::BeforeDeposit(1), Moment::AfterDeposit(2));
    let stats = assert_answers(&rt, STOPPED.batch, 2, &gate, STOPPED.output);
    let wanted = Stats {
        taken: 2,
        recomputed: 1,
    };
    same(&rt, stats, wanted);
    same(&rt, gate.was_passed(), true);
    let late = Hold::new(&rt, Moment::BeforeRule(1), Moment::AfterDeposit(19));
    let of_all = assert_answers(&rt, FULL.batch, 2, &late, FULL.output);
    let wanted = Stats {
        taken: 19,
        recomputed: 18,
    };
    same(&rt, of_all, wanted);
    same(&rt, late.was_passed(), true);
}

// R-INPUT-11. The second input reads what the attempt at the first one writes, which is not committed yet: nothing is
// computed again.
#[test]
fn reads_what_is_not_committed(rt: HostRuntime) {
    let gate = Both {
        one: Hold::new(&rt, Moment::BeforeRule(2), Moment::AfterDeposit(1)),
        other: Hold::new(&rt, Moment::AfterDeposit(1), Moment::AfterDeposit(2)),
    };
    let stats = assert_answers(&rt, STOPPED.batch, 2, &gate, STOPPED.output);
    let wanted = Stats {
        taken: 2,
        recomputed: 0,
    };
    same(&rt, stats, wanted);
    same(&rt, gate.one.was_passed(), true);
    same(&rt, gate.other.was_passed(), true);
}

// R-INPUT-11. The second enrolment is deposited after the stop, which has read that there is no such train.
#[test]
fn commits_in_the_order_of_the_inputs(rt: HostRuntime) {
    let gate = Hold::new(&rt, Moment::BeforeDeposit(2), Moment::AfterDeposit(3));
    let batch = "enrol 7 2000\nenrol 8 2000\nstop 1 0:0-10\n";
    let text = "1 ok 0
2 ok 0
3 ok 2
7 3 1002800000005FFFFFE0
8 3 1002800000005FFFFFE0
";
    let stats = assert_answers(&rt, batch, 2, &gate, text);
    same(&rt, stats.taken, 3);
    assert!(rt; stats.recomputed == 1 || stats.recomputed == 2);
    same(&rt, gate.was_passed(), true);
}

// R-INPUT-7, R-INPUT-11. Two trains acknowledge at once, and neither reads what the other writes: nothing is
// recomputed. The run goes on from the desk that an earlier one left.
#[test]
fn applies_what_is_apart(rt: HostRuntime) {
    let alloc = rt.alloc();
    let track = good_track(&rt);
    let mut desk = new_desk(alloc, &track);
    let first = "enrol 7 2000\nenrol 8 2000\nstop 1 0:0-10\nrelease 1\n";
    let begun = run_lines(&rt, &track, &mut desk, first, 1, &OpenGate);
    let wanted = Stats {
        taken: 4,
        recomputed: 0,
    };
    same(&rt, begun, Ok(wanted));
    let gate = Hold::new(&rt, Moment::BeforeDeposit(1), Moment::AfterDeposit(2));
    let second = "recv 9203800000FA000001C000000080\nrecv 9203800000FA0000020000000080\n";
    let stats = run_lines(&rt, &track, &mut desk, second, 2, &gate);
    let wanted = Stats {
        taken: 2,
        recomputed: 0,
    };
    same(&rt, stats, Ok(wanted));
    same(&rt, gate.was_passed(), true);
    let text = "1 ok 0
2 ok 0
3 ok 2
4 ok 2
5 ok 0
6 ok 0
7 3 1002800000005FFFFFE0
7 4 120280000000BFFFFFE0
8 3 1002800000005FFFFFE0
8 4 120280000000BFFFFFE0
";
    assert_desk(&rt, &desk, text);
}

/// Lines of the batch in which a stop waits for an identifier, this many, after the first ones.
fn stops<R: Abort + AllocGlobal>(rt: &R, from: usize, count: usize) -> String {
    lines_of(rt.alloc(), FULL.batch, from, count).expect(rt, "memory")
}

// R-REFUSE-7. A gate is told each input by its own number, once in each call, and the train that is read for it. As
// many workers are at an input at once as are asked for, and no more.
#[test]
fn tells_the_gate_each_input(rt: HostRuntime) {
    let batch = "withdraw 7\nwithdraw 8\nwithdraw 9\n";
    let text = "1 refused 7\n2 refused 7\n3 refused 7\n";
    for workers in [1, 2] {
        let told = Told::new();
        assert_answers(&rt, batch, workers, &told, text);
        same(&rt, told.calls(), 0x1111_1111_1111);
        let inside = Inside::new(&rt, u32::from(workers));
        assert_answers(&rt, batch, workers, &inside, text);
        same(&rt, inside.most(), u32::from(workers));
    }
}

/// Runs lines of the longer batch, this many, after the first ones.
fn run_part<R>(rt: &R, track: &Track, desk: &mut Desk, from: usize, count: usize, workers: u8)
where
    R: Abort + AllocGlobal + Threads + Wait + Sync,
    requires { IsOpening track.now desk.old }
    ensures { IsOpening track.now desk.new }
{
    let part = stops(rt, from, count);
    let stats = run_lines(rt, track, desk, &part, workers, &OpenGate);
    same(rt, stats.is_ok(), true);
}

/// Runs a batch in two parts by this many workers.
fn assert_parts<R>(rt: &R, workers: u8)
where
    R: Abort + AllocGlobal + Threads + Wait + Sync,
{
    let track = good_track(rt);
    let mut desk = new_desk(rt.alloc(), &track);
    run_part(rt, &track, &mut desk, 0, 9, workers);
    run_part(rt, &track, &mut desk, 9, 10, workers);
    assert_desk(rt, &desk, FULL.output);
}

// R-INPUT-11. Two runs of parts of a batch leave what a run of all its lines leaves.
#[test]
fn goes_on_from_the_desk_of_an_earlier_run(rt: HostRuntime) {
    for workers in [1, 2, 16] {
        assert_parts(&rt, workers);
    }
}

/// Asserts what comes of ten stops that begin.
fn assert_ten_stops<R: Abort + AllocGlobal>(rt: &R, desk: &Desk, stats: Result<Stats, RunError>) {
    let wanted = Stats {
        taken: 10,
        recomputed: 0,
    };
    same(rt, stats, Ok(wanted));
    let text = render(rt.alloc(), desk).expect(rt, "memory");
    same(rt, text.ends_with(b"7 10 1002800000025FFFFFF0\n"), true);
}

// One worker recomputes nothing: neither on a book, nor in order on the desk itself.
#[test]
fn computes_nothing_twice_alone(rt: HostRuntime) {
    let track = good_track(&rt);
    let batch = stops(&rt, 0, 10);
    let mut desk = new_desk(rt.alloc(), &track);
    let on_a_book = run_lines(&rt, &track, &mut desk, &batch, 1, &OpenGate);
    assert_ten_stops(&rt, &desk, on_a_book);
    let mut desk = new_desk(rt.alloc(), &track);
    let in_order = run_in_order(&rt, &track, &mut desk, &batch);
    assert_ten_stops(&rt, &desk, in_order);
    let mut desk = new_desk(rt.alloc(), &track);
    let none = run_lines(&rt, &track, &mut desk, "", 16, &OpenGate);
    let wanted = Stats {
        taken: 0,
        recomputed: 0,
    };
    same(&rt, none, Ok(wanted));
}
