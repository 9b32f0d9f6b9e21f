//! Runs worked by hand, with what they lead to.

use super::same;
use crate::tests::calls::{Call, run};
use crate::tests::numbers::Origin;
use crate::tests::setting::{assert_outbox, enrol, stop, stopped};
use rbc_core::{Commit, Stats};
use rbc_desk::Mail;
use rbc_records::Key;
use rbc_rule::{Input, Reply};
use std::process::Abort;
use std::sync::Wait;

/// An input is accepted; nobody is told anything.
const DONE: Reply = Reply::Done(0);

/// An input is accepted; one train is told something.
const TOLD: Reply = Reply::Done(1);

const APPLIED: Call = Call::Commit(Commit::Applied);

const RECOMPUTED: Call = Call::Commit(Commit::Recomputed);

const AT_END: Call = Call::Commit(Commit::Done);

/// What a run leaves in which only engine 7 is told something.
#[derive(Clone, Copy)]
struct Left<'a> {
    taken: u32,
    recomputed: u32,
    results: &'a [Reply],
    mails: &'a [Mail],
}

/// Runs inputs by these calls of a book, and asserts what is left.
fn assert_left<R: Abort + AllocGlobal + Wait>(
    rt: &R,
    inputs: &[Input],
    calls: &[Call],
    left: &Left<'_>,
) {
    let (desk, stats) = run(rt, inputs, calls);
    let counts = Stats {
        taken: left.taken,
        recomputed: left.recomputed,
    };
    same(rt, stats, counts);
    same(rt, desk.results(), left.results);
    same(rt, desk.outboxes(), 1);
    assert_outbox(rt, &desk, 0, 7, left.mails);
}

/// Train 7 is enrolled, and there is a stop.
fn enrol_and_stop<R: Abort + AllocGlobal>(rt: &R) -> [Input; 2] {
    [enrol(7), stop(rt.alloc(), 1).expect(rt, "memory")]
}

/// The second input is attempted before the first is.
const SECOND_FIRST: &[Call] = &[
    Call::Take(Some(1)),
    Call::Take(Some(2)),
    Call::Take(None),
    Call::Deposit(2, true),
    Call::Commit(Commit::NotReady),
    Call::Deposit(2, false),
    Call::Void(2, false),
    Call::Void(3, false),
    Call::Void(0, false),
    Call::Deposit(1, true),
    APPLIED,
    RECOMPUTED,
    AT_END,
];

/// The second input is attempted after the first is, and before that one is committed.
const READ_BEFORE_IT_IS_COMMITTED: &[Call] = &[
    Call::Take(Some(1)),
    Call::Take(Some(2)),
    Call::Deposit(1, true),
    Call::Deposit(2, true),
    APPLIED,
    APPLIED,
    AT_END,
];

/// The third input is attempted after the second is, which is attempted before the first and recomputed.
const MISLED: &[Call] = &[
    Call::Take(Some(1)),
    Call::Take(Some(2)),
    Call::Take(Some(3)),
    Call::Deposit(2, true),
    Call::Seen(3, Key::Train(7), Origin::Attempt(2)),
    Call::Deposit(3, true),
    Call::Deposit(1, true),
    APPLIED,
    RECOMPUTED,
    RECOMPUTED,
    AT_END,
];

/// The second input is read for in part before the first is committed, and in part after it.
const READ_IN_BETWEEN: &[Call] = &[
    Call::Take(Some(1)),
    Call::Take(Some(2)),
    Call::Read(2, Key::Unplaced),
    Call::Deposit(1, true),
    APPLIED,
    Call::Deposit(2, true),
    RECOMPUTED,
    AT_END,
];

// R-STOP-1, R-INPUT-11.
#[test]
fn read_before_and_behind_a_commit(rt: HostRuntime) {
    let inputs = enrol_and_stop(&rt);
    let mails = [stopped(2, 1, 0)];
    let left_stale = Left {
        taken: 2,
        recomputed: 1,
        results: &[DONE, TOLD],
        mails: &mails,
    };
    let left_fresh = Left {
        taken: 2,
        recomputed: 0,
        results: &[DONE, TOLD],
        mails: &mails,
    };
    assert_left(&rt, &inputs, SECOND_FIRST, &left_stale);
    assert_left(&rt, &inputs, READ_BEFORE_IT_IS_COMMITTED, &left_fresh);
    assert_left(&rt, &inputs, READ_IN_BETWEEN, &left_stale);
}

/// The last input is attempted before the train leaves and comes again: each record is unchanged, and has another
/// number.
const THERE_AND_BACK: &[Call] = &[
    Call::Take(Some(1)),
    Call::Deposit(1, true),
    APPLIED,
    Call::Take(Some(2)),
    Call::Take(Some(3)),
    Call::Take(Some(4)),
    Call::Deposit(4, true),
    Call::Deposit(2, true),
    APPLIED,
    Call::Deposit(3, true),
    APPLIED,
    RECOMPUTED,
    AT_END,
];

/// Two engines, the higher one enrolled first; a book answers the same once it is at its end.
const AT_THE_END: &[Call] = &[
    Call::Number(Key::Train(9), Origin::Nowhere),
    Call::Take(Some(1)),
    Call::Take(Some(2)),
    Call::Take(Some(3)),
    Call::Void(1, true),
    RECOMPUTED,
    Call::Deposit(2, true),
    APPLIED,
    Call::Deposit(3, true),
    APPLIED,
    Call::Number(Key::Limits, Origin::Nowhere),
    AT_END,
    Call::Take(None),
    AT_END,
    Call::Take(None),
];

/// Runs the enrolments of two trains, 7 after one with a higher number, and a stop, by these calls of a book. Both are
/// told.
fn assert_two_told<R: Abort + AllocGlobal + Wait>(
    rt: &R,
    higher: u32,
    calls: &[Call],
    recomputed: u32,
) {
    let inputs = [
        enrol(higher),
        enrol(7),
        stop(rt.alloc(), 1).expect(rt, "memory"),
    ];
    let (desk, stats) = run(rt, &inputs, calls);
    let wanted = Stats {
        taken: 3,
        recomputed,
    };
    same(rt, stats, wanted);
    same(rt, desk.results(), [DONE, DONE, Reply::Done(2)].as_slice());
    same(rt, desk.outboxes(), 2);
    let mails = [stopped(3, 1, 0)];
    assert_outbox(rt, &desk, 0, 7, &mails);
    assert_outbox(rt, &desk, 1, higher, &mails);
    assert!(rt; desk.outbox(10).is_empty());
}

// R-STOP-1, R-INPUT-11: both trains are told: where two attempts are misled, and in a book at whose end each call is
// made once more
#[test]
fn two_trains_are_told(rt: HostRuntime) {
    assert_two_told(&rt, 8, MISLED, 2);
    assert_two_told(&rt, 9, AT_THE_END, 1);
}

// R-INPUT-2, R-INPUT-11.
#[test]
fn there_and_back(rt: HostRuntime) {
    let leaving = Input::Withdraw { engine: 7 };
    let inputs = [
        enrol(7),
        leaving,
        enrol(7),
        stop(rt.alloc(), 1).expect(&rt, "memory"),
    ];
    let left = Left {
        taken: 4,
        recomputed: 1,
        results: &[DONE, DONE, DONE, TOLD],
        mails: &[stopped(4, 1, 0)],
    };
    assert_left(&rt, &inputs, THERE_AND_BACK, &left);
}

/// Runs inputs that are all accepted and of which no train is told, and asserts how many are recomputed.
fn assert_silent<R: Abort + AllocGlobal + Wait>(
    rt: &R,
    inputs: &[Input],
    calls: &[Call],
    recomputed: u32,
) {
    let (desk, stats) = run(rt, inputs, calls);
    same(rt, stats.taken as usize, inputs.len());
    same(rt, stats.recomputed, recomputed);
    same(rt, desk.results().len(), inputs.len());
    assert!(rt; desk.results().iter().all(|reply| *reply == DONE));
    same(rt, desk.outboxes(), 0);
}

/// Each commit puts the numbers of its attempt under the keys that it writes, and under no other; also under a list
/// that is again what it was first.
const A_NUMBER_FOR_EACH_WRITE: &[Call] = &[
    Call::Number(Key::Roster, Origin::Nowhere),
    Call::Number(Key::Unplaced, Origin::Nowhere),
    Call::Take(Some(1)),
    Call::Deposit(1, true),
    Call::Number(Key::Roster, Origin::Nowhere),
    APPLIED,
    Call::Number(Key::Roster, Origin::Attempt(1)),
    Call::Number(Key::Unplaced, Origin::Attempt(1)),
    Call::Take(Some(2)),
    Call::Deposit(2, true),
    Call::Number(Key::Roster, Origin::Attempt(1)),
    APPLIED,
    Call::Number(Key::Roster, Origin::Attempt(2)),
    Call::Number(Key::Unplaced, Origin::Attempt(2)),
    Call::Take(Some(3)),
    Call::Deposit(3, true),
    APPLIED,
    Call::Number(Key::Roster, Origin::Attempt(3)),
    Call::Number(Key::Unplaced, Origin::Attempt(3)),
    Call::Number(Key::Train(7), Origin::Attempt(1)),
    Call::Number(Key::Train(9), Origin::Nowhere),
    AT_END,
];

/// A train that is withdrawn has no number, and a new one once it is enrolled again.
const NO_NUMBER_IN_BETWEEN: &[Call] = &[
    Call::Take(Some(1)),
    Call::Void(1, true),
    RECOMPUTED,
    Call::Number(Key::Train(7), Origin::Commit),
    Call::Number(Key::Train(7), Origin::Before),
    Call::Number(Key::Roster, Origin::Commit),
    Call::Take(Some(2)),
    Call::Void(2, true),
    RECOMPUTED,
    Call::Number(Key::Train(7), Origin::Nowhere),
    Call::Number(Key::Roster, Origin::Nowhere),
    Call::Number(Key::Unplaced, Origin::Nowhere),
    Call::Take(Some(3)),
    Call::Void(3, true),
    RECOMPUTED,
    Call::Number(Key::Train(7), Origin::Commit),
    Call::Number(Key::Roster, Origin::Commit),
    AT_END,
];

/// The numbers of an attempt that does not stand any more are dropped with it.
const DROPPED_NUMBERS: &[Call] = &[
    Call::Take(Some(1)),
    Call::Take(Some(2)),
    Call::Deposit(2, true),
    Call::Deposit(1, true),
    APPLIED,
    Call::Number(Key::Roster, Origin::Attempt(1)),
    Call::Number(Key::Train(9), Origin::Nowhere),
    RECOMPUTED,
    Call::Number(Key::Roster, Origin::Commit),
    Call::Number(Key::Train(9), Origin::Commit),
    Call::Number(Key::Unplaced, Origin::Commit),
    Call::Number(Key::Train(7), Origin::Attempt(1)),
    AT_END,
];

/// An input sees what the attempt at the latest input before it writes, a removal too, and nothing of its own or of a
/// later one.
const THE_LATEST_BEFORE: &[Call] = &[
    Call::Take(Some(1)),
    Call::Take(Some(2)),
    Call::Take(Some(3)),
    Call::Take(Some(4)),
    Call::Deposit(1, true),
    Call::Seen(0, Key::Train(7), Origin::Nowhere),
    Call::Seen(1, Key::Train(7), Origin::Nowhere),
    Call::Seen(2, Key::Train(7), Origin::Attempt(1)),
    Call::Seen(4, Key::Train(7), Origin::Attempt(1)),
    Call::Deposit(2, true),
    Call::Seen(2, Key::Train(7), Origin::Attempt(1)),
    Call::Seen(3, Key::Train(7), Origin::Nowhere),
    Call::Deposit(3, true),
    Call::Seen(3, Key::Roster, Origin::Nowhere),
    Call::Seen(4, Key::Roster, Origin::Attempt(3)),
    Call::Seen(4, Key::Stops, Origin::Nowhere),
    Call::Deposit(4, true),
    APPLIED,
    Call::Seen(1, Key::Train(7), Origin::Attempt(1)),
    Call::Seen(3, Key::Train(7), Origin::Nowhere),
    APPLIED,
    APPLIED,
    APPLIED,
    Call::Number(Key::Roster, Origin::Attempt(4)),
    Call::Number(Key::Train(7), Origin::Attempt(3)),
    AT_END,
];

#[test]
fn numbers_of_what_is_written(rt: HostRuntime) {
    let three = [enrol(7), enrol(9), Input::Withdraw { engine: 9 }];
    assert_silent(&rt, &three, A_NUMBER_FOR_EACH_WRITE, 0);
    let back = [enrol(7), Input::Withdraw { engine: 7 }, enrol(7)];
    assert_silent(&rt, &back, NO_NUMBER_IN_BETWEEN, 3);
    let two = [enrol(7), enrol(9)];
    assert_silent(&rt, &two, DROPPED_NUMBERS, 1);
    let four = [enrol(7), Input::Withdraw { engine: 7 }, enrol(7), enrol(9)];
    assert_silent(&rt, &four, THE_LATEST_BEFORE, 0);
}
