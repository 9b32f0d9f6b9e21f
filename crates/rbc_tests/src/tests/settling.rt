//! Trains whose stamps end, or whose restrictions take several messages.

use super::same;
use super::setting::{UNKNOWN_GROUP, UP, good_track, head, written};
use ertms_codec::{Head, ToTrain};
use rbc_ids::{IdTable, IssueError, Kind, Slot};
use rbc_place::place_of;
use rbc_settle::{Sent, TrainRec, settle};
use rbc_track::Track;
use rbc_zones::{Area, BadArea, BadLimit, Dirs, Limit, Limits, Segment, Stops};
use std::alloc::{AllocError, Global};
use std::process::Abort;

/// The last stamp.
const LAST: u32 = 4_294_967_294;

/// The area of a stop for one segment.
fn area(track: &Track, from: u32, to: u32) -> Result<Area, BadArea> {
    let segment = Segment { line: 0, from, to };
    Area::new(track, &[segment])
}

/// Stops with the same area, under each number from 1 to `count`.
fn stops(alloc: Global, area: Area, count: u32) -> Result<Stops, AllocError> {
    let mut stops = Stops::new(alloc);
    for number in 1..=count {
        if stops.last() < number {
            stops.add(number, area)?;
        }
    }
    Ok(stops)
}

/// A restriction to 40 km/h on one segment, which ends for a train where its front leaves it.
fn limit(track: &Track, from: u32, to: u32, dirs: Dirs) -> Result<Limit, BadLimit> {
    let segment = Segment { line: 0, from, to };
    Limit::new(track, segment, dirs, 40, true)
}

/// Issues an identifier for a number, or returns `None` if the number is told already.
fn issue<const N: usize>(
    table: &mut IdTable<N>,
    number: u32,
    stamp: u32,
    kind: Kind,
) -> Option<Result<u8, IssueError>> {
    match table.of_number(number) {
        Some(_) => None,
        None => Some(table.issue(number, stamp, kind)),
    }
}

/// The train has to stop before a place that is so far from its balise group, in the nominal direction where `dir` is
/// 1.
fn stop_at(head: Head, id: u8, scale: u8, dir: u8, distance: u16) -> ToTrain {
    ToTrain::StopAt {
        head,
        id,
        scale,
        reference: 0,
        dir,
        distance,
    }
}

/// Asserts that messages to the train are these.
fn assert_sent(rt: &impl Abort, sent: &[Sent], wanted: &[ToTrain]) {
    same(rt, sent.len(), wanted.len());
    for (one, message) in sent.iter().zip(wanted) {
        same(rt, one.engine, 7);
        assert!(rt; written(&one.message) == written(message));
    }
}

// R-STOP-1, R-SETTLE-9: the last stamp is used, and nothing is told after it
#[test]
fn stamps_end_inside_a_list(rt: HostRuntime) {
    let alloc = rt.alloc();
    let track = good_track(&rt);
    let here = area(&track, 0, 10).expect(&rt, "a good area");
    let active = stops(alloc, here, 2).expect(&rt, "memory");
    let limits = Limits::new(alloc);
    let mut train = TrainRec::new(alloc, 7, 2_000, 4_294_967_293);
    let sent = settle(alloc, &track, &active, &limits, &mut train).expect(&rt, "memory");
    let message = ToTrain::Stop {
        head: head(LAST, false, UNKNOWN_GROUP),
        id: 0,
    };
    assert_sent(&rt, &sent, &[message]);
    same(&rt, (train.stamp, train.stops.held()), (LAST, 1));
    let again = settle(alloc, &track, &active, &limits, &mut train).expect(&rt, "memory");
    assert!(rt; again.is_empty());
    same(&rt, (train.stamp, train.stops.held()), (LAST, 1));
}

// R-STOP-4, R-STOP-6, R-STOP-8, R-SETTLE-1, R-SETTLE-2, R-SETTLE-9: two stamps are left for three messages: a stop is
// revoked and another one told, and no message on restrictions follows
#[test]
fn the_first_two_messages_get_the_last_two_stamps(rt: HostRuntime) {
    let alloc = rt.alloc();
    let track = good_track(&rt);
    let ahead = area(&track, 20_000, 21_000).expect(&rt, "a good area");
    let slow = limit(&track, 11_000, 12_000, Dirs::Up).expect(&rt, "a good restriction");
    let mut active = stops(alloc, ahead, 2).expect(&rt, "memory");
    assert!(rt; active.remove(1));
    let mut limits = Limits::new(alloc);
    assert!(rt; limits.last() < 2);
    limits.add(2, slow).expect(&rt, "memory");
    let mut train = TrainRec::new(alloc, 7, 2_000, 4_294_967_292);
    train.place = place_of(&track, &UP, 2_000);
    let stopped = issue(&mut train.stops, 1, 90, Kind::Conditional);
    let restricted = issue(&mut train.limits, 1, 91, Kind::Restriction);
    same(&rt, (stopped, restricted), (Some(Ok(0)), Some(Ok(0))));
    let sent = settle(alloc, &track, &active, &limits, &mut train).expect(&rt, "memory");
    let revoked = ToTrain::Revoke {
        head: head(4_294_967_293, true, 5),
        id: 0,
    };
    let told = stop_at(head(LAST, false, 5), 1, 0, 1, 10_000);
    assert_sent(&rt, &sent, &[revoked, told]);
    same(&rt, (train.stamp, train.limits.held()), (LAST, 1));
    same(
        &rt,
        train.stops.slot(0),
        Some(Slot::Revoking {
            stamp: 4_294_967_293,
        }),
    );
}

/// Restrictions ahead of the train, this many.
fn ahead(rt: &impl Abort, alloc: Global, track: &Track, count: u32) -> Limits {
    let slow = limit(track, 20_000, 21_000, Dirs::Up).expect(rt, "a good restriction");
    let mut limits = Limits::new(alloc);
    for number in 1..=count {
        assert!(rt; limits.last() < number);
        limits.add(number, slow).expect(rt, "memory");
    }
    limits
}

/// Settles a train that only restrictions concern, and asserts how many bytes its messages have. Returns its last
/// stamp, and how many restrictions it is told.
fn settle_limits(
    rt: &impl Abort,
    alloc: Global,
    track: &Track,
    limits: &Limits,
    train: &mut TrainRec,
    wanted: &[usize],
) -> (u32, usize) {
    let stops = Stops::new(alloc);
    let sent = settle(alloc, track, &stops, limits, train).expect(rt, "memory");
    same(rt, sent.len(), wanted.len());
    for (one, used) in sent.iter().zip(wanted) {
        same(rt, written(&one.message).1, *used);
    }
    (train.stamp, train.limits.held())
}

// R-SETTLE-4, R-SETTLE-6, R-SETTLE-9: where stamps are left for all, and where one is left: its message tells a
// hundred, and nothing is told after it
#[test]
fn tells_a_hundred_restrictions_a_message(rt: HostRuntime) {
    let alloc = rt.alloc();
    let track = good_track(&rt);
    let limits = ahead(&rt, alloc, &track, 255);
    let rows = [
        (1_000, [897, 897, 498].as_slice(), (1_003, 255)),
        (LAST - 1, [897].as_slice(), (LAST, 100)),
    ];
    for (stamp, lengths, wanted) in rows {
        let mut train = TrainRec::new(alloc, 7, 2_000, stamp);
        train.place = place_of(&track, &UP, 2_000);
        let told = settle_limits(&rt, alloc, &track, &limits, &mut train, lengths);
        same(&rt, told, wanted);
        let again = settle_limits(&rt, alloc, &track, &limits, &mut train, &[]);
        same(&rt, again, wanted);
    }
}
