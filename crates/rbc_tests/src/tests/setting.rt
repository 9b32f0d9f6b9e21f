//! A track with a train on it, what happens there, and what trains are told then.

ghost use Rattle.std.specs.Prelude.{◌≡◌, ◌≤◌, ◌↔◌, IsTrue};
ghost use Rattle.std.specs.List.{All};
ghost use Rattle.rbc_track.specs.Plan.{IsPlan};
ghost use Rattle.rbc_rule.specs.Inputs.{Fits};

use super::same;
use ertms_codec::{Head, Position, ToTrain, write_to_train};
use rbc_desk::{Desk, Mail};
use rbc_rule::{Input, Segments};
use rbc_track::{Track, track_from_toml};
use rbc_zones::Segment;
use std::alloc::{AllocError, Global};
use std::process::Abort;

/// Line 0 is 30 km long and has balise group 5 at 1 km, whose nominal direction is up, and 6 at 20 km, whose
/// nominal direction is down. Line 1 is 300 km long and has balise group 7 at its lower end, up.
pub(crate) const TRACK: &str = "horizon = 100000
[[line]]
length = 300000
[[line]]
length = 3000000
[[group]]
nid = 5
line = 0
at = 10000
nominal = \"up\"
[[group]]
nid = 6
line = 0
at = 200000
nominal = \"down\"
[[group]]
nid = 7
line = 1
at = 0
nominal = \"up\"
";

/// A train 200 m beyond balise group 5, facing up: one of 200 m stands on line 0, from 9,900 to 12,100.
pub(crate) const UP: Position = Position {
    previous: None,
    scale: 0,
    lrbg: 5,
    distance: 2_000,
    dir: 1,
    side: 1,
    over: 100,
    under: 100,
};

/// The track of that text.
pub(crate) fn good_track<R: Abort + AllocGlobal>(rt: &R) -> Track
    ensures { IsPlan result }
{
    let track = track_from_toml(rt.alloc(), TRACK).expect(rt, "a good track");
    let _ = track.horizon();
    track
}

/// NID_LRBG of a train without a place.
pub(crate) const UNKNOWN_GROUP: u32 = 16_777_215;

/// What a message to a train begins with.
pub(crate) fn head(stamp: u32, ack: bool, lrbg: u32) -> Head
    ensures stamp { result.stamp ≡ stamp }
    ensures ack { result.ack ≡ ack }
    ensures lrbg { result.lrbg ≡ lrbg }
{
    Head { stamp, ack, lrbg }
}

/// The bytes of a message, with zeros after them, and their number: 0 if a variable is out of its range.
pub(crate) fn written(message: &ToTrain) -> ([u8; 1024], usize)
    ensures { result.1 ≤ 897 }
{
    let mut buffer = [0; 1024];
    let mut used = 0;
    if message.fits() {
        used = write_to_train(message, &mut buffer);
    }
    (buffer, used)
}

/// A train of 200 m is enrolled.
pub(crate) fn enrol(engine: u32) -> Input {
    Input::Enrol {
        engine,
        length: 2_000,
    }
}

/// A stop for the first metre of line 0. A train without a place is told to stop at once.
pub(crate) fn stop(alloc: Global, number: u32) -> Result<Input, AllocError> {
    let mut segments = Segments::new(alloc);
    segments.push(Segment {
        line: 0,
        from: 0,
        to: 10,
    })?;
    Ok(Input::Stop { number, segments })
}

/// Whether each number of the inputs is in its range.
pub(crate) fn all_fit(inputs: &[Input]) -> bool
    ensures { IsTrue result ↔ All Fits inputs.now }
{
    inputs.iter().all(|input| input.fits())
}

/// A mail with message 16: a train without a place stops at once.
pub(crate) fn stopped(input: u32, stamp: u32, id: u8) -> Mail {
    let head = head(stamp, false, UNKNOWN_GROUP);
    let message = ToTrain::Stop { head, id };
    Mail { input, message }
}

/// A mail with message 18: the stop of a train without a place is revoked.
pub(crate) fn revoked(input: u32, stamp: u32, id: u8) -> Mail {
    let head = head(stamp, true, UNKNOWN_GROUP);
    let message = ToTrain::Revoke { head, id };
    Mail { input, message }
}

/// Asserts that mails are the wanted ones.
fn assert_mails(rt: &impl Abort, mails: &[Mail], wanted: &[Mail]) {
    same(rt, mails.len(), wanted.len());
    for (got, mail) in mails.iter().zip(wanted) {
        same(rt, got.input, mail.input);
        assert!(rt; written(&got.message) == written(&mail.message));
    }
}

/// Asserts the engine and the mails of the outbox at an index.
pub(crate) fn assert_outbox(
    rt: &impl Abort,
    desk: &Desk,
    index: usize,
    engine: u32,
    mails: &[Mail],
) {
    assert!(rt; index < desk.outboxes());
    let (number, sent) = desk.outbox_at(index);
    same(rt, number, engine);
    assert_mails(rt, sent, mails);
    assert_mails(rt, desk.outbox(engine), mails);
}
