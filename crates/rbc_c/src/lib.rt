//! A live desk for callers in C: the one crate with `unsafe`. `rbc.h` is the header.
//!
//! Who owns the memory of a desk is proved by hand (`live_at` of specs/DeskMemory.antt): a `DeskPointer` has the desk
//! that it was given or none, and gives that desk back (desk_pointer.rt, raw_box.rt). Dropping a pointer frees nothing.
//!
//! A function that cannot report a lack of memory takes none. `AllocError` means that memory was refused; what the
//! function was changing is then of no further use, unless its docstring says what is left.
#![tactic(auto)]

ghost use Rattle.std.specs.Prelude.{◌≡◌, None, IfOk, IfErr};
ghost use Rattle.rbc_c.specs.Opens.{Opens, IsNew, IsWhyNot};
ghost use Rattle.rbc_c.specs.Feeds.{Feeds};
ghost use Rattle.rbc_c.specs.Given.{Gives};
ghost use Rattle.rbc_c.specs.Alarms.{AreAlarms};
ghost use Rattle.rbc_c.specs.Trains.{AreTrains};
ghost use Rattle.rbc_c.specs.Active.{AreStops, AreRestrictions};
ghost use Rattle.rbc_c.specs.Outstanding.{AreOutstanding};
ghost use Rattle.rbc_c.specs.Checks.{Checks};
ghost use Rattle.rbc_c.specs.Reasons.{IsReason};
ghost use Rattle.rbc_c.specs.Closes.{Closes};
ghost use Rattle.rbc_c.specs.Versions.{this_version, rules_number, Versioned};

mod active;
mod alarms;
mod desk_pointer;
mod faults;
mod feed;
mod given;
mod handle;
mod message;
mod outstanding;
mod raw_box;
mod reason;
mod track_check;
mod trains;

use active::{Restriction, Stop};
use alarms::Alarm;
use faults::{DONE, MEMORY, NOT_NOW, NOT_UTF8, OTHER_VERSION, code_of};
use feed::{Answer, feed_desk};
use given::list_of_handle;
use handle::Handle;
use message::Message;
use outstanding::Outstanding;
use rbc_live::LiveDesk;
use reason::explain_to;
use std::alloc::Global;
use std::str;
use track_check::{Report, check_text};
use trains::Train;

/// The number of the rules by which a desk decides, as `dispatch --version` tells it.
const RULES: u32 = 3;

/// The number of the rules by which a desk decides. A log that was written under other rules may be answered
/// differently.
#[unsafe(no_mangle)]
pub extern "C" fn rbc_rules() -> u32
    ensures { result ≡ rules_number }
{
    RULES
}

/// Makes a desk on the heap, on the track of a text; or answers the code that says why not.
fn desk_on(alloc: Global, track: &[u8]) -> Result<Box<LiveDesk>, u32>
    ensures new { IfOk result (λ desk. IsNew track.now desk.value) }
    ensures why_not { IfErr result (λ code. IsWhyNot track.now code) }
{
    let Ok(text) = str::from_utf8(track) else {
        return Err(NOT_UTF8);
    };
    match LiveDesk::open(alloc, text) {
        Ok(desk) => match Box::new(alloc, desk) {
            Ok(desk) => Ok(desk),
            Err(_) => Err(MEMORY),
        },
        Err(fault) => Err(code_of(fault)),
    }
}

/// Opens a desk on the track that a text in TOML writes. Answers 0, and the handle has the desk; or the code of a
/// fault, and the handle is unchanged. The call is refused if the handle already has a desk, or if the caller was
/// compiled with another rbc.h.
#[unsafe(no_mangle)]
pub extern "C" fn rbc_open(handle: &mut Handle, alloc: Global, track: &[u8]) -> u32
    ensures { Versioned handle.old.version handle.new.version result
        (Opens handle.old.memory.live track.now result handle.new.memory.live)
        (handle.new ≡ handle.old) }
{
    if !handle.is_of_this_version() {
        return OTHER_VERSION;
    }
    open_handle(handle, alloc, track)
}

/// Opens a desk, as `rbc_open` does for a caller of this version.
fn open_handle(handle: &mut Handle, alloc: Global, track: &[u8]) -> u32
    ensures opens { Opens handle.old.memory.live track.now result handle.new.memory.live }
    ensures version { handle.new.version ≡ this_version }
{
    if let Some(desk) = handle.take(alloc) {
        *handle = Handle::of(desk);
        return NOT_NOW;
    }
    match desk_on(alloc, track) {
        Ok(desk) => {
            *handle = Handle::of(desk);
            DONE
        }
        Err(code) => code,
    }
}

/// Gives one line to the desk of a handle. Answers 0: `answer` says what it led to, and its messages stand at the front
/// of `out`. At the code of a fault the desk and `out` are as they were; if `out` is too small, `answer` says how many
/// messages there are. The call is refused if the handle has no desk, or if the caller was compiled with another rbc.h.
#[unsafe(no_mangle)]
pub extern "C" fn rbc_feed(
    handle: &mut Handle,
    alloc: Global,
    line: &[u8],
    out: &mut [Message],
    answer: &mut Answer,
) -> u32
    ensures { Versioned handle.old.version handle.new.version result
        (Feeds handle.old.memory.live line.now out.old answer.old result handle.new.memory.live out.new answer.new)
        ((handle.new ≡ handle.old) × (out.new ≡ out.old) × (answer.new ≡ answer.old)) }
{
    if !handle.is_of_this_version() {
        return OTHER_VERSION;
    }
    feed_handle(handle, alloc, line, out, answer)
}

/// Gives one line, as `rbc_feed` does for a caller of this version.
fn feed_handle(
    handle: &mut Handle,
    alloc: Global,
    line: &[u8],
    out: &mut [Message],
    answer: &mut Answer,
) -> u32
    ensures feeds { Feeds handle.old.memory.live line.now out.old answer.old result handle.new.memory.live out.new
        answer.new }
    ensures version { handle.new.version ≡ this_version }
{
    let Some(mut desk) = handle.take(alloc) else {
        return NOT_NOW;
    };
    let code = feed_desk(&mut desk, alloc, line, out, answer);
    *handle = Handle::of(desk);
    code
}

/// Gives the alarms that stand on the desk of a handle, as `list_of_handle` does: engines ascending, and those of one
/// train by kind and number.
#[unsafe(no_mangle)]
pub extern "C" fn rbc_alarms(
    handle: &mut Handle,
    alloc: Global,
    out: &mut [Alarm],
    count: &mut usize,
) -> u32
    ensures { Versioned handle.old.version handle.new.version result
        (Gives AreAlarms handle.old.memory.live out.old count.old result handle.new.memory.live out.new count.new)
        ((handle.new ≡ handle.old) × (out.new ≡ out.old) × (count.new ≡ count.old)) }
{
    list_of_handle(handle, alloc, out, count)
}

/// Gives the trains of the desk of a handle, as `list_of_handle` does: engines ascending.
#[unsafe(no_mangle)]
pub extern "C" fn rbc_trains(
    handle: &mut Handle,
    alloc: Global,
    out: &mut [Train],
    count: &mut usize,
) -> u32
    ensures { Versioned handle.old.version handle.new.version result
        (Gives AreTrains handle.old.memory.live out.old count.old result handle.new.memory.live out.new count.new)
        ((handle.new ≡ handle.old) × (out.new ≡ out.old) × (count.new ≡ count.old)) }
{
    list_of_handle(handle, alloc, out, count)
}

/// Gives the segments of the active stops of the desk of a handle, as `list_of_handle` does: numbers ascending, and
/// those of one stop in the order in which they were given.
#[unsafe(no_mangle)]
pub extern "C" fn rbc_stops(
    handle: &mut Handle,
    alloc: Global,
    out: &mut [Stop],
    count: &mut usize,
) -> u32
    ensures { Versioned handle.old.version handle.new.version result
        (Gives AreStops handle.old.memory.live out.old count.old result handle.new.memory.live out.new count.new)
        ((handle.new ≡ handle.old) × (out.new ≡ out.old) × (count.new ≡ count.old)) }
{
    list_of_handle(handle, alloc, out, count)
}

/// Gives the active restrictions of the desk of a handle, as `list_of_handle` does: numbers ascending.
#[unsafe(no_mangle)]
pub extern "C" fn rbc_restrictions(
    handle: &mut Handle,
    alloc: Global,
    out: &mut [Restriction],
    count: &mut usize,
) -> u32
    ensures { Versioned handle.old.version handle.new.version result
        (Gives AreRestrictions handle.old.memory.live out.old count.old result handle.new.memory.live out.new count.new)
        ((handle.new ≡ handle.old) × (out.new ≡ out.old) × (count.new ≡ count.old)) }
{
    list_of_handle(handle, alloc, out, count)
}

/// Gives what waits for an answer or an acknowledgement on the desk of a handle, as `list_of_handle` does: engines
/// ascending; of one train its stop identifiers, and then its restriction identifiers, each ascending.
#[unsafe(no_mangle)]
pub extern "C" fn rbc_outstanding(
    handle: &mut Handle,
    alloc: Global,
    out: &mut [Outstanding],
    count: &mut usize,
) -> u32
    ensures { Versioned handle.old.version handle.new.version result
        (Gives AreOutstanding handle.old.memory.live out.old count.old result handle.new.memory.live out.new count.new)
        ((handle.new ≡ handle.old) × (out.new ≡ out.old) × (count.new ≡ count.old)) }
{
    list_of_handle(handle, alloc, out, count)
}

/// Explains how the desk of a handle would answer a line, in words that are given as `list_of_handle` does: the name of
/// the refusal and what it means, or nothing if the line would be accepted.
#[unsafe(no_mangle)]
pub extern "C" fn rbc_explain_line(
    handle: &mut Handle,
    alloc: Global,
    line: &[u8],
    out: &mut [u8],
    count: &mut usize,
) -> u32
    ensures { Versioned handle.old.version handle.new.version result
        (Gives (IsReason line.now) handle.old.memory.live out.old count.old result handle.new.memory.live out.new
        count.new)
        ((handle.new ≡ handle.old) × (out.new ≡ out.old) × (count.new ≡ count.old)) }
{
    if !handle.is_of_this_version() {
        return OTHER_VERSION;
    }
    explain_to_handle(handle, alloc, line, out, count)
}

/// Explains a line, as `rbc_explain_line` does for a caller of this version.
fn explain_to_handle(
    handle: &mut Handle,
    alloc: Global,
    line: &[u8],
    out: &mut [u8],
    count: &mut usize,
) -> u32
    ensures gives { Gives (IsReason line.now) handle.old.memory.live out.old count.old result handle.new.memory.live
        out.new count.new }
    ensures version { handle.new.version ≡ this_version }
{
    let Some(desk) = handle.take(alloc) else {
        return NOT_NOW;
    };
    let code = explain_to(&desk, alloc, line, out, count);
    *handle = Handle::of(desk);
    code
}

/// Checks the text of a track, as `dispatch check` does. Answers 0: `report` says what came of it, and the report
/// stands at the front of `out`, as many bytes as there is room for. At the code of a fault both are as they were.
#[unsafe(no_mangle)]
pub extern "C" fn rbc_check(alloc: Global, track: &[u8], out: &mut [u8], report: &mut Report) -> u32
    ensures { Checks track.now out.old report.old result out.new report.new }
{
    check_text(alloc, track, out, report)
}

/// Frees the desk of a handle, which has no desk afterwards. The call is refused, and the handle unchanged, if the
/// handle has no desk or the caller was compiled with another rbc.h.
#[unsafe(no_mangle)]
pub extern "C" fn rbc_close(handle: &mut Handle, alloc: Global) -> u32
    ensures { Versioned handle.old.version handle.new.version result
        (Closes handle.old.memory.live result handle.new.memory.live)
        (handle.new ≡ handle.old) }
{
    if !handle.is_of_this_version() {
        return OTHER_VERSION;
    }
    close_handle(handle, alloc)
}

/// Frees the desk, as `rbc_close` does for a caller of this version.
fn close_handle(handle: &mut Handle, alloc: Global) -> u32
    ensures closes { Closes handle.old.memory.live result handle.new.memory.live }
    ensures version { handle.new.version ≡ this_version }
{
    match handle.take(alloc) {
        Some(_) => DONE,
        None => NOT_NOW,
    }
}

fn sends<T: Send>(_: &T) {}

/// A handle may move from thread to thread.
fn handle_sends(handle: &Handle) {
    sends(handle);
}
