//! Active stops and restrictions as C has them.

ghost use Rattle.std.specs.Prelude.{◌≡◌, IfOk, map};
ghost use Rattle.std.specs.List.{flat_map};
ghost use Rattle.rbc_live.specs.Known.{active_stops};
ghost use Rattle.rbc_c.specs.Active.{AreStops, code_of_dirs, code_of_front, restriction_of, stop_of};

use crate::given::Entry;
use rbc_live::{LiveDesk, active_limits, active_stops};
use rbc_zones::{Area, Dirs, Limit, Segment};
use std::alloc::{AllocError, Global};

/// One segment of an active stop. Places are in units of 10 cm.
#[repr(C)]
#[derive(Clone, Copy, Drop)]
pub struct Stop {
    /// The number of the stop.
    pub number: u32,
    /// The line of the segment.
    pub line: u32,
    /// Its lower end.
    pub from: u32,
    /// Its upper end.
    pub to: u32,
}

/// An active restriction. Places are in units of 10 cm.
#[repr(C)]
#[derive(Clone, Copy, Drop)]
pub struct Restriction {
    pub number: u32,
    /// The line on which it applies.
    pub line: u32,
    /// The lower end of its segment.
    pub from: u32,
    /// The upper end.
    pub to: u32,
    /// The trains to which it applies, by how they face: 0 down, 1 up, 2 both.
    pub ways: u32,
    /// The speed in km/h.
    pub speed: u32,
    /// Q_FRONT: 1 if there is no train length delay at its end.
    pub front: u32,
}

/// One segment of a stop, as C has it.
fn stop_of(number: u32, segment: Segment) -> Stop
    ensures { result ≡ stop_of number segment }
{
    Stop {
        number,
        line: segment.line,
        from: segment.from,
        to: segment.to,
    }
}

/// The segments of a stop.
fn segments_of(alloc: Global, number: u32, area: &Area) -> Result<Vec<Stop>, AllocError>
    ensures { IfOk result (λ all. all.items ≡ map (stop_of number) area.now) }
{
    area.segments()
        .iter()
        .map(|segment| stop_of(number, *segment))
        .collect(alloc)
}

/// The segments of all active stops.
fn stops_of(alloc: Global, desk: &LiveDesk) -> Result<Vec<Stop>, AllocError>
    ensures { IfOk result (λ all. AreStops desk.now all.items) }
{
    let mut all = Vec::new(alloc);
    for stop in active_stops(&desk.records) {
        all.append(&mut segments_of(alloc, stop.0, &stop.1)?)?;
    }
    Ok(all)
}

impl Entry for Stop {
    ghost use Rattle.rbc_c.specs.Active.{AreStops};

    ghost is_of = { AreStops };

    fn list(desk: &LiveDesk, alloc: Global) -> Result<Vec<Stop>, AllocError> {
        stops_of(alloc, desk)
    }
}

/// The code of the ways in which a restriction applies.
fn code_of_dirs(dirs: Dirs) -> u32
    ensures { result ≡ code_of_dirs dirs }
{
    match dirs {
        Dirs::Down => 0,
        Dirs::Up => 1,
        Dirs::Both => 2,
    }
}

/// The code of Q_FRONT.
fn code_of_front(front: bool) -> u32
    ensures { result ≡ code_of_front front }
{
    if front { 1 } else { 0 }
}

/// A restriction with its number, as C has it.
fn restriction_of(number: u32, limit: &Limit) -> Restriction
    ensures { result ≡ restriction_of (number, limit.now) }
{
    let segment = limit.segment();
    Restriction {
        number,
        line: segment.line,
        from: segment.from,
        to: segment.to,
        ways: code_of_dirs(limit.dirs()),
        speed: limit.speed(),
        front: code_of_front(limit.front()),
    }
}

impl Entry for Restriction {
    ghost use Rattle.rbc_c.specs.Active.{AreRestrictions};

    ghost is_of = { AreRestrictions };

    fn list(desk: &LiveDesk, alloc: Global) -> Result<Vec<Restriction>, AllocError> {
        active_limits(&desk.records)
            .iter()
            .map(|limit| restriction_of(limit.0, &limit.1))
            .collect(alloc)
    }
}
