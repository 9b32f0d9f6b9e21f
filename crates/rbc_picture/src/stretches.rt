//! The stretches of a line on which stops and restrictions are active.

ghost use Rattle.std.specs.Prelude.{◌≡◌, ◌++◌, OnOk, IfOk, filter};
ghost use Rattle.rbc_picture.specs.Selections.{meets_stretch};
ghost use Rattle.rbc_picture.specs.Stretches.{stretches_in, stop_stretches, limit_stretches, limit_stretch};

use crate::selection::LinePart;
use rbc_zones::{Area, Dirs, Limit, Segment};
use std::alloc::{AllocError, Global};
use std::fmt;

/// What is active on a stretch.
#[derive(Clone, Copy)]
pub(crate) enum Active {
    /// A stop.
    Stop,
    /// A restriction to a speed in km/h, for trains that face this way.
    Restriction { speed: u32, dirs: Dirs },
}

/// A stretch of a line on which a stop or a restriction is active, from one place to another, in units of 10 cm.
#[derive(Clone, Copy)]
pub(crate) struct Stretch {
    /// The number of the stop or of the restriction.
    pub number: u32,
    pub from: u32,
    pub to: u32,
    /// What is active there.
    pub active: Active,
}

impl fmt::Display for Stretch {
    ghost use Rattle.std.specs.Prelude.{Some};
    ghost use Rattle.rbc_picture.specs.Titles.{stretch_words};

    ghost output = { λ stretch. Some (stretch_words stretch) };

    fn fmt<W: fmt::Write>(&self, f: &mut fmt::Formatter<W>) -> fmt::Result {
        let number = self.number;
        match self.active {
            Active::Stop => write!(f, "stop {number}"),
            Active::Restriction { speed, dirs } => {
                let way = match dirs {
                    Dirs::Up => "up",
                    Dirs::Down => "down",
                    Dirs::Both => "both ways",
                };
                write!(f, "restriction {number}: {speed} km/h, {way}")
            }
        }
    }
}

/// The stretches of a line that stops close, by number and then in the order of the stop.
pub(crate) fn stop_stretches(
    alloc: Global,
    stops: &[(u32, Area)],
    line: usize,
) -> Result<Vec<Stretch>, AllocError>
    ensures { IfOk result (λ list. list.items ≡ stop_stretches line stops.now) }
{
    let mut stretches = Vec::new(alloc);
    for (number, area) in stops {
        push_stretches(&mut stretches, *number, area.segments(), line)?;
    }
    Ok(stretches)
}

/// Adds the stretches of a line among the segments of a stop.
fn push_stretches(
    stretches: &mut Vec<Stretch>,
    number: u32,
    segments: &[Segment],
    line: usize,
) -> Result<(), AllocError>
    ensures { OnOk result (stretches.new.items
        ≡ stretches.old.items ++ stretches_in line number segments.now) }
{
    for segment in segments {
        if segment.line as usize == line {
            stretches.push(Stretch {
                number,
                from: segment.from,
                to: segment.to,
                active: Active::Stop,
            })?;
        }
    }
    Ok(())
}

/// The stretches of a line on which restrictions apply, by number.
pub(crate) fn limit_stretches(
    alloc: Global,
    limits: &[(u32, Limit)],
    line: usize,
) -> Result<Vec<Stretch>, AllocError>
    ensures { IfOk result (λ list. list.items ≡ limit_stretches line limits.now) }
{
    let mut stretches = Vec::new(alloc);
    for (number, limit) in limits {
        if limit.segment().line as usize == line {
            stretches.push(limit_stretch(*number, limit))?;
        }
    }
    Ok(stretches)
}

/// The stretches that meet a part, in their order.
pub(crate) fn meeting(
    alloc: Global,
    part: &LinePart,
    stretches: &[Stretch],
) -> Result<Vec<Stretch>, AllocError>
    ensures { IfOk result (λ list. list.items ≡ filter (meets_stretch part.now) stretches.now) }
{
    stretches
        .iter()
        .copied()
        .filter(|stretch| part.meets(stretch.from, stretch.to))
        .collect(alloc)
}

/// The stretch of a restriction.
fn limit_stretch(number: u32, limit: &Limit) -> Stretch
    ensures { result ≡ limit_stretch number limit.now }
{
    let segment = limit.segment();
    Stretch {
        number,
        from: segment.from,
        to: segment.to,
        active: Active::Restriction {
            speed: limit.speed(),
            dirs: limit.dirs(),
        },
    }
}
