//! The part of a line that a panel shows.

ghost use Rattle.std.specs.Prelude.{◌≡◌, ◌-◌, ◌<◌, ◌≤◌, IfSome, pos};
ghost use Rattle.rbc_picture.specs.Window.{Shows, x_at, max_length, left_end, right_end};

use std::alloc::{AllocError, Global};

/// The greatest length of a line, in units of 10 cm.
const MAX_LENGTH: u32 = 3_000_000;

/// The least margin on both sides of the places that a window has to show, in units of 10 cm.
const LEAST_MARGIN: u32 = 2_500;

/// The ends of a window are multiples of this, in units of 10 cm, or the end of the line.
const GRAIN: u32 = 1_000;

/// The distances that two marks of an axis can have, in units of 10 cm.
const STEPS: [u32; 18] = [
    1, 2, 5, 10, 20, 50, 100, 200, 500, 1_000, 2_000, 5_000, 10_000, 20_000, 50_000, 100_000,
    200_000, 500_000,
];

/// The most marks of an axis.
const MOST_MARKS: u32 = 13;

/// The lowest and the highest place that a window has to show, in units of 10 cm, if there is one.
#[derive(Clone, Copy)]
pub(crate) struct Reach {
    ends: Option<(u32, u32)>,
}

impl Reach {
    /// No place has to be shown.
    pub(crate) const NONE: Reach = Reach { ends: None };

    /// One more place has to be shown.
    pub(crate) fn with(self, place: u32) -> Reach {
        let ends = match self.ends {
            Some((least, greatest)) => (least.min(place), greatest.max(place)),
            None => (place, place),
        };
        Reach { ends: Some(ends) }
    }

    /// The places of another reach have to be shown too.
    pub(crate) fn and(self, other: Reach) -> Reach {
        match other.ends {
            Some((least, greatest)) => self.with(least).with(greatest),
            None => self,
        }
    }
}

/// The part of a line that a panel shows, from one place to another, in units of 10 cm.
#[derive(Clone, Copy)]
pub(crate) struct Window {
    /// Its lower end.
    pub low: u32,
    /// Its upper end.
    pub high: u32,
    ghost ends: { (low < high) × (high ≤ max_length) },
}

impl Window {
    /// The whole line, by its length in units of 10 cm, 1 to 3,000,000. Any other length counts as the nearest of
    /// these.
    pub(crate) fn whole(length: u32) -> Window
        ensures from_start { result.low ≡ 0 }
        ensures to_end { length ≤ max_length → length ≤ result.high }
    {
        Window {
            low: 0,
            high: length.clamp(1, MAX_LENGTH),
        }
    }

    /// The part of a line that has all places of a reach, with a margin of a twelfth of their distance, at least 250 m,
    /// and outwards to whole 100 m. It is the whole line if no place has to be shown, or if the part would be three
    /// fifths of the line or more.
    pub(crate) fn of(length: u32, reach: Reach) -> Window
        ensures { IfSome reach.ends (λ ends. Shows length ends result.low result.high) }
    {
        let whole = Window::whole(length);
        let Some((least, greatest)) = reach.ends else {
            return whole;
        };
        let margin = LEAST_MARGIN.max(greatest.saturating_sub(least) / 12);
        let low = least.saturating_sub(margin) / GRAIN * GRAIN;
        let high = up_to_grain(greatest.saturating_add(margin)).min(whole.high);
        if low < high && u64::from(high - low) * 5 < u64::from(whole.high) * 3 {
            return Window { low, high };
        }
        whole
    }

    /// The part of a line from one place to a greater one. Any other ends count as those of the whole line.
    pub(crate) fn between(length: u32, from: u32, to: u32) -> Window
        ensures { from < to → to ≤ max_length → (result.low ≡ from) × (result.high ≡ to) }
    {
        if from < to && to <= MAX_LENGTH {
            return Window {
                low: from,
                high: to,
            };
        }
        Window::whole(length)
    }

    /// Whether it shows the whole of a line with this length.
    pub(crate) fn is_whole(self, length: u32) -> bool {
        self.low == 0 && self.high == length
    }

    /// Whether a place lies in it.
    pub(crate) fn has(self, place: u32) -> bool {
        self.low <= place && place <= self.high
    }

    /// The place on the picture of a place in the window, in tenths of a pixel.
    fn tenths(self, place: u32) -> u32
        ensures value { result ≡ x_at self.low self.high place }
        ensures from_left { left_end ≤ result }
        ensures to_right { result ≤ right_end }
    {
        let ahead = u64::from(place.min(self.high).saturating_sub(self.low));
        let shown = u64::from(self.high - self.low);
        (400 + ahead * 11_200 / shown) as u32
    }

    /// The place on the picture of a place on the line, in tenths of a pixel: 400 at the lower end of the window, 11600
    /// at its upper end, and rising between them. A place outside the window counts as the end next to it.
    pub(crate) fn x(self, place: u32) -> i64
        ensures { result ≡ pos (x_at self.low self.high place) }
    {
        i64::from(self.tenths(place))
    }

    /// How long it is, in units of 10 cm.
    pub(crate) fn length(self) -> u32
        ensures { (0 < result) × (result ≡ self.high - self.low) }
    {
        self.high - self.low
    }

    /// The distance between two marks of the axis, in units of 10 cm: the least of 1, 2, 5, 10, 20 .. of which at most
    /// 12 fit into the window.
    pub(crate) fn step(self) -> u32
        ensures { 0 < result }
    {
        let shown = u64::from(self.high - self.low);
        for step in STEPS {
            if 0 < step && shown < u64::from(step) * u64::from(MOST_MARKS) {
                return step;
            }
        }
        MAX_LENGTH
    }

    /// The marks of the axis, in units of 10 cm: each multiple of the step.
    pub(crate) fn marks(self, alloc: Global) -> Result<Vec<u32>, AllocError> {
        let step = self.step();
        let first = self.low.div_ceil(step).saturating_mul(step);
        let mut marks = Vec::new(alloc);
        for nth in 0..MOST_MARKS {
            let mark = first.saturating_add(step.saturating_mul(nth));
            if mark <= self.high {
                marks.push(mark)?;
            }
        }
        Ok(marks)
    }
}

/// The next multiple of the grain, or the place itself if it is one.
fn up_to_grain(place: u32) -> u32
    ensures { place ≤ result }
{
    place.div_ceil(GRAIN).saturating_mul(GRAIN)
}
