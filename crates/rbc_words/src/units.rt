//! Places, lengths and counts as people read them (own rule).

use std::fmt;

/// A place or a length in units of 10 cm, shown in kilometres with three decimals, and with a fourth if it is not 0:
/// 152000 is `15.200`, and 79675 is `7.9675`.
#[derive(Clone, Copy)]
pub struct Km(pub u32);

impl fmt::Display for Km {
    ghost use Rattle.std.specs.Prelude.{Some};
    ghost use Rattle.rbc_words.specs.Units.{km_text};

    ghost output = { λ km. Some (km_text km.0) };

    fn fmt<W: fmt::Write>(&self, f: &mut fmt::Formatter<W>) -> fmt::Result {
        let units = self.0;
        let whole = units / 10_000;
        let (tenth, hundredth, thousandth) = (
            units / 1_000 % 10,
            units / 100 % 10,
            units / 10 % 10,
        );
        let last = units % 10;
        if last == 0 {
            return write!(f, "{whole}.{tenth}{hundredth}{thousandth}");
        }
        write!(f, "{whole}.{tenth}{hundredth}{thousandth}{last}")
    }
}

/// A length in units of 10 cm, shown in metres, with a tenth if it is not 0: 2000 is `200`, and 5 is `0.5`.
#[derive(Clone, Copy)]
pub struct Metres(pub u32);

impl fmt::Display for Metres {
    ghost use Rattle.std.specs.Prelude.{Some};
    ghost use Rattle.rbc_words.specs.Units.{metres_text};

    ghost output = { λ metres. Some (metres_text metres.0) };

    fn fmt<W: fmt::Write>(&self, f: &mut fmt::Formatter<W>) -> fmt::Result {
        let units = self.0;
        let (whole, tenth) = (units / 10, units % 10);
        if tenth == 0 {
            return write!(f, "{whole}");
        }
        write!(f, "{whole}.{tenth}")
    }
}

/// A number of things: `1 line`, `2 lines`. The plural of the noun ends in s.
#[derive(Clone, Copy)]
pub struct Count<'a> {
    /// How many there are.
    pub number: usize,
    /// The noun in the singular.
    pub noun: &'a str,
}

impl fmt::Display for Count<'_> {
    ghost use Rattle.std.specs.Prelude.{Some};
    ghost use Rattle.rbc_words.specs.Units.{count_text};

    ghost output = { λ count. Some (count_text count.number count.noun.now) };

    fn fmt<W: fmt::Write>(&self, f: &mut fmt::Formatter<W>) -> fmt::Result {
        let (number, noun) = (self.number, self.noun);
        let plural = if number == 1 { "" } else { "s" };
        write!(f, "{number} {noun}{plural}")
    }
}
