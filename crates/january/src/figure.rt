// Figures as text, each on the width that it is given.
ghost use Rattle.std.specs.Prelude.{◌≡◌};

use std::fmt;
use std::fmt::InlineText;

// The most characters that a figure takes.
const ROOM: usize = 40;

// A forward, a factor or a rate in units of 10^-9, as a decimal.
#[derive(Clone, Copy)]
pub struct Units(pub i64);

// Parts per million, as per cent.
#[derive(Clone, Copy)]
pub struct Ppm(pub u32);

// Whole kronor, in groups of three digits.
#[derive(Clone, Copy)]
pub struct Kronor(pub i64);

// Öre, as kronor in groups of three digits and a fraction of two digits.
#[derive(Clone, Copy)]
pub struct Ore(pub i64);

// A number without sign, in groups of three digits.
#[derive(Clone, Copy)]
struct Grouped(u64);

// Units and öre are two measures, so each has its own type, conversion and text.
impl From<i64> for Units {
    ghost from_gives = { λ number units. units.0 ≡ number };

    fn from(number: i64) -> Units {
        Units(number)
    }
}

impl From<i64> for Ore {
    ghost from_gives = { λ number ore. ore.0 ≡ number };

    fn from(number: i64) -> Ore {
        Ore(number)
    }
}

// Writes a figure on the width that is given: its size, after a sign where it is below 0.
fn write_signed<W: fmt::Write, D: fmt::Display + Drop>(
    f: &mut fmt::Formatter<W>,
    number: i64,
    size: D,
) -> fmt::Result {
    let size = InlineText::<ROOM>::of(size);
    f.pad_integral(number >= 0, "", size.as_str())
}

impl fmt::Display for Units {
    fn fmt<W: fmt::Write>(&self, f: &mut fmt::Formatter<W>) -> fmt::Result {
        let size = self.0.unsigned_abs();
        let whole = size / 1_000_000_000;
        let part = size % 1_000_000_000;
        write_signed(f, self.0, format_args!("{whole}.{part:09}"))
    }
}

impl fmt::Display for Ppm {
    fn fmt<W: fmt::Write>(&self, f: &mut fmt::Formatter<W>) -> fmt::Result {
        let whole = self.0 / 10_000;
        let part = self.0 % 10_000;
        write_signed(f, i64::from(self.0), format_args!("{whole}.{part:04} %"))
    }
}

impl fmt::Display for Grouped {
    fn fmt<W: fmt::Write>(&self, f: &mut fmt::Formatter<W>) -> fmt::Result {
        let text = InlineText::<ROOM>::of(self.0);
        let digits = text.as_str();
        for (at, digit) in digits.chars().enumerate() {
            if at > 0 && digits.len().saturating_sub(at) % 3 == 0 {
                f.write_char(' ')?;
            }
            f.write_char(digit)?;
        }
        Ok(())
    }
}

impl fmt::Display for Kronor {
    fn fmt<W: fmt::Write>(&self, f: &mut fmt::Formatter<W>) -> fmt::Result {
        write_signed(f, self.0, Grouped(self.0.unsigned_abs()))
    }
}

impl fmt::Display for Ore {
    fn fmt<W: fmt::Write>(&self, f: &mut fmt::Formatter<W>) -> fmt::Result {
        let size = self.0.unsigned_abs();
        let kronor = Grouped(size / 100);
        let part = size % 100;
        write_signed(f, self.0, format_args!("{kronor}.{part:02}"))
    }
}
