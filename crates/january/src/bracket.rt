// Two figures, low before high, between which the exact one lies.
ghost use Rattle.std.specs.Prelude.{◌≡◌, ◌-ℤ◌, unsigned_abs};

use crate::figure::Units;
use std::fmt;

#[derive(Clone, Copy)]
pub struct Bracket<T> {
    low: T,
    high: T,
}

impl<T: From<i64>> From<(i64, i64)> for Bracket<T> {
    ghost from_gives = { λ pair bracket. T.from_gives pair.0 bracket.low × T.from_gives pair.1 bracket.high };

    fn from(pair: (i64, i64)) -> Bracket<T> {
        let (low, high) = pair;
        Bracket {
            low: T::from(low),
            high: T::from(high),
        }
    }
}

impl Bracket<Units> {
    // How many units the two figures are apart.
    pub fn apart(&self) -> u64
        ensures { result ≡ unsigned_abs (self.now.low.0 -ℤ self.now.high.0) }
    {
        self.low.0.abs_diff(self.high.0)
    }
}

// Each of the two on the width that is given.
impl<T: fmt::Display> fmt::Display for Bracket<T> {
    fn fmt<W: fmt::Write>(&self, f: &mut fmt::Formatter<W>) -> fmt::Result {
        self.low.fmt(f)?;
        f.write_str("  ")?;
        self.high.fmt(f)
    }
}
