// Growths blended with the ultimate forward rate.
ghost use Rattle.std.specs.Prelude.{◌≡◌, ◌≤◌};
ghost use Rattle.curve.specs.Blending.{blended_growth};
ghost use Rattle.curve.specs.Range.{most};

use crate::side::Side;

// The growth of the ultimate forward rate, 4.2 per cent.
pub(crate) const ULTIMATE: u64 = 1_042_000_000;

// The share that the ultimate forward rate has in a growth: a part of a whole.
#[derive(Clone, Copy)]
pub(crate) struct Share {
    pub(crate) part: u8,
    pub(crate) whole: u8,
    ghost some: { 1 ≤ whole },
    ghost within: { part ≤ whole },
}

impl Share {
    // A growth weighed with the ultimate one.
    pub(crate) fn weighed(self, side: Side, growth: u64) -> u64
        requires { growth ≤ most }
        ensures { result ≡ blended_growth side (self.part, self.whole) growth }
    {
        let part = u64::from(self.part);
        let whole = u64::from(self.whole);
        side.divide((whole - part) * growth + part * ULTIMATE, whole)
    }
}
