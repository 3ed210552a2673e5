// The side of the truth that a figure stands on.
ghost use Rattle.std.specs.Prelude.{◌≡◌, ◌+◌, ◌*◌, ◌^◌, ◌<◌, ◌≤◌};
ghost use Rattle.curve.specs.Range.{least, most, unit};
ghost use Rattle.curve.specs.Steps.{side_of, opposite, quotient, step};
ghost use Rattle.curve.specs.Market.{inner};

use crate::step::UNIT;

#[derive(Clone, Copy, PartialEq, Eq, Debug)]
pub enum Side {
    Low,
    High,
}

impl Side {
    // The other side.
    pub(crate) fn opposite(self) -> Side
        ensures { result ≡ opposite self }
    {
        match self {
            Side::Low => Side::High,
            Side::High => Side::Low,
        }
    }

    // What is worked out alike on each side, low and high.
    pub(crate) fn both<T, F: Fn(Side) -> T>(figure: F) -> (T, T)
        requires { (side : Side) → F.pre figure side }
        ensures low { F.post figure Side.Low result.0 }
        ensures high { F.post figure Side.High result.1 }
    {
        (figure(Side::Low), figure(Side::High))
    }

    // The figure of this side.
    pub(crate) fn of(self, pair: (u64, u64)) -> u64
        ensures { result ≡ side_of self pair }
    {
        match self {
            Side::Low => pair.0,
            Side::High => pair.1,
        }
    }

    // a / n, rounded down on the low side and up on the high side.
    #[tactic(auto, unfolding(crate::specs::Steps::quotient))]
    pub(crate) fn divide(self, a: u64, n: u64) -> u64
        requires nonzero { 1 ≤ n }
        requires fits { a + n ≤ 2 ^ 64 }
        ensures { result ≡ quotient self a n }
    {
        match self {
            Side::Low => a / n,
            Side::High => (a + (n - 1)) / n,
        }
    }

    // One year's discounting of a factor by a growth.
    #[tactic(auto, using(crate::proofs::Outward::step_sinks), unfolding(crate::specs::Steps::step))]
    pub(crate) fn discount(self, factor: u64, growth: u64) -> u64
        requires factor_le_unit { factor ≤ unit }
        requires least_le_growth { least ≤ growth }
        requires growth_le_most { growth ≤ most }
        ensures value { result ≡ step self factor growth }
        ensures upper_bound { result ≤ unit }
    {
        self.divide(factor * UNIT, growth)
    }

    // The inner one of two figures.
    pub(crate) fn inner(self, a: u64, b: u64) -> u64
        ensures { result ≡ inner self a b }
    {
        match self {
            Side::Low => a.max(b),
            Side::High => a.min(b),
        }
    }
}
