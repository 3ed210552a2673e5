// Zero rates of a curve.
ghost use Rattle.std.specs.Prelude.{◌≡◌, ℕ, IfOk};
ghost use Rattle.curve.specs.Exact.{Fraction, Possible, Encloses, Rising, RateBetween};
ghost use Rattle.curve.specs.Rates.{compounded, asked_rate};

use crate::discount::Curve;
use crate::questions::forward_of;
use crate::search::{Falling, furthest};
use crate::side::Side;
use crate::step::{LEAST, MOST, UNIT};
use crate::tables::wide;
use instruments::refusal::Refusal;

// The factor after a number of years of one growth.
#[derive(Clone, Copy)]
pub(crate) struct Compound {
    pub(crate) years: u8,
}

impl Falling for Compound {
    ghost value = { λ compound. compounded compound.years };

    const MENDINGS: u8 = 4;

    // less would move a guess by less than a unit
    const NEARBY: u64 = 65_536;

    #[tactic(auto, using(crate::proofs::Continuation::continued_known, crate::proofs::Continuation::continued_next))]
    fn at(&self, side: Side, growth: u64) -> u64 {
        let mut factor = UNIT;
        for _year in 0..self.years {
            factor = side.discount(factor, growth);
        }
        factor
    }

    // It moves by twice the difference of two factors over the years times their sum; on the high side the one aimed at is just below
    // the limit.
    fn mended(&self, side: Side, limit: u64, growth: u64) -> u64 {
        let growth = growth.clamp(LEAST, MOST);
        let aim = match side {
            Side::Low => limit,
            Side::High => limit.wrapping_sub(1),
        };
        let reached = self.at(side, growth);
        let off = reached.abs_diff(aim);
        let scale = reached
            .wrapping_add(aim)
            .wrapping_mul(u64::from(self.years))
            .max(1);
        let shift = growth.wrapping_mul(2).wrapping_mul(off) / scale;
        if reached < aim {
            growth.wrapping_sub(shift)
        } else {
            growth.wrapping_add(shift)
        }
    }
}

impl Curve {
    // The mean of the low growths of the years up to a year, where a search begins.
    fn mean_growth(&self, year: u8) -> u64 {
        let years = self.tables.growths.get(1..=year as usize).unwrap_or(&[]);
        let sum = years.iter().fold(0u64, |sum, growths| sum.wrapping_add(u64::from(growths.0)));
        sum / u64::from(year).max(1)
    }

    // The zero rates of a year, low and high, in units.
    #[tactic(auto, using(crate::proofs::Compounding::compounded_falls))]
    pub fn rate(&self, year: u8) -> Result<(i64, i64), Refusal>
        ensures value { result ≡ asked_rate self.now.tables year }
        ensures ordered { IfOk result Rising }
        ensures encloses { (growth : ℕ → Fraction) → Possible growth → Encloses self.now.tables growth → IfOk result (RateBetween growth year) }
    {
        self.within_horizon(1, year)?;
        let factors = wide(self.tables.factors[year as usize]);
        let growths = furthest(
            &Compound { years: year },
            (factors.1, factors.0 + 1),
            self.mean_growth(year),
        );
        Ok(Side::both(|side| forward_of(side.of(growths))))
    }
}
