// What a curve answers for a year: its horizon, forwards and discount factors.
ghost use Rattle.std.specs.Prelude.{◌≡◌, ℕ, ◌^◌, ◌<◌, ◌≤◌, pos, ◌-ℤ◌, IfOk};
ghost use Rattle.curve.specs.Exact.{Fraction, Encloses, Rising, Narrow, ForwardBetween, FactorBetween};
ghost use Rattle.curve.specs.Range.{most};
ghost use Rattle.curve.specs.Questions.{forward_of, asked, asked_forward, asked_factor};

use crate::discount::Curve;
use crate::side::Side;
use crate::step::UNIT;
use crate::tables::wide;
use instruments::refusal::Refusal;

// How far one figure lies above another, signed.
pub(crate) fn above(a: u64, b: u64) -> i64
    requires a_fits { a < 2 ^ 63 }
    requires b_fits { b < 2 ^ 63 }
    ensures { result ≡ pos a -ℤ pos b }
{
    a as i64 - b as i64
}

// A growth of the range as a forward, in units.
pub(crate) fn forward_of(growth: u64) -> i64
    requires { growth ≤ most }
    ensures { result ≡ forward_of growth }
{
    above(growth, UNIT)
}

impl Curve {
    // The last year that the curve answers for.
    pub fn horizon(&self) -> u8
        ensures { result ≡ self.now.tables.last }
    {
        self.tables.last
    }

    // Refuses a year outside the years from `first` to the horizon.
    pub(crate) fn within_horizon(&self, first: u8, year: u8) -> Result<(), Refusal>
        ensures { result ≡ asked self.now.tables first year tt }
    {
        if !(first..=self.tables.last).contains(&year) {
            return Err(Refusal::OutsideHorizon(year));
        }
        Ok(())
    }

    // The forwards of a year, low and high, in units.
    pub fn forward(&self, year: u8) -> Result<(i64, i64), Refusal>
        ensures value { result ≡ asked_forward self.now.tables year }
        ensures ordered { IfOk result Narrow }
        ensures encloses { (growth : ℕ → Fraction) → Encloses self.now.tables growth → IfOk result (ForwardBetween growth year) }
    {
        self.within_horizon(1, year)?;
        let growths = wide(self.tables.growths[year as usize]);
        Ok(Side::both(|side| forward_of(side.of(growths))))
    }

    // The discount factors of a year, low and high, in units.
    pub fn factor(&self, year: u8) -> Result<(i64, i64), Refusal>
        ensures value { result ≡ asked_factor self.now.tables year }
        ensures ordered { IfOk result Rising }
        ensures encloses { (growth : ℕ → Fraction) → Encloses self.now.tables growth → IfOk result (FactorBetween growth year) }
    {
        self.within_horizon(0, year)?;
        let factors = wide(self.tables.factors[year as usize]);
        Ok(Side::both(|side| side.of(factors) as i64))
    }
}
