// The figures of a curve by year.
ghost use Rattle.std.specs.Prelude.{◌≡◌, ℕ, ◌^◌, ◌<◌, ◌≤◌, length};
ghost use Rattle.curve.specs.Blending.{discounted};
ghost use Rattle.curve.specs.Market.{Growing, InRange, discounted_on, entry, factor_of};
ghost use Rattle.curve.specs.Range.{unit};
ghost use Rattle.curve.specs.declared.side.Side.{Side};

use crate::side::Side;

// The last year that a curve has figures for, and a book flows. The clauses write the number, as the definitions do.
pub const HORIZON: u8 = 120;

// How many years it has figures for, year 0 included.
pub const YEARS: usize = HORIZON as usize + 1;

// A curve by year: the low and the high growth (1 plus the forward) and discount factor of each year 0 to 120, in units of 10^-9,
// and the last year that it answers for. Growths and factors stand in two tables, since growths hold on in all later years, and factors end with
// the last. A pair is a plain tuple: what holds of it a curve says of all years at once (`Ordered`), so a type of a pair would say it twice.
// It is held in 32 bits each and worked with in 64: with tables of `u64`, which are copied and cleared as whole curves, workload w2 took 1,507 million
// instructions for 945.
#[derive(Clone, Copy)]
pub struct Tables {
    pub(crate) last: u8,
    pub(crate) growths: [(u32, u32); YEARS],
    pub(crate) factors: [(u32, u32); YEARS],
}

// A pair of a table, as it is worked with.
pub(crate) fn wide(pair: (u32, u32)) -> (u64, u64)
    ensures { result ≡ pair }
{
    (u64::from(pair.0), u64::from(pair.1))
}

// A pair, as a table holds it.
pub(crate) fn narrow(pair: (u64, u64)) -> (u32, u32)
    requires low_fits { pair.0 < 2 ^ 32 }
    requires high_fits { pair.1 < 2 ^ 32 }
    ensures { result ≡ pair }
{
    (pair.0 as u32, pair.1 as u32)
}

// One year's discounting: the low factor by the high growth, the high factor by the low growth.
fn discounted(factors: (u32, u32), growths: (u32, u32)) -> (u32, u32)
    requires low_le_unit { factors.0 ≤ unit }
    requires high_le_unit { factors.1 ≤ unit }
    requires in_range { InRange growths }
    ensures { result ≡ discounted factors growths }
{
    let factors = wide(factors);
    let growths = wide(growths);
    Side::both(|side| side.discount(side.of(factors), side.opposite().of(growths)) as u32)
}

impl Tables {
    // Goes on with the factors after year `from` up to year `to`: each year's are those of the year before, discounted by its own growths.
    pub(crate) fn discount_on(&mut self, from: u8, to: u8)
        requires begins_in_table { from ≤ 120 }
        requires ends_in_table { to ≤ 120 }
        requires growing { Growing self.old }
        requires factors_le_unit { (σ : Side) (t : ℕ) → t ≤ from → factor_of self.old σ t ≤ unit }
        ensures last { self.new.last ≡ self.old.last }
        ensures growths { self.new.growths ≡ self.old.growths }
        ensures long { length self.new.factors ≡ 121 }
        ensures reached { (t : ℕ) → t ≤ to → entry self.new.factors t ≡ discounted_on self.old from t }
        ensures later { (t : ℕ) → to < t → entry self.new.factors t ≡ entry self.old.factors t }
    {
        let mut factors = self.factors[from as usize];
        // by the year, since after a loop over `iter_mut().zip(..)` nothing is known of what it wrote; with `..=` the instructions for
        // stripping curves were a thirtieth more
        for year in from as usize + 1..to as usize + 1 {
            factors = discounted(factors, self.growths[year]);
            self.factors[year] = factors;
        }
    }
}
