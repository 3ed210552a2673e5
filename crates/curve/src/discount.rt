// A curve that is asked for figures: the market's, as stripped, or the discount curve, as blended.
ghost use Rattle.curve.specs.Market.{Ordered};

use crate::gap::Gap;
use crate::step::{LEAST, UNIT};
use crate::tables::{HORIZON, Tables, YEARS, narrow, wide};
use crate::terms::Terms;
use instruments::kind::Instrument;
use instruments::refusal::Refusal;

#[derive(Clone, Copy)]
pub struct Curve {
    pub(crate) tables: Tables,
    ghost ordered: { Ordered tables },
}

impl Curve {
    ghost use Rattle.std.specs.Prelude.{◌≡◌};
    ghost use Rattle.curve.specs.Blending.{discount};
    ghost use Rattle.curve.specs.Currencies.{span};
    ghost use Rattle.curve.specs.Gaps.{held_on};
    ghost use Rattle.curve.specs.Market.{const_of, unstripped, with_gap};
    ghost use Rattle.instruments.specs.Law.{ok_map};

    // Nothing known after year 0.
    pub(crate) fn unstripped() -> Curve
        ensures { result.tables ≡ unstripped }
    {
        Curve {
            tables: Tables {
                last: 0,
                growths: [(LEAST as u32, LEAST as u32); YEARS],
                factors: [(UNIT as u32, UNIT as u32); YEARS],
            },
        }
    }

    // Goes on with the gap up to the instrument's maturity. The growths of later years are left to `hold_on`, once for all gaps: filled up to year 120
    // at each, workload w2 took 819 million instructions for 724.
    pub(crate) fn extend<K: Instrument>(&mut self, instrument: K) -> Result<(), Refusal>
        ensures { ok_map (const_of (held_on self.new.tables)) result ≡ with_gap self.old.tables (K.Instrument.means instrument) }
    {
        let last = self.tables.last;
        let guess = wide(self.tables.growths[last as usize]).0;
        let gap = Gap::new(self, instrument);
        let growths = gap.growths(guess)?;
        let maturity = gap.maturity();
        let tables = &mut self.tables;
        tables.growths[last as usize + 1..=maturity as usize].fill(narrow(growths));
        tables.discount_on(last, maturity);
        tables.factors[maturity as usize] = narrow(gap.tightened(tables));
        tables.last = maturity;
        Ok(())
    }

    // Has the growths of the last year hold from there on.
    pub(crate) fn hold_on(&mut self)
        ensures { self.new.tables ≡ held_on self.old.tables }
    {
        let last = self.tables.last as usize;
        let growths = self.tables.growths[last];
        self.tables.growths[last + 1..].fill(growths);
    }

    // The discount curve: on terms with no blend this curve itself, else one that goes on to the horizon.
    pub fn blended(&self, terms: &Terms) -> Curve
        ensures { result.tables ≡ discount (span terms.now) self.now.tables }
    {
        let mut curve = *self;
        curve.blend(*terms);
        curve
    }

    // The same in place. The terms are a copy, which no write to the curve can change: read by reference in the loop, they cost workload w2
    // 697 million instructions for 658.
    pub(crate) fn blend(&mut self, terms: Terms)
        ensures { self.new.tables ≡ discount (span terms) self.old.tables }
    {
        let Some(blend) = terms.blend else {
            return;
        };
        let tables = &mut self.tables;
        let known = blend.liquid.min(tables.last);
        for (year, growths) in tables.growths.iter_mut().enumerate() {
            *growths = narrow(terms.growths(year as u8, wide(*growths)));
        }
        tables.discount_on(known, HORIZON);
        tables.last = HORIZON;
    }
}
