// One gap of a curve, from the last year that is known to the maturity of an instrument.
ghost use Rattle.std.specs.Prelude.{◌≡◌, ◌+◌, ◌-◌, ◌*◌, ◌^◌, ◌<◌, ◌≤◌};
ghost use Rattle.curve.specs.Range.{unit, edge};
ghost use Rattle.curve.specs.Steps.{side_of, opposite, pair, reaching};
ghost use Rattle.curve.specs.Market.{factor_of, entry, found, found_growths, admitted, limit, tightened_by};
ghost use Rattle.curve.specs.Worths.{worth, IsShort};
ghost use Rattle.curve.specs.declared.side.Side.{Side};

use crate::discount::Curve;
use crate::search::{Falling, furthest};
use crate::side::Side;
use crate::step::{LEAST, MOST, UNIT};
use crate::tables::{Tables, wide};
use instruments::kind::Instrument;
use instruments::refusal::Refusal;

// the products of a ppm and a unit in one unit of worth
const WORTH: u64 = 1_000_000;

// how far apart the two growths of a gap may be
const WIDEST: u64 = 1_000;

// a worth whose product with a growth fits
const SHORT: u64 = 10_000_000_000;

// An instrument at a curve that is known up to the year `last`: the factors of that year, and the worth of the payments up to it.
#[derive(Drop)]
pub(crate) struct Gap<K> {
    pub(crate) instrument: K,
    pub(crate) last: u8,
    pub(crate) start: (u64, u64),
    pub(crate) known: (u64, u64),
    ghost year: { last ≤ 120 },
    ghost started: { (side : Side) → side_of side start ≤ unit },
    ghost small: { (side : Side) → side_of side known ≤ 240000000000000000 },
}

// A worth and that of one payment more, at the factors of its year.
fn with_payment(worth: (u64, u64), payment: u64, factors: (u32, u32)) -> (u64, u64)
    requires fits { (σ : Side) → side_of σ worth + payment * side_of σ factors < 2 ^ 64 }
    ensures { result ≡ pair (λ σ. side_of σ worth + payment * side_of σ factors) }
{
    let factors = wide(factors);
    Side::both(|side| side.of(worth) + payment * side.of(factors))
}

impl<K: Instrument> Falling for Gap<K> {
    ghost use Rattle.curve.specs.Gaps.{worth_of};

    ghost value = { worth_of K.means };

    const MENDINGS: u8 = 8;

    const NEARBY: u64 = 16_384;

    fn at(&self, side: Side, growth: u64) -> u64 {
        let mut factor = side.of(self.start);
        let mut worth = side.of(self.known);
        // with `..=` here and below, the instructions for stripping curves were a thirtieth more
        for year in self.last + 1..self.instrument.maturity() + 1 {
            factor = side.discount(factor, growth);
            worth += self.instrument.payment(year) * factor;
        }
        worth
    }

    // As if the worth were linear in the factor of one year: its slope is then the sum of the worths of the payments, each times its years.
    // A loop of its own beside that of `at`: it wraps, so that nothing has to fit, and sums the slope besides.
    fn mended(&self, side: Side, limit: u64, growth: u64) -> u64 {
        let growth = growth.clamp(LEAST, MOST);
        let slack = match side {
            Side::Low => 0,
            Side::High => growth - 1,
        };
        let mut factor = side.of(self.start);
        let mut worth = side.of(self.known);
        let mut slope: u64 = 0;
        for year in self.last + 1..self.instrument.maturity() + 1 {
            factor = factor.wrapping_mul(UNIT).wrapping_add(slack) / growth;
            let part = self.instrument.payment(year).wrapping_mul(factor);
            worth = worth.wrapping_add(part);
            slope = slope.wrapping_add(part.wrapping_mul(u64::from(year - self.last)));
        }
        let off = worth.abs_diff(limit);
        let grain = off / SHORT + 1;
        let product = growth.wrapping_mul(off / grain);
        if worth < limit {
            growth.wrapping_sub(product / (slope.saturating_add(off) / grain).max(1))
        } else {
            growth.wrapping_add(product / (slope.saturating_sub(off) / grain).max(1))
        }
    }
}

impl<K: Instrument> Gap<K> {
    ghost use Rattle.curve.specs.Gaps.{worth_of, GoesOn};

    // The gap from a curve's last year on.
    pub(crate) fn new(curve: &Curve, instrument: K) -> Gap<K>
        ensures same { result.instrument ≡ instrument }
        ensures year { result.last ≡ curve.now.tables.last }
        ensures begun { result.start ≡ entry curve.now.tables.factors curve.now.tables.last }
        ensures summed { result.known ≡ pair (λ σ. worth (K.means instrument).payment (factor_of curve.now.tables σ) curve.now.tables.last) }
    {
        let tables = &curve.tables;
        let last = tables.last;
        let maturity = instrument.maturity();
        let mut known = (0, 0);
        // By the year, for which the instrument is asked as well as the table. The year of maturity has a line of its own, so that the loop has years
        // of the same coupon: with one loop for all, workload w2 took 945 million instructions for 819.
        for year in 1..maturity.min(last + 1) {
            known = with_payment(
                known,
                instrument.payment(year),
                tables.factors[year as usize],
            );
        }
        if maturity <= last {
            known = with_payment(
                known,
                instrument.payment(maturity),
                tables.factors[maturity as usize],
            );
        }
        Gap {
            instrument,
            last,
            start: wide(tables.factors[last as usize]),
            known,
        }
    }

    // Where the gap ends.
    pub(crate) fn maturity(&self) -> u8
        ensures { result ≡ (K.means self.now.instrument).maturity }
    {
        self.instrument.maturity()
    }

    // What a worth within one unit of the price lies between, in products of a ppm and a unit.
    fn admitted(&self, side: Side) -> u64
        ensures { result ≡ admitted side (K.means self.now.instrument).price }
    {
        let price = self.instrument.price() * WORTH;
        match side {
            Side::Low => price - WORTH,
            Side::High => price + WORTH,
        }
    }

    // From this on a low worth is more than is admitted; below this a high worth is less.
    fn limit(&self, side: Side) -> u64
        ensures { result ≡ limit side (K.means self.now.instrument).price }
    {
        match side {
            Side::Low => self.admitted(Side::High) + 1,
            Side::High => self.admitted(Side::Low),
        }
    }

    // The furthest growth of a gap of one year, straight from the greatest factor at which the worth is still below the limit.
    fn in_one_year(&self, side: Side, limit: u64) -> u64
        requires { IsShort self.now.known self.now.last (K.means self.now.instrument) side limit }
        ensures { result ≡ edge side (reaching side (worth_of K.means self.now side) limit) }
    {
        let payment = self.instrument.payment(self.instrument.maturity());
        let missed = (limit - side.of(self.known) - 1) / payment;
        let divisor = match side {
            Side::Low => missed + 1,
            Side::High => missed,
        };
        side.divide(side.of(self.start) * UNIT, divisor)
            .clamp(LEAST, MOST)
    }

    // The furthest growths of the range, low and high.
    #[tactic(auto, using(crate::proofs::Continuation::worth_from_falls))]
    fn furthest_growths(&self, guess: u64) -> (u64, u64)
        ensures { result ≡ pair (found (worth_of K.means self.now) (K.means self.now.instrument).price) }
    {
        let maturity = self.instrument.maturity();
        let payment = self.instrument.payment(maturity);
        let limits = Side::both(|side| self.limit(side));
        if maturity == self.last + 1 && self.known.0.max(self.known.1) + payment < limits.1 {
            return Side::both(
                |side|
                    requires { IsShort self.now.known self.now.last (K.means self.now.instrument) side (side_of side limits) }
                { self.in_one_year(side, side.of(limits)) },
            );
        }
        furthest(self, limits, guess)
    }

    // The gap's two growths, or why there are none: no growth is small enough if the high one is the least of the range, and none is large
    // enough if the low one is the greatest.
    pub(crate) fn growths(&self, guess: u64) -> Result<(u64, u64), Refusal>
        ensures { result ≡ found_growths (worth_of K.means self.now) (K.means self.now.instrument) }
    {
        let maturity = self.instrument.maturity();
        let (low, high) = self.furthest_growths(guess);
        if high == LEAST {
            return Err(Refusal::ForwardBelowRange(maturity));
        }
        if low == MOST {
            return Err(Refusal::ForwardAboveRange(maturity));
        }
        if high > low + WIDEST {
            return Err(Refusal::ForwardTooWide(maturity));
        }
        Ok((low, high))
    }

    // What the payments before maturity are worth at factors that go on to it. The tables have those by then: with the factors stepped again from the
    // growths, workload w2 took 724 million instructions for 670.
    fn rests(&self, tables: &Tables) -> (u64, u64)
        requires { GoesOn tables.now self.now.last self.now.known (K.means self.now.instrument) }
        ensures { result ≡ pair (λ σ. worth (K.means self.now.instrument).payment (factor_of tables.now σ) ((K.means self.now.instrument).maturity - 1)) }
    {
        let mut rests = self.known;
        for year in self.last + 1..self.instrument.maturity() {
            rests = with_payment(
                rests,
                self.instrument.payment(year),
                tables.factors[year as usize],
            );
        }
        rests
    }

    // The factors at maturity that lie furthest in: the steps', or what the price leaves for them at the other side's factors before.
    pub(crate) fn tightened(&self, tables: &Tables) -> (u64, u64)
        requires { GoesOn tables.now self.now.last self.now.known (K.means self.now.instrument) }
        ensures { result ≡ pair (λ σ. tightened_by (K.means self.now.instrument) σ (factor_of tables.now σ (K.means self.now.instrument).maturity) (worth (K.means self.now.instrument).payment (factor_of tables.now (opposite σ)) ((K.means self.now.instrument).maturity - 1))) }
    {
        let maturity = self.instrument.maturity();
        let payment = self.instrument.payment(maturity);
        let steps = wide(tables.factors[maturity as usize]);
        let rests = self.rests(tables);
        let admitted = Side::both(|side| self.admitted(side));
        Side::both(
            |side|
                requires paid { (1 ≤ payment) × (payment < 2 ^ 32) }
                requires fits { side_of side admitted < 2 ^ 63 }
            {
                let left = side.of(admitted).saturating_sub(side.opposite().of(rests));
                side.inner(side.of(steps), side.divide(left, payment))
            },
        )
    }
}
