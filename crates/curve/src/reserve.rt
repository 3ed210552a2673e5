// The reserve for a table of cash flows.
ghost use Rattle.std.specs.Prelude.{◌≡◌, ℕ, ◌^◌, ◌≤◌, IfOk, position, is_some};
ghost use Rattle.curve.specs.Exact.{Fraction, Encloses, Rising, ReserveBetween};
ghost use Rattle.curve.specs.Range.{unit};
ghost use Rattle.curve.specs.Market.{entry};
ghost use Rattle.curve.specs.Steps.{pair, side_of};
ghost use Rattle.curve.specs.Questions.{signed_pair};
ghost use Rattle.curve.specs.Reserve.{portion, share, signed_of, reserve_from, flows_within, asked_reserve, largest, SizeWithin};
ghost use Rattle.curve.specs.declared.side.Side.{Side};

use crate::discount::Curve;
use crate::side::Side;
use crate::tables::{YEARS, wide};
use instruments::refusal::Refusal;

// a hundredth of a krona, in products of a krona and a unit
const HUNDREDTH: u64 = 10_000_000;

// The place of the first flow that is held.
fn first_held(flows: &[Option<i32>]) -> Option<usize>
    ensures { result ≡ position is_some flows.now }
{
    flows.iter().position(|flow| flow.is_some())
}

// What an amount of kronor is worth at the factors of its year, low and high, in hundredths.
#[tactic(auto, using(crate::proofs::Shares::portion_small), unfolding(crate::specs::Reserve::portion))]
fn portion(factors: &(u32, u32), amount: u32) -> (u64, u64)
    requires factors_le_unit { (σ : Side) → side_of σ factors.now ≤ unit }
    requires amount_bound { amount ≤ 2 ^ 31 }
    ensures value { result ≡ pair (portion factors.now amount) }
    ensures small { (σ : Side) → side_of σ result ≤ largest }
{
    let kronor = u64::from(amount);
    Side::both(|side| side.divide(kronor * side.of(wide(*factors)), HUNDREDTH))
}

// What a flow is worth at the factors of its year, low and high, in hundredths: a loss takes the portion of the other side away.
fn share(factors: &(u32, u32), amount: i32) -> (i64, i64)
    requires factors_le_unit { (σ : Side) → side_of σ factors.now ≤ unit }
    ensures value { result ≡ signed_pair (share factors.now amount) }
    ensures small { (σ : Side) → SizeWithin largest (signed_of σ result) }
{
    // worked out once, before the branch, the portion cost workload w2 1,531 million instructions for 1,513
    if amount < 0 {
        let worth = portion(factors, amount.unsigned_abs());
        Side::both(|side| -(side.opposite().of(worth) as i64))
    } else {
        let worth = portion(factors, amount as u32);
        Side::both(|side| side.of(worth) as i64)
    }
}

impl Curve {
    // Refuses the first flow after the curve's last year.
    pub fn flows_within(&self, flows: &[Option<i32>; YEARS]) -> Result<(), Refusal>
        ensures { result ≡ flows_within self.now.tables 0 flows.now }
    {
        let beyond = self.tables.last + 1;
        match first_held(&flows[beyond as usize..]) {
            Some(years) => Err(Refusal::OutsideHorizon(beyond + years as u8)),
            None => Ok(()),
        }
    }

    // What the flow of a year is worth, low and high, in hundredths, at the table's factors of that year: nothing after the last year of the table.
    // Those after the curve's own last year mean nothing; `flows_within` refuses such a flow.
    pub fn share(&self, year: u8, amount: i32) -> (i64, i64)
        ensures value { result ≡ signed_pair (share (entry self.now.tables.factors year) amount) }
        ensures small { (σ : Side) → SizeWithin largest (signed_of σ result) }
    {
        let factors = self.tables.factors.get(year as usize);
        share(factors.unwrap_or(&(0, 0)), amount)
    }

    // The sum of the shares of a table of flows by year: the reserve where no flow stands after the curve's last year.
    pub fn total(&self, flows: &[Option<i32>; YEARS]) -> (i64, i64)
        ensures { result ≡ signed_pair (reserve_from self.now.tables 0 flows.now) }
    {
        let mut total = (0, 0);
        for (flow, factors) in flows.iter().zip(&self.tables.factors) {
            if let Some(amount) = flow {
                let share = share(factors, *amount);
                total = (total.0 + share.0, total.1 + share.1);
            }
        }
        total
    }

    // The reserve for a table of flows by year, in whole kronor: low and high, in hundredths.
    pub fn reserve(&self, flows: &[Option<i32>; YEARS]) -> Result<(i64, i64), Refusal>
        ensures value { result ≡ asked_reserve self.now.tables flows.now }
        ensures ordered { IfOk result Rising }
        ensures encloses { (growth : ℕ → Fraction) → Encloses self.now.tables growth → IfOk result (ReserveBetween growth flows.now) }
    {
        self.flows_within(flows)?;
        Ok(self.total(flows))
    }
}
