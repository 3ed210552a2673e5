// A cash flow of a year, in whole kronor.
ghost use Rattle.std.specs.Prelude.{◌≤◌, pos, negsuc, ◌≤ℤ◌};
ghost use Rattle.book.specs.declared.flow.TheConstants.{LAST_YEAR};

use curve::tables::HORIZON;
use instruments::refusal::Refusal;

// the largest amount, either way
const LARGEST: i32 = 1_000_000_000;

// the last year that may hold a flow
const LAST_YEAR: u8 = HORIZON;

#[derive(Clone, Copy)]
pub struct Flow {
    pub(crate) year: u8,
    pub(crate) amount: i32,
    ghost begins: { 1 ≤ year },
    ghost ends: { year ≤ LAST_YEAR },
    ghost low: { negsuc 999999999 ≤ℤ amount },
    ghost high: { amount ≤ℤ pos 1000000000 },
}

impl Flow {
    ghost use Rattle.std.specs.Prelude.{◌≡◌};
    ghost use Rattle.instruments.specs.Law.{ok_map};
    ghost use Rattle.book.specs.Flows.{flow_fields, flow_making};

    // A flow of year 1 to 120 and of at most a thousand million kronor, either way.
    pub fn new(year: u8, amount: i32) -> Result<Flow, Refusal>
        ensures { ok_map flow_fields result ≡ flow_making year amount }
    {
        if !(1..=LAST_YEAR).contains(&year) {
            return Err(Refusal::BadYear(year));
        }
        if !(-LARGEST..=LARGEST).contains(&amount) {
            return Err(Refusal::BadAmount(year));
        }
        Ok(Flow { year, amount })
    }
}
