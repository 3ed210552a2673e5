// The flows by year.
ghost use Rattle.std.specs.Prelude.{◌≡◌, replicate, if◌then◌else◌, not, is_ok, is_some, Some, None, Ok, slice_index_or, slice_set};
ghost use Rattle.instruments.specs.Law.{ok_map};
ghost use Rattle.instruments.specs.Limits.{if_kept};
ghost use Rattle.instruments.specs.declared.refusal.Refusal.TheVariants.{FlowHeld, NoFlow};
ghost use Rattle.std.proofs.Props.{props};
ghost use Rattle.curve.specs.Reserve.{AllWithin};

use crate::flow::Flow;
use curve::tables::YEARS;
use instruments::refusal::Refusal;

// The amount of each year 0 to the last, where one is held: a fixed table, as the curve has, and no map, so that a book takes no memory of its own.
// No amount is larger than a flow's, so what all of them are worth fits an `i64`: that each is an `i32` the check knows only where it is read.
#[derive(Clone, Copy)]
pub(crate) struct Table {
    pub(crate) amounts: [Option<i32>; YEARS],
    ghost small: { AllWithin 1000000000 amounts } by { Prim.hlevel props },
}

impl Table {
    // No flow is held.
    pub(crate) fn empty() -> Table
        ensures { result.amounts ≡ replicate 121 None }
    {
        Table {
            amounts: [None; YEARS],
        }
    }

    // Posts a flow, or refuses it where its year has one.
    pub(crate) fn post(&mut self, flow: Flow) -> Result<(), Refusal>
        ensures answer { result ≡ if_kept (not (is_some (slice_index_or self.old.amounts flow.year None))) (FlowHeld flow.year) (Ok tt) }
        ensures amounts { self.new.amounts ≡ (if is_ok result then slice_set self.old.amounts flow.year (Some flow.amount) else self.old.amounts) }
    {
        let held = &mut self.amounts[flow.year as usize];
        if held.is_some() {
            return Err(Refusal::FlowHeld(flow.year));
        }
        *held = Some(flow.amount);
        Ok(())
    }

    // Strikes the flow of a year and gives its amount, or refuses where there is none.
    pub(crate) fn strike(&mut self, year: u8) -> Result<i32, Refusal>
        ensures answer { let flow = slice_index_or self.old.amounts year None in ok_map Some result ≡ if_kept (is_some flow) (NoFlow year) (Ok flow) }
        ensures amounts { self.new.amounts ≡ (if is_ok result then slice_set self.old.amounts year None else self.old.amounts) }
    {
        let Some(Some(amount)) = self.amounts.get(year as usize).copied() else {
            return Err(Refusal::NoFlow(year));
        };
        self.amounts[year as usize] = None;
        Ok(amount)
    }
}
