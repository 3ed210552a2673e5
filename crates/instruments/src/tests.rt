use crate::bond::{Bond, BondRow};
use crate::class::Class;
use crate::kind::Instrument;
use crate::refusal::Refusal;
use crate::swap::{Swap, SwapRow};
use std::test::Fail;

const PENSION: Class = Class::OccupationalPension;

// The number and the year of a refusal, if there is one.
fn refused<T: Drop>(made: Result<T, Refusal>) -> Option<(u8, u8)> {
    made.err().map(|refusal| (refusal.number(), refusal.year()))
}

#[test]
fn deductions(rt: HostRuntime) -> Result<(), Fail> {
    let adjusted = [
        Swap::new(1, 3_500, PENSION)?.adjusted(),
        Swap::new(1, 3_501, PENSION)?.adjusted(),
        Swap::new(1, 5_500, Class::OtherInsurance)?.adjusted(),
        Swap::new(1, 5_501, Class::OtherInsurance)?.adjusted(),
    ];
    assert_eq!(rt; adjusted, [0, 1, 0, 1]);
    assert_eq!(rt; Swap::new(1, 10, PENSION)?.taken(), 10);
    Ok(())
}

#[test]
fn swap_limits(rt: HostRuntime) {
    assert_eq!(rt; refused(Swap::new(0, -1, PENSION)), Some((7, 0)));
    assert_eq!(rt; refused(Swap::new(91, 0, PENSION)), Some((7, 91)));
    assert_eq!(rt; refused(Swap::new(90, -1, PENSION)), Some((8, 90)));
    assert_eq!(rt; refused(Swap::new(1, 100_001, PENSION)), Some((8, 1)));
    assert_eq!(rt; refused(Swap::new(90, 100_000, PENSION)), None);
}

#[test]
fn refusals_as_text(rt: HostRuntime) -> Result<(), Fail> {
    let text = format!(in rt.alloc(); "{}", Refusal::TooShort(9))?;
    assert_eq!(rt; text.as_str(), "number 18, year 9");
    let text = format!(in rt.alloc(); "{}", Refusal::NotSettled)?;
    assert_eq!(rt; text.as_str(), "number 22, year 0");
    Ok(())
}

#[test]
fn bond_limits(rt: HostRuntime) {
    assert_eq!(rt; refused(Bond::new(91, 100_001, 0)), Some((7, 91)));
    assert_eq!(rt; refused(Bond::new(2, 100_001, 0)), Some((8, 2)));
    assert_eq!(rt; refused(Bond::new(2, 0, 0)), Some((9, 2)));
    assert_eq!(rt; refused(Bond::new(3, 0, 2_000_000_001)), Some((9, 3)));
    assert_eq!(rt; refused(Bond::new(90, 100_000, 2_000_000_000)), None);
}

#[test]
fn payments(rt: HostRuntime) -> Result<(), Fail> {
    let swap = Swap::new(2, 13_500, PENSION)?;
    let paid = [0, 1, 2, 3].map(|year| swap.payment(year));
    assert_eq!(rt; paid, [0, 10_000, 1_010_000, 0]);
    assert_eq!(rt; swap.price(), 1_000_000_000);
    let bond = Bond::new(2, 40_000, 990_000_000)?;
    let paid = [0, 1, 2, 3].map(|year| bond.payment(year));
    assert_eq!(rt; paid, [0, 40_000, 1_040_000, 0]);
    assert_eq!(rt; bond.price(), 990_000_000);
    Ok(())
}

#[test]
fn rows(rt: HostRuntime) -> Result<(), Fail> {
    let held = Swap::new(2, 13_500, Class::OtherInsurance)?.to_row();
    assert_eq!(rt; Swap::of_row(held).to_row(), held);
    let unlawful = SwapRow {
        maturity: 0,
        quotation: -1,
        class: PENSION,
    };
    let nearest = SwapRow {
        maturity: 1,
        quotation: 0,
        class: PENSION,
    };
    assert_eq!(rt; Swap::of_row(unlawful).to_row(), nearest);
    let held = Bond::new(2, 40_000, 990_000_000)?.to_row();
    assert_eq!(rt; Bond::of_row(held).to_row(), held);
    Ok(())
}

#[test]
fn frames(rt: HostRuntime) -> Result<(), Fail> {
    let swap = Swap::make(PENSION, &[1, 0, 0, 0x0d, 0xac])?;
    assert_eq!(rt; swap.quotation(), 3_500);
    assert_eq!(rt;
        refused(Swap::make(PENSION, &[9, 0xff, 0xff, 0xff, 0xff])),
        Some((8, 9))
    );
    assert_eq!(rt; refused(Swap::make(PENSION, &[1, 0, 0, 0])), Some((4, 0)));
    let bond = Bond::make(PENSION, &[1, 0, 0, 0, 0, 0x2f, 0xaf, 0x08, 0])?;
    let row = BondRow {
        maturity: 1,
        coupon: 0,
        price: 800_000_000,
    };
    assert_eq!(rt; bond.to_row(), row);
    assert_eq!(rt; refused(Bond::make(PENSION, &[])), Some((4, 0)));
    Ok(())
}
