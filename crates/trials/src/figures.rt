// Figures that are known beforehand, at each kind of instrument.
use crate::follow::Answer::*;
use crate::follow::{answered, bond, follow, swap};
use crate::loan::{Loan, LoanRow};
use book::call::Call;
use book::call::Call::*;
use book::running::run;
use curve::terms::Terms;
use instruments::bond::BondRow;
use instruments::kind::Instrument;
use instruments::swap::SwapRow;
use std::test::Fail;

const UNIT: i64 = 1_000_000_000;

#[test]
fn swap_without_interest(rt: HostRuntime) -> Result<(), Fail> {
    let calls = [
        (swap(1, 3_500), Done),
        (Settle, Done),
        (Forward(1), Figures(0, 3)),
        (Factor(0), Figures(UNIT, UNIT)),
        (Factor(1), Figures(999_999_999, UNIT)),
        (Reserve, Figures(0, 0)),
    ];
    follow(&rt, *b"XXX", &mut [SwapRow::default(); 1], &calls)
}

#[test]
fn swap_at_2_per_cent(rt: HostRuntime) -> Result<(), Fail> {
    let calls = [
        (Post(1, 1_000), Done),
        (swap(1, 23_500), Done),
        (Settle, Done),
        (Forward(1), Figures(19_999_998, 20_000_002)),
        (Factor(1), Figures(980_392_155, 980_392_158)),
        (Reserve, Figures(98_039, 98_040)),
        (Strike(1), Done),
        (Post(1, -1_000), Done),
        (Reserve, Figures(-98_040, -98_039)),
    ];
    follow(&rt, *b"XXX", &mut [SwapRow::default(); 1], &calls)
}

#[test]
fn swap_blended(rt: HostRuntime) -> Result<(), Fail> {
    let calls = [
        (swap(10, 23_500), Done),
        (Post(120, 1_000_000), Done),
        (Post(1, 1_000), Done),
        (Settle, Done),
        (Forward(10), Figures(19_999_999, 20_000_001)),
        (Forward(11), Figures(21_999_999, 22_000_001)),
        (Forward(21), Figures(42_000_000, 42_000_000)),
        (Factor(120), Figures(9_878_856, 9_878_881)),
        (Rate(120), Figures(39_227_821, 39_227_864)),
        (Reserve, Figures(1_085_924, 1_085_929)),
    ];
    follow(&rt, *b"SEK", &mut [SwapRow::default(); 1], &calls)
}

#[test]
fn bond_at_25_per_cent(rt: HostRuntime) -> Result<(), Fail> {
    let calls = [
        (bond(1, 800_000_000), Done),
        (Post(1, 1_000), Done),
        (Settle, Done),
        (Forward(1), Figures(249_999_996, 250_000_000)),
        (Factor(1), Figures(800_000_000, 800_000_001)),
        (Rate(1), Figures(249_999_998, 250_000_000)),
        (Reserve, Figures(80_000, 80_001)),
    ];
    follow(&rt, *b"XXX", &mut [BondRow::default(); 2], &calls)
}

// Enters a loan that pays 300,000 ppm in year 1, 400,000 in year 2 and 500,000 in year 3.
fn loan(maturity: u8, price: u32) -> Call<Loan> {
    Call::Enter(Loan::of_row(LoanRow {
        maturity,
        base: 200_000,
        price,
    }))
}

#[test]
fn loans(rt: HostRuntime) -> Result<(), Fail> {
    let calls = [
        (loan(3, 1_100_000_000), Done),
        (loan(3, 1), Refused(11, 3)),
        (Post(1, 1_000), Done),
        (Post(3, -1_000), Done),
        (Settle, Done),
        (Forward(3), Figures(41_227_713, 41_227_716)),
        (Factor(2), Figures(922_377_201, 922_377_209)),
        (Rate(3), Figures(41_227_711, 41_227_718)),
        (Reserve, Figures(7_454, 7_456)),
        (loan(1, 295_000_000), Done),
        (Settle, Done),
        (Forward(1), Figures(16_949_148, 16_949_158)),
        (Forward(2), Figures(63_117_546, 63_117_557)),
        (Factor(3), Figures(870_037_916, 870_037_939)),
        (Reserve, Figures(11_329, 11_331)),
    ];
    follow(&rt, *b"XXX", &mut [LoanRow::default(); 2], &calls)
}

#[test]
fn whole_run(rt: HostRuntime) -> Result<(), Fail> {
    let calls = [swap(1, 23_500), Reserve, Settle, Factor(1), Factor(2)];
    let terms = Terms::of_code(*b"XXX")?;
    let replies = run(rt.alloc(), terms, &mut [SwapRow::default(); 1], &calls)?;
    let due = [
        Done,
        Refused(22, 0),
        Done,
        Figures(980_392_155, 980_392_158),
        Refused(23, 2),
    ];
    assert_eq!(rt; replies.len(), due.len());
    for (reply, due) in replies.iter().zip(due) {
        assert_eq!(rt; answered(*reply), due);
    }
    Ok(())
}
