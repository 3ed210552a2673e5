// Each refusal of a call, by its number and year, and its neighbour that is not refused.
use crate::follow::Answer::*;
use crate::follow::{Answer, bond, follow, swap, swap_row};
use book::call::Call::*;
use instruments::bond::BondRow;
use instruments::swap::{Swap, SwapRow};
use std::process::Abort;
use std::test::Fail;

const LARGEST: i32 = 1_000_000_000;

#[test]
fn maturities_entered(rt: HostRuntime) -> Result<(), Fail> {
    let krona = [
        (swap(21, 0), Refused(10, 21)),
        (swap(20, 0), Done),
        (swap(20, 1), Refused(11, 20)),
        (swap(21, 0), Refused(10, 21)),
        (swap(19, 0), Refused(12, 19)),
    ];
    follow(&rt, *b"SEK", &mut [SwapRow::default(); 1], &krona)?;
    follow(
        &rt,
        *b"XXX",
        &mut [SwapRow::default(); 1],
        &[(swap(90, 0), Done)],
    )
}

#[test]
fn full_slices(rt: HostRuntime) -> Result<(), Fail> {
    let calls = [
        (swap(2, 0), Done),
        (swap(3, 0), Done),
        (swap(1, 0), Done),
        (swap(4, 0), Refused(12, 4)),
        (swap(2, 0), Refused(11, 2)),
        (Withdraw(2), Done),
        (swap(4, 0), Done),
    ];
    follow(&rt, *b"XXX", &mut [SwapRow::default(); 3], &calls)?;
    follow(&rt, *b"XXX", &mut [], &[(swap(5, 0), Refused(12, 5))])
}

#[test]
fn withdrawn_maturities(rt: HostRuntime) -> Result<(), Fail> {
    let calls = [
        (Withdraw(0), Refused(13, 0)),
        (swap(7, 0), Done),
        (Withdraw(6), Refused(13, 6)),
        (Withdraw(200), Refused(13, 200)),
        (Withdraw(7), Done),
        (Withdraw(7), Refused(13, 7)),
    ];
    follow(&rt, *b"XXX", &mut [SwapRow::default(); 3], &calls)
}

#[test]
fn posted_flows(rt: HostRuntime) -> Result<(), Fail> {
    let calls = [
        (Post(0, 0), Refused(14, 0)),
        (Post(121, LARGEST + 1), Refused(14, 121)),
        (Post(1, LARGEST + 1), Refused(15, 1)),
        (Post(120, -LARGEST - 1), Refused(15, 120)),
        (Post(1, LARGEST), Done),
        (Post(120, -LARGEST), Done),
        (Post(1, LARGEST + 1), Refused(15, 1)),
        (Post(1, 0), Refused(16, 1)),
        (Post(2, 0), Done),
        (Post(2, 0), Refused(16, 2)),
    ];
    follow::<Swap>(&rt, *b"XXX", &mut [], &calls)
}

#[test]
fn struck_flows(rt: HostRuntime) -> Result<(), Fail> {
    let calls = [
        (Strike(1), Refused(17, 1)),
        (Strike(200), Refused(17, 200)),
        (Post(1, 0), Done),
        (Strike(0), Refused(17, 0)),
        (Strike(1), Done),
        (Strike(1), Refused(17, 1)),
        (Post(1, 5), Done),
    ];
    follow::<Swap>(&rt, *b"XXX", &mut [], &calls)
}

#[test]
fn short_books(rt: HostRuntime) -> Result<(), Fail> {
    let calls = [
        (Settle, Refused(18, 0)),
        (swap(9, 23_500), Done),
        (Settle, Refused(18, 9)),
        (Factor(0), Refused(22, 0)),
        (swap(10, 23_500), Done),
        (Settle, Done),
    ];
    follow(&rt, *b"SEK", &mut [SwapRow::default(); 2], &calls)?;
    follow::<Swap>(
        &rt,
        *b"XXX",
        &mut [SwapRow::default(); 2],
        &[(Settle, Refused(18, 0))],
    )
}

// Checks the answer to a settling with one bond, under no blend.
fn settling(rt: &impl Abort, maturity: u8, price: u32, due: Answer) -> Result<(), Fail> {
    let calls = [(bond(maturity, price), Done), (Settle, due)];
    follow(rt, *b"XXX", &mut [BondRow::default(); 1], &calls)
}

#[test]
fn unfit_prices(rt: HostRuntime) -> Result<(), Fail> {
    settling(&rt, 1, 1_000_000_001, Done)?;
    settling(&rt, 1, 1_000_000_002, Refused(19, 1))?;
    settling(&rt, 1, 799_999_999, Done)?;
    settling(&rt, 1, 799_999_998, Refused(20, 1))?;
    settling(&rt, 90, 187_889, Done)?;
    settling(&rt, 90, 187_890, Refused(21, 90))?;
    settling(&rt, 90, 187_891, Done)
}

#[test]
fn questions_too_early(rt: HostRuntime) -> Result<(), Fail> {
    let calls = [
        (Forward(0), Refused(22, 0)),
        (Factor(121), Refused(22, 0)),
        (Rate(1), Refused(22, 0)),
        (Post(120, 1), Done),
        (Reserve, Refused(22, 0)),
    ];
    follow::<Swap>(&rt, *b"SEK", &mut [SwapRow::default(); 1], &calls)
}

#[test]
fn years_of_blended_curve(rt: HostRuntime) -> Result<(), Fail> {
    let calls = [
        (swap(10, 23_500), Done),
        (Settle, Done),
        (Forward(0), Refused(23, 0)),
        (Rate(0), Refused(23, 0)),
        (Factor(0), Figures(1_000_000_000, 1_000_000_000)),
        (Forward(120), Figures(42_000_000, 42_000_000)),
        (Forward(121), Refused(23, 121)),
        (Factor(121), Refused(23, 121)),
        (Rate(121), Refused(23, 121)),
    ];
    follow(&rt, *b"SEK", &mut [SwapRow::default(); 1], &calls)
}

#[test]
fn years_of_market_curve(rt: HostRuntime) -> Result<(), Fail> {
    let calls = [
        (swap(3, 23_500), Done),
        (Settle, Done),
        (Factor(3), Figures(942_322_333, 942_322_336)),
        (Factor(4), Refused(23, 4)),
        (Forward(4), Refused(23, 4)),
        (Rate(4), Refused(23, 4)),
        (Post(5, 0), Done),
        (Post(4, 1), Done),
        (Reserve, Refused(23, 4)),
        (Strike(4), Done),
        (Reserve, Refused(23, 5)),
        (Strike(5), Done),
        (Reserve, Figures(0, 0)),
    ];
    follow(&rt, *b"XXX", &mut [SwapRow::default(); 1], &calls)
}
