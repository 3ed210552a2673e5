// How a trial goes: calls on a book just opened, and the answer that is due to each.
use book::call::Call;
use book::running::Reply;
use book::volume::Book;
use curve::terms::Terms;
use instruments::bond::{Bond, BondRow};
use instruments::class::Class;
use instruments::kind::Instrument;
use instruments::swap::{Swap, SwapRow};
use std::process::Abort;
use std::test::Fail;

// The answer to a call: of a refusal its number and its year. No Reply, since what is due is known by the numbers of the format.
#[derive(Clone, Copy, PartialEq, Eq, Debug)]
pub(crate) enum Answer {
    Done,
    Figures(i64, i64),
    Refused(u8, u8),
}

// A reply as an answer.
pub(crate) fn answered(reply: Reply) -> Answer {
    match reply {
        Ok(None) => Answer::Done,
        Ok(Some((low, high))) => Answer::Figures(low, high),
        Err(refusal) => Answer::Refused(refusal.number(), refusal.year()),
    }
}

// Makes the calls on a book just opened in the places lent, and checks the answer to each.
pub(crate) fn follow<K: Instrument>(
    rt: &impl Abort,
    code: [u8; 3],
    places: &mut [K::Row],
    calls: &[(Call<K>, Answer)],
) -> Result<(), Fail> {
    let mut book = Book::open(Terms::of_code(code)?, places);
    for (at, &(call, due)) in calls.iter().enumerate() {
        assert_eq!(rt; answered(book.call(call)), due, "call {at}");
    }
    Ok(())
}

// The row of a swap in the class of occupational pension.
pub(crate) fn swap_row(maturity: u8, quotation: i32) -> SwapRow {
    SwapRow {
        maturity,
        quotation,
        class: Class::OccupationalPension,
    }
}

// Enters that swap.
pub(crate) fn swap(maturity: u8, quotation: i32) -> Call<Swap> {
    Call::Enter(Swap::of_row(swap_row(maturity, quotation)))
}

// Enters a bond with no coupon.
pub(crate) fn bond(maturity: u8, price: u32) -> Call<Bond> {
    Call::Enter(Bond::of_row(BondRow {
        maturity,
        coupon: 0,
        price,
    }))
}
