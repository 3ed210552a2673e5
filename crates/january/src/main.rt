//! The reserve at year end of an occupational pension association, through a book: swap quotations are entered, cash flows are posted, the
//! book is settled, and it is asked for its discount curve and the reserve. Each step prints what it does and finds.
#![tactic(auto)]

mod bracket;
mod figure;
mod flows;
mod gaps;
mod input;
mod quotations;
mod report;
mod stop;

use crate::input::CURRENCY;
use crate::report::Report;
use crate::stop::Stop;
use book::volume::{Book, MOST_PLACES};
use curve::settle::settle;
use curve::strip::strip;
use curve::terms::Terms;
use instruments::swap::{Swap, SwapRow};
use std::alloc::Global;
use std::io;

fn title(rt: &impl Print) -> io::Result<()> {
    println!(rt; "Reserve at year end of an occupational pension association, in kronor")?;
    println!(rt;
        "\nForwards, factors, rates, shares and the reserve are found low and high; the exact figure lies between."
    )?;
    println!(rt; "The first three are in whole units of 0.000000001, the others in whole öre.")
}

// Asks a settled book. The market curve, and the curve that each flow's share is found by, come from the rows of the same quotations.
fn ask<R: Print>(report: &Report<'_, '_, R>, terms: &Terms, rows: &[SwapRow]) -> Result<(), Stop> {
    let market = strip::<Swap>(rows)?;
    gaps::print_gaps(report.rt, &market, rows)?;
    report.print_blending(&market, terms)?;
    let curve = settle::<Swap>(terms, rows)?;
    report.print_years(curve.horizon())?;
    flows::print_shares(report.rt, &curve)?;
    report.print_reserve()
}

fn work_out(rt: &impl Print, heap: Global) -> Result<(), Stop> {
    title(rt)?;
    let terms = Terms::of_code(CURRENCY)?;
    let mut places = [SwapRow::default(); MOST_PLACES];
    let mut book = Book::<Swap>::open(terms, &mut places);
    println!(rt; "\nOpened: a book with {MOST_PLACES} places")?;
    let rows = quotations::enter(rt, heap, &mut book)?;
    flows::post(rt, &mut book)?;
    book.settle()?;
    println!(rt; "Settled: the book has its discount curve")?;
    ask(&Report { rt, book: &book }, &terms, rows.as_slice())
}

fn main(rt: HostRuntime) -> io::Result<()> {
    match work_out(&rt, rt.alloc()) {
        Ok(()) => Ok(()),
        Err(Stop::Refusal(refusal)) => println!(rt; "Refused: {refusal}"),
        Err(Stop::System(error)) => Err(error),
    }
}
