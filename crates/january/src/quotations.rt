// The swap quotations, less their deductions.
use crate::figure::Ppm;
use crate::input::{CLASS, QUOTATIONS};
use crate::stop::Stop;
use book::volume::Book;
use instruments::kind::Instrument;
use instruments::swap::{Swap, SwapRow};
use std::alloc::Global;
use std::io;

fn print_quotation(rt: &impl Print, swap: &Swap) -> io::Result<()> {
    let maturity = swap.maturity();
    let quotation = Ppm(swap.quotation().unsigned_abs());
    let taken = Ppm(swap.taken());
    let adjusted = Ppm(swap.adjusted());
    println!(rt; "{maturity:>8}  {quotation:>10}  {taken:>10}  {adjusted:>10}")
}

// Enters each quotation in the book, and gives the rows of all.
pub fn enter(
    rt: &impl Print,
    heap: Global,
    book: &mut Book<'_, Swap>,
) -> Result<Vec<SwapRow>, Stop> {
    println!(rt; "\n1. Swap quotations, less the deduction for occupational pension\n")?;
    println!(rt; "maturity   quotation   deduction    adjusted")?;
    let mut rows = Vec::new(heap);
    for (maturity, quotation) in QUOTATIONS {
        let swap = Swap::new(maturity, quotation, CLASS)?;
        book.enter(swap)?;
        print_quotation(rt, &swap)?;
        rows.push(swap.to_row())?;
    }
    let entered = rows.len();
    println!(rt; "\nEntered: {entered} quotations")?;
    Ok(rows)
}
