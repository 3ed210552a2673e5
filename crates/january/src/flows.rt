// The cash flows, and what each adds to the reserve.
ghost use Rattle.std.specs.Prelude.{◌≡◌, ◌≤◌, replicate, Some, None, slice_set};
ghost use Rattle.curve.specs.Curves.{tables_of};
ghost use Rattle.curve.specs.Reserve.{asked_reserve};

use crate::bracket::Bracket;
use crate::figure::{Kronor, Ore};
use crate::input::FLOWS;
use crate::stop::Stop;
use book::volume::Book;
use curve::discount::Curve;
use curve::tables::YEARS;
use instruments::refusal::Refusal;
use instruments::swap::Swap;

// Posts each flow to the book.
pub fn post(rt: &impl Print, book: &mut Book<'_, Swap>) -> Result<(), Stop> {
    for (amount, year) in FLOWS.into_iter().zip(1..) {
        book.post(year, amount)?;
    }
    let last = FLOWS.len();
    println!(rt; "Posted: {last} flows, of the years 1 to {last}")?;
    Ok(())
}

// What one flow adds to the reserve: the reserve of a table that holds it alone.
fn share(curve: &Curve, year: usize, amount: i32) -> Result<(i64, i64), Refusal>
    requires { year ≤ 120 }
    ensures { result ≡ asked_reserve (tables_of curve.now) (slice_set (replicate 121 None) year (Some amount)) }
{
    let mut alone = [None; YEARS];
    alone[year] = Some(amount);
    curve.reserve(&alone)
}

pub fn print_shares(rt: &impl Print, curve: &Curve) -> Result<(), Stop> {
    println!(rt; "\n5. Cash flows, and what each adds to the reserve\n")?;
    println!(rt; "year        amount       share low      share high")?;
    // by `enumerate`, since the check then knows that the year is in the table
    for (at, amount) in FLOWS.iter().enumerate() {
        let year = at + 1;
        let worth = Bracket::<Ore>::from(share(curve, year, *amount)?);
        let amount = Kronor(i64::from(*amount));
        println!(rt; "{year:>4}  {amount:>12}  {worth:>14}")?;
    }
    Ok(())
}
