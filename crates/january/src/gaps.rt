// The gaps of the market curve. One forward holds in all years of a gap, which ends at the maturity of a quotation.
use crate::bracket::Bracket;
use crate::figure::Units;
use crate::stop::Stop;
use curve::discount::Curve;
use instruments::swap::SwapRow;

fn print_gap(rt: &impl Print, market: &Curve, first: u8, last: u8) -> Result<(), Stop> {
    let forward = Bracket::<Units>::from(market.forward(last)?);
    let factor = Bracket::<Units>::from(market.factor(last)?);
    let forward_apart = forward.apart();
    let factor_apart = factor.apart();
    print!(rt; "{first:>2} to {last:>2}  {forward:>12}  {forward_apart:>5}")?;
    println!(rt; "  {factor:>12}  {factor_apart:>5}")?;
    Ok(())
}

pub fn print_gaps(rt: &impl Print, market: &Curve, rows: &[SwapRow]) -> Result<(), Stop> {
    println!(rt;
        "\n2. Market curve of the same quotations by gap: forwards, factors at maturity, and how many units low and high are apart\n"
    )?;
    println!(rt; "   years   forward low  forward high  apart    factor low   factor high  apart")?;
    let mut first: u8 = 1;
    for row in rows {
        print_gap(rt, market, first, row.maturity)?;
        first = row.maturity.saturating_add(1);
    }
    Ok(())
}
