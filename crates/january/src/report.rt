// What a settled book answers, printed.
use crate::bracket::Bracket;
use crate::figure::{Ore, Units};
use crate::stop::Stop;
use book::volume::Book;
use curve::discount::Curve;
use curve::terms::Terms;
use instruments::swap::Swap;

// A settled book, and where its answers are printed.
#[derive(Drop)]
pub struct Report<'a, 'p, R> {
    pub rt: &'a R,
    pub book: &'a Book<'p, Swap>,
}

impl<R: Print> Report<'_, '_, R> {
    fn print_blended_year(&self, market: &Curve, terms: &Terms, year: u8) -> Result<(), Stop> {
        let (part, whole) = terms.weight(year);
        let market = Bracket::<Units>::from(market.forward(year)?);
        let blended = Bracket::<Units>::from(self.book.forward(year)?);
        println!(self.rt; "{year:>4}  {part:>3}/{whole:<2}  {market:>12}  {blended:>12}")?;
        Ok(())
    }

    // From the year after the last liquid point to the time of convergence, the market's forwards beside those of the book.
    pub fn print_blending(&self, market: &Curve, terms: &Terms) -> Result<(), Stop> {
        println!(self.rt;
            "\n3. Forwards blended with the ultimate forward rate, by the weight of that rate\n"
        )?;
        println!(self.rt; "year  weight    market low   market high   blended low  blended high")?;
        let Some((liquid, convergence)) = terms.span() else {
            return Ok(());
        };
        for year in liquid.saturating_add(1)..=convergence {
            self.print_blended_year(market, terms, year)?;
        }
        Ok(())
    }

    // Year 0 has factors alone.
    fn print_start(&self) -> Result<(), Stop> {
        let factor = Bracket::<Units>::from(self.book.factor(0)?);
        println!(self.rt; "{:>4}  {:>26}  {factor:>12}", 0, "")?;
        Ok(())
    }

    fn print_year(&self, year: u8) -> Result<(), Stop> {
        let forward = Bracket::<Units>::from(self.book.forward(year)?);
        let factor = Bracket::<Units>::from(self.book.factor(year)?);
        let rate = Bracket::<Units>::from(self.book.rate(year)?);
        println!(self.rt; "{year:>4}  {forward:>12}  {factor:>12}  {rate:>12}")?;
        Ok(())
    }

    // From year 0 to the last year that the book answers for.
    pub fn print_years(&self, last: u8) -> Result<(), Stop> {
        println!(self.rt;
            "\n4. Discount curve by year: forwards, discount factors and zero rates\n"
        )?;
        println!(self.rt;
            "year   forward low  forward high    factor low   factor high      rate low     rate high"
        )?;
        self.print_start()?;
        for year in 1..=last {
            self.print_year(year)?;
        }
        Ok(())
    }

    pub fn print_reserve(&self) -> Result<(), Stop> {
        let (low, high) = self.book.reserve()?;
        let least = Ore(low);
        let most = Ore(high);
        let apart = Ore(high.saturating_sub(low));
        println!(self.rt; "\n6. Reserve\n")?;
        println!(self.rt; "low    {least:>14}")?;
        println!(self.rt; "high   {most:>14}")?;
        println!(self.rt; "apart  {apart:>14}")?;
        Ok(())
    }
}
