// Interest rate swaps: the plain row that stands for one, how they are made and how they are read.
ghost use Rattle.std.specs.Prelude.{◌≡◌, ◌≤◌, pos, ◌≤ℤ◌};
ghost use Rattle.instruments.specs.Limits.{longest, highest_coupon};

use crate::class::Class;
use crate::kind::Instrument;
use crate::level::level_payment;
use crate::limits::{HIGHEST_QUOTATION, LONGEST};
use crate::refusal::Refusal;

// The price of a swap, in units: par.
const PAR: u64 = 1_000_000_000;

// A swap of a whole number of years, priced at par.
#[derive(Clone, Copy, Debug)]
pub struct Swap {
    maturity: u8,
    quotation: i32,
    class: Class,
    ghost lasts: { (1 ≤ maturity) × (maturity ≤ longest) },
    ghost quoted: { (pos 0 ≤ℤ quotation) × (quotation ≤ℤ pos highest_coupon) },
}

// The fields of a swap, bound by no limit.
#[derive(Clone, Copy, PartialEq, Eq, Debug)]
pub struct SwapRow {
    pub maturity: u8,
    pub quotation: i32,
    pub class: Class,
}

// By hand, since no class is the one that a book has where none is given.
impl Default for SwapRow {
    ghost use Rattle.instruments.specs.Swaps.{swap_fields};
    ghost use Rattle.instruments.specs.declared.class.Class.TheVariants.{OccupationalPension};

    ghost is_default = { λ row. row ≡ swap_fields 0 (pos 0) OccupationalPension };

    fn default() -> SwapRow {
        SwapRow {
            maturity: 0,
            quotation: 0,
            class: Class::OccupationalPension,
        }
    }
}

impl Swap {
    ghost use Rattle.instruments.specs.Deductions.{adjusted, taken};
    ghost use Rattle.instruments.specs.Law.{ok_map};
    ghost use Rattle.instruments.specs.Swaps.{swap_row, swap_making};

    // Refuses a maturity outside its limits, then a quotation.
    pub fn new(maturity: u8, quotation: i32, class: Class) -> Result<Swap, Refusal>
        ensures { ok_map swap_row result ≡ swap_making maturity quotation class }
    {
        if !(1..=LONGEST).contains(&maturity) {
            return Err(Refusal::BadMaturity(maturity));
        }
        if !(0..=HIGHEST_QUOTATION).contains(&quotation) {
            return Err(Refusal::BadQuotation(maturity));
        }
        Ok(Swap {
            maturity,
            quotation,
            class,
        })
    }

    pub fn quotation(&self) -> i32
        ensures { result ≡ self.now.quotation }
    {
        self.quotation
    }

    pub fn class(&self) -> Class
        ensures { result ≡ self.now.class }
    {
        self.class
    }

    // The quotation less the deduction of its class, which takes no more than there is.
    pub fn adjusted(&self) -> u32
        ensures { result ≡ adjusted self.now.quotation self.now.class }
    {
        (self.quotation as u32).saturating_sub(self.class.deduction())
    }

    // The part of the deduction that is made.
    pub fn taken(&self) -> u32
        ensures { result ≡ taken self.now.quotation self.now.class }
    {
        (self.quotation as u32).min(self.class.deduction())
    }
}

impl Instrument for Swap {
    ghost use Rattle.std.proofs.Common.{rules};
    ghost use Rattle.instruments.specs.Swaps.{swap_row, swap_means, swap_read, swap_body};

    type Row = SwapRow;

    const LETTER: char = 'S';

    const LENGTH: usize = 6;

    ghost LENGTH = { 6 };

    ghost means = { swap_means };

    ghost row = { swap_row };

    ghost read = { swap_read };

    ghost making = { swap_body };

    ghost rows = { Prim.search rules };

    ghost back = { Prim.search rules };

    fn maturity(&self) -> u8 {
        self.maturity
    }

    fn price(&self) -> u64 {
        PAR
    }

    fn payment(&self, year: u8) -> u64 {
        level_payment(self.adjusted(), self.maturity, year)
    }

    fn to_row(&self) -> SwapRow {
        SwapRow {
            maturity: self.maturity,
            quotation: self.quotation,
            class: self.class,
        }
    }

    fn of_row(from: SwapRow) -> Swap {
        Swap {
            maturity: from.maturity.clamp(1, LONGEST),
            quotation: from.quotation.clamp(0, HIGHEST_QUOTATION),
            class: from.class,
        }
    }

    fn make(class: Class, body: &[u8]) -> Result<Swap, Refusal> {
        let &[maturity, a, b, c, d] = body else {
            return Err(Refusal::WrongLength);
        };
        Swap::new(maturity, i32::from_be_bytes([a, b, c, d]), class)
    }
}
