// Loans: the plain row that stands for one, what they pay and how they are read.
ghost use Rattle.std.specs.Prelude.{◌≡◌, ◌≤◌};

use instruments::class::Class;
use instruments::kind::Instrument;
use instruments::limits::HIGHEST_PRICE;
use instruments::refusal::Refusal;

// By how much an instalment is higher than the one before, in ppm of nominal.
const RISE: u64 = 100_000;

// A loan of 1 to 18 years that is paid back by instalments, each 100,000 ppm higher than the one before.
#[derive(Clone, Copy, Debug)]
pub struct Loan {
    maturity: u8,
    base: u32,
    price: u32,
    ghost lasts: { (1 ≤ maturity) × (maturity ≤ 18) },
    ghost starts: { base ≤ 200000 },
    ghost priced: { (1 ≤ price) × (price ≤ 2000000000) },
}

// The fields of a loan, bound by no limit.
#[derive(Clone, Copy, Default, PartialEq, Eq, Debug)]
pub struct LoanRow {
    pub maturity: u8,
    pub base: u32,
    pub price: u32,
}

impl Instrument for Loan {
    ghost use Rattle.std.proofs.Common.{rules};
    ghost use Rattle.trials.specs.Loans.{loan_row, loan_means, loan_read, loan_making};

    type Row = LoanRow;

    const LETTER: char = 'L';

    const LENGTH: usize = 10;

    ghost LENGTH = { 10 };

    ghost means = { loan_means };

    ghost row = { loan_row };

    ghost read = { loan_read };

    ghost making = { loan_making };

    ghost rows = { Prim.search rules };

    ghost back = { Prim.search rules };

    fn maturity(&self) -> u8 {
        self.maturity
    }

    fn price(&self) -> u64 {
        u64::from(self.price)
    }

    fn payment(&self, year: u8) -> u64 {
        if (1..=self.maturity).contains(&year) {
            u64::from(self.base) + RISE * u64::from(year)
        } else {
            0
        }
    }

    fn to_row(&self) -> LoanRow {
        LoanRow {
            maturity: self.maturity,
            base: self.base,
            price: self.price,
        }
    }

    fn of_row(from: LoanRow) -> Loan {
        Loan {
            maturity: from.maturity.clamp(1, 18),
            base: from.base.min(200_000),
            price: from.price.clamp(1, HIGHEST_PRICE),
        }
    }

    // No frame makes a loan.
    fn make(_class: Class, _body: &[u8]) -> Result<Loan, Refusal> {
        Err(Refusal::UnknownKind)
    }
}
