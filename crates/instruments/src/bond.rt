// Bonds: the plain row that stands for one, how they are made and how they are read.
ghost use Rattle.std.specs.Prelude.{◌≡◌, ◌≤◌};
ghost use Rattle.instruments.specs.Limits.{longest, highest_coupon, highest_price};

use crate::class::Class;
use crate::kind::Instrument;
use crate::level::level_payment;
use crate::limits::{HIGHEST_COUPON, HIGHEST_PRICE, LONGEST};
use crate::refusal::Refusal;

// A bond of a whole number of years, which pays its coupon each year.
#[derive(Clone, Copy, Debug)]
pub struct Bond {
    maturity: u8,
    coupon: u32,
    price: u32,
    ghost lasts: { (1 ≤ maturity) × (maturity ≤ longest) },
    ghost pays: { coupon ≤ highest_coupon },
    ghost priced: { (1 ≤ price) × (price ≤ highest_price) },
}

// The fields of a bond, bound by no limit.
#[derive(Clone, Copy, Default, PartialEq, Eq, Debug)]
pub struct BondRow {
    pub maturity: u8,
    pub coupon: u32,
    pub price: u32,
}

impl Bond {
    ghost use Rattle.instruments.specs.Bonds.{bond_row, bond_making};
    ghost use Rattle.instruments.specs.Law.{ok_map};

    // Refuses a maturity outside its limits, then a coupon, then a price.
    pub fn new(maturity: u8, coupon: u32, price: u32) -> Result<Bond, Refusal>
        ensures { ok_map bond_row result ≡ bond_making maturity coupon price }
    {
        if !(1..=LONGEST).contains(&maturity) {
            return Err(Refusal::BadMaturity(maturity));
        }
        // one end alone: the other is that of the type
        if coupon > HIGHEST_COUPON {
            return Err(Refusal::BadQuotation(maturity));
        }
        if !(1..=HIGHEST_PRICE).contains(&price) {
            return Err(Refusal::BadPrice(maturity));
        }
        Ok(Bond {
            maturity,
            coupon,
            price,
        })
    }

    pub fn coupon(&self) -> u32
        ensures { result ≡ self.now.coupon }
    {
        self.coupon
    }
}

impl Instrument for Bond {
    ghost use Rattle.std.proofs.Common.{rules};
    ghost use Rattle.instruments.specs.Bonds.{bond_row, bond_means, bond_read, bond_body};

    type Row = BondRow;

    const LETTER: char = 'B';

    const LENGTH: usize = 10;

    ghost LENGTH = { 10 };

    ghost means = { bond_means };

    ghost row = { bond_row };

    ghost read = { bond_read };

    ghost making = { bond_body };

    ghost rows = { Prim.search rules };

    ghost back = { Prim.search rules };

    fn maturity(&self) -> u8 {
        self.maturity
    }

    fn price(&self) -> u64 {
        u64::from(self.price)
    }

    fn payment(&self, year: u8) -> u64 {
        level_payment(self.coupon, self.maturity, year)
    }

    fn to_row(&self) -> BondRow {
        BondRow {
            maturity: self.maturity,
            coupon: self.coupon,
            price: self.price,
        }
    }

    fn of_row(from: BondRow) -> Bond {
        Bond {
            maturity: from.maturity.clamp(1, LONGEST),
            coupon: from.coupon.min(HIGHEST_COUPON),
            price: from.price.clamp(1, HIGHEST_PRICE),
        }
    }

    fn make(_class: Class, body: &[u8]) -> Result<Bond, Refusal> {
        let &[maturity, a, b, c, d, e, f, g, h] = body else {
            return Err(Refusal::WrongLength);
        };
        let coupon = u32::from_be_bytes([a, b, c, d]);
        let price = u32::from_be_bytes([e, f, g, h]);
        Bond::new(maturity, coupon, price)
    }
}
