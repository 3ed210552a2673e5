// The limits that a maturity, a quotation, a coupon and a price keep.

// The longest maturity, in years.
pub const LONGEST: u8 = 90;

// The highest coupon, in ppm of nominal.
pub const HIGHEST_COUPON: u32 = 100_000;

// The highest quotation, which is that of a coupon.
pub const HIGHEST_QUOTATION: i32 = HIGHEST_COUPON as i32;

// The highest price, in units.
pub const HIGHEST_PRICE: u32 = 2_000_000_000;
