// The range of growths, and 1 as a factor. A growth stays a plain number: a curve says the range of its tables' pairs anyway, with low at most high,
// and the search goes one past it, so a type with the range would say it twice.

// 1 as a factor, in units of 10^-9
pub(crate) const UNIT: u64 = 1_000_000_000;

// the range of growths, 1 plus a forward of 0 to 25 per cent
pub(crate) const LEAST: u64 = 1_000_000_000;

pub(crate) const MOST: u64 = 1_250_000_000;
