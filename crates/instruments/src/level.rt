// Payments of instruments that pay the same coupon each year, and the nominal at maturity.
ghost use Rattle.std.specs.Prelude.{◌≡◌};
ghost use Rattle.instruments.specs.Levels.{level};

// The nominal, in ppm of itself.
const NOMINAL: u64 = 1_000_000;

// What is paid in a year, in ppm of nominal. Three cases in order, of which a match on a comparison would need a fourth for year 0.
pub fn level_payment(coupon: u32, maturity: u8, year: u8) -> u64
    ensures { result ≡ level coupon maturity year }
{
    if year == 0 || year > maturity {
        0
    } else if year < maturity {
        u64::from(coupon)
    } else {
        u64::from(coupon) + NOMINAL
    }
}
