// Settling: from quotations to the discount curve.
ghost use Rattle.std.specs.Prelude.{◌≡◌, map};
ghost use Rattle.instruments.specs.Law.{ok_map};
ghost use Rattle.curve.specs.Currencies.{span};
ghost use Rattle.curve.specs.Curves.{tables_of};
ghost use Rattle.curve.specs.Exact.{ExactCurve, exact_growth, exact_discount, Admitted, Tells};
ghost use Rattle.curve.specs.Settling.{last_from, settled};

use crate::discount::Curve;
use crate::strip::strip_on;
use crate::terms::Terms;
use instruments::kind::Instrument;
use instruments::refusal::Refusal;

// The maturity of the last quotation, or 0 if there is none: a refusal reports that year then, so it is no `Option`.
fn last_maturity<K: Instrument>(rows: &[K::Row]) -> u8
    ensures { result ≡ last_from 0 (map K.Instrument.read rows.now) }
{
    rows.last().map_or(0, |row| K::of_row(*row).maturity())
}

// The discount curve of rows in rising order of maturity, or the first refusal.
pub fn settle<K: Instrument>(terms: &Terms, rows: &[K::Row]) -> Result<Curve, Refusal>
    ensures curve { ok_map tables_of result ≡ settled (span terms.now) (map K.Instrument.read rows.now) }
    ensures encloses { (c : ExactCurve) → Admitted (map K.Instrument.read rows.now) c → Tells (exact_discount (span terms.now) (exact_growth c)) (ok_map tables_of result) }
{
    let last = last_maturity::<K>(rows);
    if last < terms.needed() {
        return Err(Refusal::TooShort(last));
    }
    let mut curve = Curve::unstripped();
    strip_on::<K>(&mut curve, rows)?;
    curve.blend(*terms);
    Ok(curve)
}
