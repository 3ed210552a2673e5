// Stripping: a market curve from the quotations of one kind of instrument, gap by gap.
ghost use Rattle.std.specs.Prelude.{◌≡◌, map};
ghost use Rattle.curve.specs.Gaps.{held_on};
ghost use Rattle.curve.specs.Market.{const_of, strip_from, stripped};
ghost use Rattle.curve.specs.Curves.{tables_of};
ghost use Rattle.curve.specs.Exact.{ExactCurve, exact_growth, Admitted, Tells};
ghost use Rattle.instruments.specs.Law.{ok_map};

use crate::discount::Curve;
use instruments::kind::Instrument;
use instruments::refusal::Refusal;

// The market curve of rows in rising order of maturity, or the first refusal. Rows in any other order are refused too: a gap that has
// no year of its own is worth the same at every growth, so its two growths are too far apart if they exist.
pub fn strip<K: Instrument>(rows: &[K::Row]) -> Result<Curve, Refusal>
    ensures curve { ok_map tables_of result ≡ stripped (map K.Instrument.read rows.now) }
    ensures encloses { (c : ExactCurve) → Admitted (map K.Instrument.read rows.now) c → Tells (exact_growth c) (ok_map tables_of result) }
{
    let mut curve = Curve::unstripped();
    strip_on::<K>(&mut curve, rows)?;
    Ok(curve)
}

// Goes on with the gaps of rows. In place, since a curve handed to settling in a result is copied: that cost workload w2 658 million instructions
// for 646.
pub(crate) fn strip_on<K: Instrument>(curve: &mut Curve, rows: &[K::Row]) -> Result<(), Refusal>
    ensures { ok_map (const_of curve.new.tables) result ≡ strip_from (held_on curve.old.tables) (map K.Instrument.read rows.now) }
{
    for row in rows {
        curve.extend(K::of_row(*row))?;
    }
    curve.hold_on();
    Ok(())
}
