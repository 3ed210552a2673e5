// What a settled book keeps: the curve of its quotations, and the sum of its flows' shares on it.
ghost use Rattle.std.specs.Prelude.{◌≡◌, ◌*◌, ◌+ℤ◌, ◌-ℤ◌};
ghost use Rattle.curve.specs.Market.{entry};
ghost use Rattle.curve.specs.Reserve.{share, signed_of, largest, SizeWithin};
ghost use Rattle.curve.specs.declared.side.Side.{Side};

use curve::discount::Curve;

#[derive(Clone, Copy)]
pub(crate) struct Settled {
    pub(crate) curve: Curve,
    pub(crate) worth: (i64, i64), // low and high, in hundredths of a krona
}

impl Settled {
    // A flow more: its share is added.
    pub(crate) fn add(&mut self, year: u8, amount: i32)
        requires room { (σ : Side) → SizeWithin (largest * 121) (signed_of σ self.old.worth) }
        ensures curve { self.new.curve ≡ self.old.curve }
        ensures worth { (σ : Side) → signed_of σ self.new.worth ≡ signed_of σ self.old.worth +ℤ share (entry self.old.curve.tables.factors year) amount σ }
    {
        let share = self.curve.share(year, amount);
        self.worth = (self.worth.0 + share.0, self.worth.1 + share.1);
    }

    // A flow less: its share is taken away.
    pub(crate) fn take(&mut self, year: u8, amount: i32)
        requires room { (σ : Side) → SizeWithin (largest * 121) (signed_of σ self.old.worth) }
        ensures curve { self.new.curve ≡ self.old.curve }
        ensures worth { (σ : Side) → signed_of σ self.new.worth ≡ signed_of σ self.old.worth -ℤ share (entry self.old.curve.tables.factors year) amount σ }
    {
        let share = self.curve.share(year, amount);
        self.worth = (self.worth.0 - share.0, self.worth.1 - share.1);
    }
}
