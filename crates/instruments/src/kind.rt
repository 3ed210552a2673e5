// What a kind of instrument is: how it prices and pays, the plain row that stands for it in a place, and how it is made.
ghost use Rattle.std.specs.Prelude.{◌≡◌, ℕ, ◌≤◌, List, Result};
ghost use Rattle.std.proofs.Common.{subst};
ghost use Rattle.instruments.specs.Law.{Meaning, Lawful, ok_map};
ghost use Rattle.instruments.specs.declared.class.Class.{Class};
ghost use Rattle.instruments.specs.declared.refusal.Refusal.{Refusal};

use crate::class::Class;
use crate::refusal::Refusal;

pub trait Instrument: Copy {
    // A plain record of numbers, bound by no rule. A kind does not hold its row: what is bound of its fields would then be said of `row.coupon`
    // and its like, and each use would reach through it.
    type Row: Copy;

    // The letter by which an opening frame names the kind.
    const LETTER: char;

    // The bytes of the frame that enters one quotation: its letter, a year and the kind's numbers.
    const LENGTH: usize;

    // The same for clauses: each kind gives both, and the check holds one to the other.
    ghost LENGTH: { ℕ };

    // What an instrument means.
    ghost means: { Self → Meaning };

    // The row of an instrument.
    ghost row: { Self → Self.Row };

    // What the instrument means that a row makes: open for a row that no instrument has, and lawful for every row.
    ghost read: { Self.Row → Meaning };

    // The row of what is made for a class from a year and the kind's big-endian numbers, or why nothing is made.
    ghost making: { Class → List ℕ → Result Self.Row Refusal };

    fn maturity(&self) -> u8
        ensures { result ≡ (means self.now).maturity };

    fn price(&self) -> u64
        ensures { result ≡ (means self.now).price };

    fn payment(&self, year: u8) -> u64
        ensures { result ≡ (means self.now).payment year };

    // No `From` for rows: the laws below speak of these two, at every kind.
    fn to_row(&self) -> Self::Row
        ensures { result ≡ row self.now };

    fn of_row(from: Self::Row) -> Self
        ensures { means result ≡ read from };

    fn make(class: Class, body: &[u8]) -> Result<Self, Refusal>
        ensures { ok_map row result ≡ making class body.now };

    // A kind writes these two laws with their proof: the check finds the proof, but refuses a kind that leaves a law out.
    ghost rows: { (r : Self.Row) → Lawful (read r) };

    ghost back: { (x : Self) → read (row x) ≡ means x };

    // The law of an instrument is that of its row.
    ghost lawful: { (x : Self) → Lawful (means x) } = { λ x. subst Lawful (back x) (rows (row x)) };
}
