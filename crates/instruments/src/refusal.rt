// Why a line, a call or a value is refused, and how that is answered: by a number and a year.
ghost use Rattle.std.specs.Prelude.{◌≡◌, Some};

use std::fmt;

// A year in a case is the one that the refusal reports.
#[derive(Clone, Copy, PartialEq, Eq, Debug)]
pub enum Refusal {
    Malformed,
    UnknownLetter,
    OutOfTurn,
    WrongLength,
    UnknownKind,
    BadCode,
    BadMaturity(u8),
    BadQuotation(u8),
    BadPrice(u8),
    AfterConvergence(u8),
    MaturityHeld(u8),
    NoPlaceLeft(u8),
    NoneHeld(u8),
    BadYear(u8),
    BadAmount(u8),
    FlowHeld(u8),
    NoFlow(u8),
    TooShort(u8),
    ForwardBelowRange(u8),
    ForwardAboveRange(u8),
    ForwardTooWide(u8),
    NotSettled,
    OutsideHorizon(u8),
}

impl Refusal {
    ghost use Rattle.instruments.specs.Refusals.{reported};

    // The format of the answers gives each case its number.
    pub fn number(&self) -> u8
        ensures { result ≡ (reported self.now).number }
    {
        match self {
            Refusal::Malformed => 1,
            Refusal::UnknownLetter => 2,
            Refusal::OutOfTurn => 3,
            Refusal::WrongLength => 4,
            Refusal::UnknownKind => 5,
            Refusal::BadCode => 6,
            Refusal::BadMaturity(_) => 7,
            Refusal::BadQuotation(_) => 8,
            Refusal::BadPrice(_) => 9,
            Refusal::AfterConvergence(_) => 10,
            Refusal::MaturityHeld(_) => 11,
            Refusal::NoPlaceLeft(_) => 12,
            Refusal::NoneHeld(_) => 13,
            Refusal::BadYear(_) => 14,
            Refusal::BadAmount(_) => 15,
            Refusal::FlowHeld(_) => 16,
            Refusal::NoFlow(_) => 17,
            Refusal::TooShort(_) => 18,
            Refusal::ForwardBelowRange(_) => 19,
            Refusal::ForwardAboveRange(_) => 20,
            Refusal::ForwardTooWide(_) => 21,
            Refusal::NotSettled => 22,
            Refusal::OutsideHorizon(_) => 23,
        }
    }

    // The format has a year in each refusal: 0 where the case has none.
    pub fn year(&self) -> u8
        ensures { result ≡ (reported self.now).year }
    {
        match self {
            Refusal::Malformed
            | Refusal::UnknownLetter
            | Refusal::OutOfTurn
            | Refusal::WrongLength
            | Refusal::UnknownKind
            | Refusal::BadCode
            | Refusal::NotSettled => 0,
            Refusal::BadMaturity(year)
            | Refusal::BadQuotation(year)
            | Refusal::BadPrice(year)
            | Refusal::AfterConvergence(year)
            | Refusal::MaturityHeld(year)
            | Refusal::NoPlaceLeft(year)
            | Refusal::NoneHeld(year)
            | Refusal::BadYear(year)
            | Refusal::BadAmount(year)
            | Refusal::FlowHeld(year)
            | Refusal::NoFlow(year)
            | Refusal::TooShort(year)
            | Refusal::ForwardBelowRange(year)
            | Refusal::ForwardAboveRange(year)
            | Refusal::ForwardTooWide(year)
            | Refusal::OutsideHorizon(year) => *year,
        }
    }
}

impl fmt::Display for Refusal {
    ghost use Rattle.instruments.specs.Refusals.{refusal_text};

    ghost output = { λ refusal. Some (refusal_text refusal) };

    fn fmt<W: fmt::Write>(&self, f: &mut fmt::Formatter<W>) -> fmt::Result {
        let number = self.number();
        let year = self.year();
        write!(f, "number {number}, year {year}")
    }
}
