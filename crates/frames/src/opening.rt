// What an opening frame opens.
ghost use Rattle.std.specs.Prelude.{◌≡◌};
ghost use Rattle.std.specs.Option.{ok_or};
ghost use Rattle.instruments.specs.declared.refusal.Refusal.TheVariants.{UnknownKind};
ghost use Rattle.frames.specs.Kinds.{kind_named};

use curve::terms::Terms;
use instruments::bond::Bond;
use instruments::class::Class;
use instruments::kind::Instrument;
use instruments::refusal::Refusal;
use instruments::swap::Swap;

// The kinds of instrument that a frame can name.
#[derive(Clone, Copy)]
pub enum Named {
    Swap,
    Bond,
}

impl TryFrom<u8> for Named {
    type Error = Refusal;

    ghost try_from_gives = { λ byte kind. kind ≡ ok_or (kind_named byte) UnknownKind };

    fn try_from(byte: u8) -> Result<Named, Refusal> {
        match byte as char {
            <Swap as Instrument>::LETTER => Ok(Named::Swap),
            <Bond as Instrument>::LETTER => Ok(Named::Bond),
            _ => Err(Refusal::UnknownKind),
        }
    }
}

// A kind of instrument, the class of insurance and the terms of a book.
#[derive(Clone, Copy)]
pub struct Opening {
    pub(crate) kind: Named,
    pub(crate) class: Class,
    pub(crate) terms: Terms,
}
