// The class of insurance that a book values, which decides the deduction from a quotation (FFFS 2013:23, chapter 2, section 4).
ghost use Rattle.std.specs.Prelude.{◌≡◌};
ghost use Rattle.std.specs.Option.{ok_or};
ghost use Rattle.instruments.specs.Classes.{class_named};
ghost use Rattle.instruments.specs.Deductions.{deduction};
ghost use Rattle.instruments.specs.declared.refusal.Refusal.TheVariants.{UnknownKind};

use crate::refusal::Refusal;

#[derive(Clone, Copy, PartialEq, Eq, Debug)]
pub enum Class {
    OccupationalPension,
    OtherInsurance,
}

impl Class {
    // The deduction from a quotation, in ppm.
    pub fn deduction(self) -> u32
        ensures { result ≡ deduction self }
    {
        match self {
            Class::OccupationalPension => 3_500,
            Class::OtherInsurance => 5_500,
        }
    }
}

// The byte by which a frame names the class.
impl TryFrom<u8> for Class {
    type Error = Refusal;

    ghost try_from_gives = { λ byte class. class ≡ ok_or (class_named byte) UnknownKind };

    fn try_from(byte: u8) -> Result<Class, Refusal> {
        match byte {
            0 => Ok(Class::OccupationalPension),
            1 => Ok(Class::OtherInsurance),
            _ => Err(Refusal::UnknownKind),
        }
    }
}
