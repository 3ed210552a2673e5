// The letter that begins a frame, which says what is asked.
ghost use Rattle.std.specs.Prelude.{◌≡◌};
ghost use Rattle.std.specs.Option.{ok_or};
ghost use Rattle.instruments.specs.declared.refusal.Refusal.TheVariants.{UnknownLetter};
ghost use Rattle.frames.specs.Letters.{letter_at, letter_code};

use instruments::refusal::Refusal;

#[derive(Clone, Copy, PartialEq, Eq, Debug)]
pub enum Letter {
    Open,
    Quote,
    Withdraw,
    Post,
    Strike,
    Settle,
    Forward,
    Factor,
    Rate,
    Reserve,
}

impl TryFrom<u8> for Letter {
    type Error = Refusal;

    ghost try_from_gives = { λ byte letter. letter ≡ ok_or (letter_at byte) UnknownLetter };

    fn try_from(byte: u8) -> Result<Letter, Refusal> {
        match byte {
            b'O' => Ok(Letter::Open),
            b'Q' => Ok(Letter::Quote),
            b'W' => Ok(Letter::Withdraw),
            b'P' => Ok(Letter::Post),
            b'X' => Ok(Letter::Strike),
            b'S' => Ok(Letter::Settle),
            b'F' => Ok(Letter::Forward),
            b'D' => Ok(Letter::Factor),
            b'Z' => Ok(Letter::Rate),
            b'R' => Ok(Letter::Reserve),
            _ => Err(Refusal::UnknownLetter),
        }
    }
}

impl From<Letter> for u8 {
    ghost from_gives = { λ letter byte. byte ≡ letter_code letter };

    fn from(letter: Letter) -> u8 {
        match letter {
            Letter::Open => b'O',
            Letter::Quote => b'Q',
            Letter::Withdraw => b'W',
            Letter::Post => b'P',
            Letter::Strike => b'X',
            Letter::Settle => b'S',
            Letter::Forward => b'F',
            Letter::Factor => b'D',
            Letter::Rate => b'Z',
            Letter::Reserve => b'R',
        }
    }
}
