// A frame as its letter and what its body holds, before a book is asked.
ghost use Rattle.std.specs.Prelude.{◌≡◌};
ghost use Rattle.frames.specs.Frames.{frame_letter, frame_length, frame_read};

use crate::letter::Letter;
use instruments::refusal::Refusal;

// It is read before a kind of instrument is known, so it is no `Call`. The bytes of an opening stay as they came, since they are refused
// only where an opening is in turn. The body of a quotation is left to the kind of instrument that the book takes.
#[derive(Clone, Copy, Debug)]
pub enum Frame {
    Open { kind: u8, class: u8, code: [u8; 3] },
    Quote,
    Withdraw(u8),
    Post(u8, i32),
    Strike(u8),
    Settle,
    Forward(u8),
    Factor(u8),
    Rate(u8),
    Reserve,
}

impl Frame {
    // The letter of a frame's bytes; no bytes are no frame.
    pub fn letter(bytes: &[u8]) -> Result<Letter, Refusal>
        ensures { result ≡ frame_letter bytes.now }
    {
        match bytes {
            [] => Err(Refusal::Malformed),
            [first, ..] => Letter::try_from(*first),
        }
    }

    // How many bytes a frame has, its letter among them, where a quotation has so many.
    pub fn length(letter: Letter, quote_length: usize) -> usize
        ensures { result ≡ frame_length letter quote_length }
    {
        match letter {
            Letter::Open | Letter::Post => 6,
            Letter::Quote => quote_length,
            Letter::Withdraw | Letter::Strike | Letter::Forward | Letter::Factor | Letter::Rate =>
                2,
            Letter::Settle | Letter::Reserve => 1,
        }
    }

    // Reads a frame's bytes as what its letter asks. The patterns say the lengths once more, and the check holds both to one clause.
    pub fn read(letter: Letter, bytes: &[u8], quote_length: usize) -> Result<Frame, Refusal>
        ensures { result ≡ frame_read letter bytes.now quote_length }
    {
        match (letter, bytes) {
            (Letter::Open, &[_, kind, class, a, b, c]) => Ok(Frame::Open {
                kind,
                class,
                code: [a, b, c],
            }),
            (Letter::Quote, _) if bytes.len() == Frame::length(letter, quote_length) => {
                Ok(Frame::Quote)
            }
            (Letter::Withdraw, &[_, year]) => Ok(Frame::Withdraw(year)),
            (Letter::Post, &[_, year, a, b, c, d]) => {
                Ok(Frame::Post(year, i32::from_be_bytes([a, b, c, d])))
            }
            (Letter::Strike, &[_, year]) => Ok(Frame::Strike(year)),
            (Letter::Settle, [_]) => Ok(Frame::Settle),
            (Letter::Forward, &[_, year]) => Ok(Frame::Forward(year)),
            (Letter::Factor, &[_, year]) => Ok(Frame::Factor(year)),
            (Letter::Rate, &[_, year]) => Ok(Frame::Rate(year)),
            (Letter::Reserve, [_]) => Ok(Frame::Reserve),
            _ => Err(Refusal::WrongLength),
        }
    }
}
