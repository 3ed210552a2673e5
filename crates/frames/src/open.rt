// A line before a book is open.
ghost use Rattle.std.specs.Prelude.{◌≡◌};
ghost use Rattle.instruments.specs.Law.{ok_map};
ghost use Rattle.frames.specs.Inputs.{opening_means, opening_of, frame_opens, line_opens};

use crate::answer::Answer;
use crate::frame::Frame;
use crate::letter::Letter;
use crate::opening::{Named, Opening};
use crate::session::read_line;
use curve::terms::Terms;
use instruments::class::Class;
use instruments::refusal::Refusal;

// What a frame opens.
fn opening_of(frame: Frame) -> Result<Opening, Refusal>
    ensures { ok_map opening_means result ≡ opening_of frame }
{
    let Frame::Open { kind, class, code } = frame else {
        return Err(Refusal::OutOfTurn);
    };
    Ok(Opening {
        kind: Named::try_from(kind)?,
        class: Class::try_from(class)?,
        terms: Terms::of_code(code)?,
    })
}

// What a frame opens; before a book is open only an opening is in turn.
fn frame_opens(letter: Letter, bytes: &[u8]) -> Result<Opening, Refusal>
    ensures { ok_map opening_means result ≡ frame_opens letter bytes.now }
{
    match letter {
        Letter::Open => opening_of(Frame::read(letter, bytes, 0)?),
        _ => Err(Refusal::OutOfTurn),
    }
}

// What a line opens, or the answer that refuses it.
pub(crate) fn line_opens(line: &[u8]) -> Result<Opening, Answer>
    ensures { ok_map opening_means result ≡ line_opens line.now }
{
    let (letter, bytes) = read_line(line)?;
    frame_opens(letter, &bytes).map_err(|refusal| Answer::refused(letter, refusal))
}
