// What is answered to a line, and how it is written.
ghost use Rattle.std.specs.Prelude.{◌≡◌, ◌≤◌, [], ◌∷◌, ◌++◌, length, is_ok, if◌then◌else◌, Some, None, Ok, Err};
ghost use Rattle.frames.specs.Answers.{answer_line, figure_bytes, reply_answer, unread_answer};
ghost use Rattle.frames.specs.Digits.{hex};

use crate::digits::{Line, spell};
use crate::letter::Letter;
use crate::lines::NEWLINE;
use book::running::Reply;
use instruments::refusal::Refusal;
use std::alloc::AllocError;

// The byte that the format has for a letter where none was read.
const UNREAD: u8 = b'?';

// The letter of the frame, if one was read, and the reply.
#[derive(Clone, Copy, Debug)]
pub struct Answer {
    letter: Option<Letter>,
    reply: Reply,
}

impl Answer {
    // The answer to a frame whose letter is read.
    pub(crate) fn replied(letter: Letter, reply: Reply) -> Answer
        ensures { result ≡ reply_answer letter reply }
    {
        Answer {
            letter: Some(letter),
            reply,
        }
    }

    // A change that is accepted.
    pub fn accepted(letter: Letter) -> Answer
        ensures { result ≡ reply_answer letter (Ok None) }
    {
        Answer::replied(letter, Ok(None))
    }

    // A question that is answered by its low and its high figure.
    pub fn answered(letter: Letter, low: i64, high: i64) -> Answer
        ensures { result ≡ reply_answer letter (Ok (Some (low, high))) }
    {
        Answer::replied(letter, Ok(Some((low, high))))
    }

    // A frame that is refused after its letter is read.
    pub fn refused(letter: Letter, refusal: Refusal) -> Answer
        ensures { result ≡ reply_answer letter (Err refusal) }
    {
        Answer::replied(letter, Err(refusal))
    }

    // A line that is refused before a letter is read.
    pub fn unread(refusal: Refusal) -> Answer
        ensures { result ≡ unread_answer refusal }
    {
        Answer {
            letter: None,
            reply: Err(refusal),
        }
    }

    // Appends the line of the answer, or nothing where there is no memory. Inlined: called, it made a million questions take 445 million
    // instructions for 426.
    #[inline(always)]
    pub fn write(&self, out: &mut Vec<u8>) -> Result<(), AllocError>
        ensures { out.new.items ≡ (if is_ok result then out.old.items ++ answer_line self.now else out.old.items) }
    {
        let letter = self.letter.map_or(UNREAD, u8::from);
        match self.reply {
            Ok(None) => write_line(&[letter, 0, 0], &[], out),
            Ok(Some((low, high))) => write_line(&[letter, 0, 0], &[low, high], out),
            Err(refusal) => write_line(&[letter, refusal.number(), refusal.year()], &[], out),
        }
    }
}

// Appends a line of digits, all of it or nothing. There are at most two figures, so that the room of a line is known.
fn write_line(head: &[u8; 3], figures: &[i64], out: &mut Vec<u8>) -> Result<(), AllocError>
    requires { length figures.now ≤ 2 }
    ensures { out.new.items ≡ (if is_ok result then out.old.items ++ (hex (head.now ++ figure_bytes figures.now) ++ 10 ∷ []) else out.old.items) }
{
    let mut line = Line::new();
    spell(head, &mut line);
    for figure in figures {
        spell(&figure.to_be_bytes(), &mut line);
    }
    line.push(NEWLINE);
    out.extend_from_slice(&line)
}
