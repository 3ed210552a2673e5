// The answers to what a reader gives, written as its lines come.
ghost use Rattle.std.specs.Prelude.{OnOk, IfSome};
ghost use Rattle.std.specs.Io.Buffered.{reader_remaining};
ghost use Rattle.frames.specs.Dialogues.{Answered};
ghost use Rattle.frames.specs.Promises.{InputPromise};

use crate::lines::{NEWLINE, first_line, first_newline};
use crate::responder::Responder;
use book::volume::MOST_PLACES;
use instruments::bond::BondRow;
use instruments::swap::SwapRow;
use std::alloc::Global;
use std::io;
use std::io::{BufRead, BufReader, ErrorKind, Read, Write};

// Answers the lines that a reader gives. What is answered is written before more input is waited for. Of readers and writers whose bytes are
// unknown nothing is said, nor of either where reading, writing or memory fails; when it fails is left open.
pub fn serve<R: Read + Drop, W: Write>(
    heap: Global,
    input: &mut BufReader<R>,
    out: &mut W,
) -> io::Result<()>
    ensures answers { OnOk result (Answered (reader_remaining R.remaining input.old) (W.contents out.old) (reader_remaining R.remaining input.new) (W.contents out.new)) }
    ensures promise { OnOk result (IfSome (reader_remaining R.remaining input.old) (λ bytes. InputPromise bytes)) }
{
    let mut swaps = [SwapRow::default(); MOST_PLACES];
    let mut bonds = [BondRow::default(); MOST_PLACES];
    let mut responder = Responder::new(&mut swaps, &mut bonds);
    let mut line = Vec::new(heap);
    let mut answers = Vec::new(heap);
    // a reader may never end, so the turns are counted
    for _ in 0..u64::MAX {
        // a whole line that is read already is answered where it stands
        if let Some(end) = first_newline(input.buffer()) {
            responder
                .answer(&input.buffer()[..end])
                .write(&mut answers)?;
            input.consume(end + 1);
        } else {
            out.write_all(&answers)?;
            answers.clear();
            line.clear();
            input.read_until(NEWLINE, &mut line)?;
            let Some((front, _)) = first_line(&line) else {
                return Ok(());
            };
            responder.answer(front).write(&mut answers)?;
        }
    }
    Err(io::Error::from(ErrorKind::TimedOut))
}
