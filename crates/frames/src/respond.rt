// The answers to a whole input.
ghost use Rattle.std.specs.Prelude.{◌≡◌, IfOk, OnOk};
ghost use Rattle.frames.specs.Inputs.{input_answers};
ghost use Rattle.frames.specs.Promises.{InputPromise};

use crate::lines::Lines;
use crate::responder::Responder;
use book::volume::MOST_PLACES;
use instruments::bond::BondRow;
use instruments::swap::SwapRow;
use std::alloc::{AllocError, Global};

// Answers an input: a line for each of its lines.
pub fn respond(heap: Global, input: &[u8]) -> Result<Vec<u8>, AllocError>
    ensures answers { IfOk result (λ out. out.items ≡ input_answers input.now) }
    ensures promise { OnOk result (InputPromise input.now) }
{
    let mut swaps = [SwapRow::default(); MOST_PLACES];
    let mut bonds = [BondRow::default(); MOST_PLACES];
    let mut responder = Responder::new(&mut swaps, &mut bonds);
    let mut out = Vec::new(heap);
    for line in Lines::new(input) {
        responder.answer(line).write(&mut out)?;
    }
    Ok(out)
}
