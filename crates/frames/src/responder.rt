// Lines as they come: what has been opened so far, and the answer to the next one.
ghost use Rattle.std.specs.Prelude.{◌≡◌, length, Some, None};
ghost use Rattle.curve.specs.Currencies.{span};
ghost use Rattle.book.specs.Books.{rows_of};
ghost use Rattle.book.specs.Register.{opened};
ghost use Rattle.frames.specs.Inputs.{kind_for, stage_outcome};
ghost use Rattle.frames.specs.Promises.{Keeps};

use crate::answer::Answer;
use crate::letter::Letter;
use crate::open::line_opens;
use crate::opening::{Named, Opening};
use crate::session::Session;
use book::volume::MOST_PLACES;
use instruments::bond::{Bond, BondRow};
use instruments::swap::{Swap, SwapRow};

// A book of each kind of instrument, of which the one that a line opened is in use.
#[derive(Drop)]
pub struct Responder<'a> {
    in_use: Option<Named>,
    swaps: Session<'a, Swap>,
    bonds: Session<'a, Bond>,
    ghost room: { in_use ≡ None → (length (rows_of swaps.book) ≡ 60) × (length (rows_of bonds.book) ≡ 60) },
}

impl<'a> Responder<'a> {
    ghost use Rattle.frames.specs.Stages.{stage_of};

    // No book is open. The places are lent for the one that a line will open; what they hold then is left open.
    pub fn new(
        swaps: &'a mut [SwapRow; MOST_PLACES],
        bonds: &'a mut [BondRow; MOST_PLACES],
    ) -> Responder<'a>
        ensures stage { stage_of result ≡ None }
        ensures promise { Keeps None }
    {
        Responder {
            in_use: None,
            swaps: Session::shut(swaps),
            bonds: Session::shut(bonds),
        }
    }

    // Opens the book of a kind.
    fn open(&mut self, opening: Opening)
        requires { self.old.in_use ≡ None }
        ensures { stage_of self.new ≡ Some (kind_for opening.kind opening.class, opened (span opening.terms) 60) }
    {
        match opening.kind {
            Named::Swap => self.swaps.reopen(opening),
            Named::Bond => self.bonds.reopen(opening),
        }
        self.in_use = Some(opening.kind);
    }

    // The answer to the next line, given without its newline.
    pub fn answer(&mut self, line: &[u8]) -> Answer
        ensures { (stage_of self.new, result) ≡ stage_outcome (stage_of self.old) line.now }
    {
        match self.in_use {
            Some(Named::Swap) => self.swaps.answer(line),
            Some(Named::Bond) => self.bonds.answer(line),
            None => match line_opens(line) {
                Ok(opening) => {
                    self.open(opening);
                    Answer::accepted(Letter::Open)
                }
                Err(refused) => refused,
            },
        }
    }
}
