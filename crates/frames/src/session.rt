// A book and its class: what a line calls, and what is answered.
ghost use Rattle.std.specs.Prelude.{◌≡◌, min, length};
ghost use Rattle.instruments.specs.Law.{ok_map};
ghost use Rattle.curve.specs.Currencies.{span};
ghost use Rattle.book.specs.Books.{call_means, register_of, rows_of};
ghost use Rattle.book.specs.Register.{opened};
ghost use Rattle.frames.specs.Reads.{bytes_read, kind_by};
ghost use Rattle.frames.specs.Sessions.{line_read, frame_call, line_outcome};

use crate::answer::Answer;
use crate::frame::Frame;
use crate::hex::{Bytes, decode};
use crate::letter::Letter;
use crate::opening::Opening;
use book::call::Call;
use book::volume::Book;
use curve::terms::Terms;
use instruments::class::Class;
use instruments::kind::Instrument;
use instruments::refusal::Refusal;

// Reads a line's letter and its bytes, or answers that it is refused unread. The two are no struct, since the public `Frame::read` takes
// them apart. Inlined, since its result is large to pass on.
#[inline(always)]
pub(crate) fn read_line(line: &[u8]) -> Result<(Letter, Bytes), Answer>
    ensures { ok_map bytes_read result ≡ line_read line.now }
{
    let bytes = decode(line).ok_or(Answer::unread(Refusal::Malformed))?;
    let letter = Frame::letter(&bytes).map_err(Answer::unread)?;
    Ok((letter, bytes))
}

// The call that a frame makes on an open book of a kind.
fn call_of<K: Instrument>(class: Class, letter: Letter, bytes: &[u8]) -> Result<Call<K>, Refusal>
    ensures { ok_map (call_means K.means) result ≡ frame_call (kind_by K.Instrument class) letter bytes.now }
{
    if letter == Letter::Open {
        return Err(Refusal::OutOfTurn);
    }
    match Frame::read(letter, bytes, K::LENGTH)? {
        Frame::Open { .. } => Err(Refusal::OutOfTurn),
        Frame::Quote => {
            let body = bytes.get(1..).unwrap_or(&[]);
            Ok(Call::Enter(K::make(class, body)?))
        }
        Frame::Withdraw(maturity) => Ok(Call::Withdraw(maturity)),
        Frame::Post(year, amount) => Ok(Call::Post(year, amount)),
        Frame::Strike(year) => Ok(Call::Strike(year)),
        Frame::Settle => Ok(Call::Settle),
        Frame::Forward(year) => Ok(Call::Forward(year)),
        Frame::Factor(year) => Ok(Call::Factor(year)),
        Frame::Rate(year) => Ok(Call::Rate(year)),
        Frame::Reserve => Ok(Call::Reserve),
    }
}

// A book, and the class of insurance that it values once it is open.
#[derive(Drop)]
pub(crate) struct Session<'a, K: Instrument> {
    pub(crate) book: Book<'a, K>,
    pub(crate) class: Class,
}

impl<'a, K: Instrument> Session<'a, K> {
    // No book is open yet: it has no terms and no class of its own.
    pub(crate) fn shut(places: &'a mut [K::Row]) -> Session<'a, K>
        ensures { rows_of result.book ≡ places.old }
    {
        Session {
            book: Book::open(Terms::unblended(), places),
            class: Class::OccupationalPension,
        }
    }

    // Opens a book, which uses up to 60 of the places.
    pub(crate) fn reopen(&mut self, opening: Opening)
        ensures class { self.new.class ≡ opening.class }
        ensures register { register_of K.read self.new.book ≡ opened (span opening.terms) (min 60 (length (rows_of self.old.book))) }
    {
        self.book.reopen(opening.terms);
        self.class = opening.class;
    }

    // The answer to a line.
    pub(crate) fn answer(&mut self, line: &[u8]) -> Answer
        ensures class { self.new.class ≡ self.old.class }
        ensures outcome { (register_of K.read self.new.book, result) ≡ line_outcome (kind_by K.Instrument self.old.class) (register_of K.read self.old.book) line.now }
    {
        // no `map_or_else` for this match or the next: with a closure that changes the book the check did not prove `outcome`
        let (letter, bytes) = match read_line(line) {
            Ok(read) => read,
            Err(refused) => return refused,
        };
        match call_of::<K>(self.class, letter, &bytes) {
            Ok(call) => Answer::replied(letter, self.book.call(call)),
            Err(refusal) => Answer::refused(letter, refusal),
        }
    }
}
