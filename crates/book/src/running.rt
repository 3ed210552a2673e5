// A book through a list of calls, from opening on.
ghost use Rattle.std.specs.Prelude.{◌≡◌, if◌then◌else◌, min, map, length, is_ok, IfOk};
ghost use Rattle.std.specs.Result.{OnOk};
ghost use Rattle.curve.specs.Currencies.{span};
ghost use Rattle.book.specs.Books.{call_means};
ghost use Rattle.book.specs.Promise.{Promise, after};
ghost use Rattle.book.specs.Register.{opened};
ghost use Rattle.book.specs.Runs.{Answers, rows_run, Holds};

use crate::call::Call;
pub use crate::call::Reply;
use crate::volume::Book;
use curve::terms::Terms;
use instruments::kind::Instrument;
use std::alloc::{AllocError, Global};

// Runs a list of calls from opening on, and gives the answer to each. Memory for the answers is had before the first call, so that the places
// keep what they had where there is none.
pub fn run<K: Instrument>(
    heap: Global,
    terms: Terms,
    rows: &mut [K::Row],
    calls: &[Call<K>],
) -> Result<Vec<Reply>, AllocError>
    ensures answers { IfOk result (Answers (span terms) (min 60 (length rows.old)) (map (call_means K.means) calls.now)) }
    ensures places { rows.new ≡ (if is_ok result then rows_run K.Instrument.row K.means (opened (span terms) (min 60 (length rows.old))) rows.old calls.now else rows.old) }
    ensures held { OnOk result (Holds K.read (after (opened (span terms) (min 60 (length rows.old))) (map (call_means K.means) calls.now)) rows.new) }
    ensures promise { Promise (span terms) (min 60 (length rows.old)) (map (call_means K.means) calls.now) }
{
    let mut replies = Vec::with_capacity(heap, calls.len())?;
    let mut book = Book::open(terms, rows);
    for call in calls {
        replies.push(book.call(*call))?;
    }
    Ok(replies)
}
