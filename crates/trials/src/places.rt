// What calls leave: the rows in the places lent, and whether the book is settled.
use crate::follow::Answer::*;
use crate::follow::{answered, follow, swap, swap_row};
use book::call::Call::*;
use book::running::run;
use book::volume::Book;
use curve::terms::Terms;
use instruments::swap::{Swap, SwapRow};
use std::test::Fail;

#[test]
fn rows_lent(rt: HostRuntime) -> Result<(), Fail> {
    let lent = [
        swap_row(70, 4),
        swap_row(0, -1),
        swap_row(90, 6),
        swap_row(8, 7),
    ];
    let mut rows = lent;
    follow::<Swap>(&rt, *b"SEK", &mut rows, &[(Settle, Refused(18, 0))])?;
    assert_eq!(rt; rows, lent);
    let calls = [(swap(9, 3), Done), (swap(2, 1), Done), (swap(5, 2), Done)];
    follow(&rt, *b"SEK", &mut rows, &calls)?;
    assert_eq!(rt;
        rows,
        [swap_row(2, 1), swap_row(5, 2), swap_row(9, 3), lent[3]]
    );
    Ok(())
}

#[test]
fn rows_after_refusals(rt: HostRuntime) -> Result<(), Fail> {
    let mut rows = [SwapRow::default(), SwapRow::default(), swap_row(60, 8)];
    let calls = [
        (swap(5, 2), Done),
        (swap(2, 1), Done),
        (swap(5, 9), Refused(11, 5)),
        (swap(21, 9), Refused(10, 21)),
        (Withdraw(3), Refused(13, 3)),
        (Settle, Refused(18, 5)),
    ];
    follow(&rt, *b"SEK", &mut rows, &calls)?;
    assert_eq!(rt; rows, [swap_row(2, 1), swap_row(5, 2), swap_row(60, 8)]);
    let calls = [
        (swap(2, 1), Done),
        (swap(5, 2), Done),
        (swap(4, 9), Refused(12, 4)),
    ];
    follow(&rt, *b"SEK", &mut rows[0..2], &calls)?;
    assert_eq!(rt; rows, [swap_row(2, 1), swap_row(5, 2), swap_row(60, 8)]);
    Ok(())
}

#[test]
fn rows_after_withdrawals(rt: HostRuntime) -> Result<(), Fail> {
    let mut rows = [swap_row(60, 8); 4];
    let calls = [
        (swap(2, 1), Done),
        (swap(5, 2), Done),
        (swap(9, 3), Done),
        (Withdraw(2), Done),
    ];
    follow(&rt, *b"XXX", &mut rows, &calls)?;
    assert_eq!(rt;
        rows,
        [
            swap_row(5, 2),
            swap_row(9, 3),
            swap_row(9, 3),
            swap_row(60, 8),
        ]
    );
    let calls = [(swap(7, 4), Done), (Withdraw(7), Done)];
    follow(&rt, *b"XXX", &mut rows, &calls)?;
    assert_eq!(rt;
        rows,
        [
            swap_row(7, 4),
            swap_row(9, 3),
            swap_row(9, 3),
            swap_row(60, 8),
        ]
    );
    Ok(())
}

#[test]
fn sixty_places(rt: HostRuntime) -> Result<(), Fail> {
    let mut rows = [SwapRow::default(); 62];
    let mut book = Book::open(Terms::of_code(*b"XXX")?, &mut rows);
    for maturity in (1..=60).rev() {
        assert_eq!(rt; answered(book.call(swap(maturity, 0))), Done);
    }
    assert_eq!(rt; answered(book.call(swap(61, 0))), Refused(12, 61));
    assert_eq!(rt; answered(book.call(swap(60, 0))), Refused(11, 60));
    assert_eq!(rt; rows[0], swap_row(1, 0));
    assert_eq!(rt; rows[59], swap_row(60, 0));
    assert_eq!(rt; rows[60], swap_row(0, 0));
    Ok(())
}

#[test]
fn unsettled_by_quotations(rt: HostRuntime) -> Result<(), Fail> {
    let calls = [
        (swap(3, 23_500), Done),
        (Settle, Done),
        (swap(3, 0), Refused(11, 3)),
        (Withdraw(1), Refused(13, 1)),
        (Forward(1), Figures(19_999_999, 20_000_001)),
        (swap(1, 13_500), Done),
        (Forward(1), Refused(22, 0)),
        (Settle, Done),
        (Settle, Done),
        (swap(2, 0), Refused(12, 2)),
        (Forward(1), Figures(9_999_998, 10_000_002)),
        (Forward(3), Figures(25_189_704, 25_189_708)),
        (Withdraw(1), Done),
        (Reserve, Refused(22, 0)),
        (Settle, Done),
        (Forward(1), Figures(19_999_999, 20_000_001)),
    ];
    follow(&rt, *b"XXX", &mut [SwapRow::default(); 2], &calls)
}

#[test]
fn flows_leave_book_settled(rt: HostRuntime) -> Result<(), Fail> {
    let calls = [
        (swap(1, 23_500), Done),
        (Settle, Done),
        (Post(1, 1_000), Done),
        (Reserve, Figures(98_039, 98_040)),
        (Post(1, 7), Refused(16, 1)),
        (Post(0, 7), Refused(14, 0)),
        (Strike(2), Refused(17, 2)),
        (Reserve, Figures(98_039, 98_040)),
        (Strike(1), Done),
        (Reserve, Figures(0, 0)),
        (Factor(1), Figures(980_392_155, 980_392_158)),
    ];
    follow(&rt, *b"XXX", &mut [SwapRow::default(); 2], &calls)
}

#[test]
fn rows_after_a_run(rt: HostRuntime) -> Result<(), Fail> {
    let mut rows = [swap_row(60, 8); 4];
    let terms = Terms::of_code(*b"XXX")?;
    let calls = [
        swap(5, 2),
        swap(2, 1),
        swap(5, 9),
        Settle,
        Withdraw(2),
        swap(9, 3),
        Withdraw(5),
    ];
    let replies = run(rt.alloc(), terms, &mut rows, &calls)?;
    assert_eq!(rt; answered(replies[2]), Refused(11, 5));
    assert_eq!(rt;
        rows,
        [
            swap_row(9, 3),
            swap_row(9, 3),
            swap_row(60, 8),
            swap_row(60, 8),
        ]
    );
    Ok(())
}
