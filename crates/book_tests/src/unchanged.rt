// A refusal leaves the book as it was.
use crate::checks::{check_same, numbered};
use crate::samples::{ANNE, BERT, CARL, SALE, SOUND, book_with, trade_all};
use book::Book;
use refusals::Refusal;
use std::process::Abort;
use std::test::Fail;
use tally::deals::Deal;
use tally::listings::Listing;

// Swaptions 7 and 8 with trades in both, and as much traded in 8 as may be.
fn traded_book() -> Result<Book, Fail> {
    let mut book = book_with(&[8, 7])?;
    let rest = Deal {
        swaption: 8,
        buyer: CARL,
        seller: ANNE,
        amount: 2_000_000_000,
        moment: 60,
    };
    trade_all(&mut book, &[SALE, rest])?;
    Ok(book)
}

// That a call on such a book is refused with a number, and leaves it as it was.
fn check_refused<F>(rt: &impl Abort, call: F, number: u32) -> Result<(), Fail>
where
    F: FnOnce(&mut Book) -> Result<(), Refusal>,
    requires { F.IsAlwaysCallable call }
{
    let mut book = traded_book()?;
    assert_eq!(rt; numbered(call(&mut book)), Err(number));
    check_same(rt, &book, &traded_book()?);
    Ok(())
}

fn check_trade_refused(rt: &impl Abort, deal: Deal, number: u32) -> Result<(), Fail> {
    check_refused(rt, |book| book.trade(&deal), number)
}

fn check_list_refused(rt: &impl Abort, listing: Listing, number: u32) -> Result<(), Fail> {
    check_refused(rt, |book| book.list(&listing), number)
}

// By a buyer without a position in it, at a moment that would be the latest.
const LATER: Deal = Deal {
    swaption: 7,
    buyer: CARL,
    seller: ANNE,
    amount: 3,
    moment: 70,
};

#[test]
fn by_an_unsound_list(rt: HostRuntime) -> Result<(), Fail> {
    check_list_refused(&rt, Listing { number: 0, ..SOUND }, 1)?;
    check_list_refused(
        &rt,
        Listing {
            number: 9,
            kind: 3,
            ..SOUND
        },
        1,
    )
}

#[test]
fn by_a_second_list(rt: HostRuntime) -> Result<(), Fail> {
    check_list_refused(&rt, SOUND, 2)?;
    check_list_refused(
        &rt,
        Listing {
            number: 8,
            cease: 50,
            ..SOUND
        },
        2,
    )
}

#[test]
fn by_a_seventeenth_swaption(rt: HostRuntime) -> Result<(), Fail> {
    let numbers = [2, 3, 4, 5, 6, 7, 8, 9, 10, 11, 12, 13, 14, 15, 16, 17];
    let mut book = book_with(&numbers)?;
    trade_all(&mut book, &[SALE])?;
    let mut twin = book_with(&numbers)?;
    trade_all(&mut twin, &[SALE])?;
    assert_eq!(rt;
        numbered(book.list(&Listing { number: 1, ..SOUND })),
        Err(14)
    );
    check_same(&rt, &book, &twin);
    Ok(())
}

#[test]
fn by_an_unsound_trade(rt: HostRuntime) -> Result<(), Fail> {
    check_trade_refused(
        &rt,
        Deal {
            swaption: 0,
            ..LATER
        },
        1,
    )?;
    check_trade_refused(&rt, Deal { amount: 0, ..LATER }, 1)?;
    check_trade_refused(
        &rt,
        Deal {
            buyer: ANNE,
            ..LATER
        },
        1,
    )
}

#[test]
fn by_a_trade_in_no_swaption(rt: HostRuntime) -> Result<(), Fail> {
    check_trade_refused(
        &rt,
        Deal {
            swaption: 9,
            ..LATER
        },
        3,
    )
}

#[test]
fn by_a_trade_too_early(rt: HostRuntime) -> Result<(), Fail> {
    check_trade_refused(
        &rt,
        Deal {
            moment: 59,
            ..LATER
        },
        4,
    )
}

#[test]
fn by_a_trade_too_late(rt: HostRuntime) -> Result<(), Fail> {
    check_trade_refused(
        &rt,
        Deal {
            moment: 100,
            ..LATER
        },
        5,
    )
}

#[test]
fn by_a_trade_too_large(rt: HostRuntime) -> Result<(), Fail> {
    check_trade_refused(
        &rt,
        Deal {
            swaption: 8,
            ..LATER
        },
        13,
    )?;
    check_trade_refused(
        &rt,
        Deal {
            swaption: 8,
            seller: BERT,
            ..LATER
        },
        13,
    )
}

#[test]
fn not_by_an_accepted_trade(rt: HostRuntime) -> Result<(), Fail> {
    let mut book = traded_book()?;
    let before = book.positions().len();
    assert_eq!(rt; numbered(book.trade(&LATER)), Ok(()));
    assert_eq!(rt; before, 4);
    assert_eq!(rt; book.positions().len(), 5);
    assert_eq!(rt; book.latest(), 70);
    Ok(())
}
