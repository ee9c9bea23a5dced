// Books with as many positions as there may be, or nearly.
use crate::checks::{check_same, numbered};
use crate::samples::{ANNE, BERT, SALE, book_with};
use book::Book;
use std::process::Abort;
use std::test::Fail;
use tally::deals::Deal;
use tally::keys::Party;

// Whoever buys in a book that is filled.
const HUB: Party = Party {
    participant: 1_000,
    client: 0,
    desk: 0,
};

// Whoever sells first in a book that is filled.
const FIRST: Party = Party {
    participant: 1,
    client: 0,
    desk: 0,
};

// A book with so many positions in swaption 7, and none in 8.
fn filled(rt: &impl Abort, positions: u16) -> Result<Book, Fail> {
    let mut book = book_with(&[7, 8])?;
    for participant in 1..positions {
        book.trade(&Deal {
            buyer: HUB,
            seller: Party {
                participant,
                client: 0,
                desk: 0,
            },
            amount: 1,
            ..SALE
        })?;
    }
    assert_eq!(rt; book.positions().len(), usize::from(positions));
    Ok(book)
}

// That a book with so many positions accepts a trade, and then has so many.
fn check_accepted(rt: &impl Abort, positions: u16, deal: Deal, after: usize) -> Result<(), Fail> {
    let mut book = filled(rt, positions)?;
    assert_eq!(rt; numbered(book.trade(&deal)), Ok(()));
    assert_eq!(rt; book.positions().len(), after);
    Ok(())
}

// That a book with so many positions refuses a trade and stays as it is.
fn check_full(rt: &impl Abort, positions: u16, deal: Deal) -> Result<(), Fail> {
    let mut book = filled(rt, positions)?;
    assert_eq!(rt; numbered(book.trade(&deal)), Err(14));
    check_same(rt, &book, &filled(rt, positions)?);
    Ok(())
}

fn between(buyer: Party, seller: Party) -> Deal {
    Deal {
        buyer,
        seller,
        ..SALE
    }
}

#[test]
fn two_more_at_254(rt: HostRuntime) -> Result<(), Fail> {
    check_accepted(&rt, 254, between(ANNE, BERT), 256)?;
    check_accepted(&rt, 254, between(BERT, ANNE), 256)
}

#[test]
fn two_more_at_255(rt: HostRuntime) -> Result<(), Fail> {
    check_full(&rt, 255, between(ANNE, BERT))?;
    check_full(&rt, 255, between(BERT, ANNE))
}

#[test]
fn one_more_at_255(rt: HostRuntime) -> Result<(), Fail> {
    check_accepted(&rt, 255, between(ANNE, HUB), 256)?;
    check_accepted(&rt, 255, between(FIRST, ANNE), 256)
}

#[test]
fn none_more_at_255(rt: HostRuntime) -> Result<(), Fail> {
    check_accepted(&rt, 255, between(FIRST, HUB), 255)
}

#[test]
fn two_more_at_256(rt: HostRuntime) -> Result<(), Fail> {
    check_full(&rt, 256, between(ANNE, BERT))
}

#[test]
fn one_more_at_256(rt: HostRuntime) -> Result<(), Fail> {
    check_full(&rt, 256, between(ANNE, HUB))?;
    check_full(&rt, 256, between(FIRST, ANNE))
}

#[test]
fn none_more_at_256(rt: HostRuntime) -> Result<(), Fail> {
    check_accepted(&rt, 256, between(FIRST, HUB), 256)
}

#[test]
fn one_limit_for_all_swaptions(rt: HostRuntime) -> Result<(), Fail> {
    let in_eight = Deal {
        swaption: 8,
        ..between(FIRST, HUB)
    };
    check_accepted(&rt, 254, in_eight, 256)?;
    check_full(&rt, 255, in_eight)?;
    check_full(&rt, 256, in_eight)
}

#[test]
fn the_most_traded_before_a_full_book(rt: HostRuntime) -> Result<(), Fail> {
    let mut book = filled(&rt, 256)?;
    book.trade(&Deal {
        amount: 1_999_999_745,
        ..between(FIRST, HUB)
    })?;
    assert_eq!(rt; numbered(book.trade(&SALE)), Err(13));
    assert_eq!(rt;
        numbered(book.trade(&Deal {
            swaption: 8,
            ..SALE
        },)),
        Err(14)
    );
    Ok(())
}

#[test]
fn every_other_refusal_before_a_full_book(rt: HostRuntime) -> Result<(), Fail> {
    let mut book = filled(&rt, 256)?;
    assert_eq!(rt; numbered(book.trade(&Deal { amount: 0, ..SALE })), Err(1));
    assert_eq!(rt;
        numbered(book.trade(&Deal {
            swaption: 9,
            ..SALE
        },)),
        Err(3)
    );
    assert_eq!(rt; numbered(book.trade(&Deal { moment: 49, ..SALE })), Err(4));
    assert_eq!(rt;
        numbered(book.trade(&Deal {
            moment: 100,
            ..SALE
        },)),
        Err(5)
    );
    assert_eq!(rt; numbered(book.trade(&SALE)), Err(14));
    Ok(())
}
