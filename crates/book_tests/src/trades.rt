// Trades that are accepted, and those that are refused.
use crate::checks::numbered;
use crate::samples::{ANNE, BERT, SALE, SOUND, book_with, trade_all};
use book::Book;
use std::process::Abort;
use std::test::Fail;
use tally::deals::Deal;
use tally::keys::Party;
use tally::listings::Listing;

// That a book without trades answers so to a trade.
fn check_answer(rt: &impl Abort, deal: Deal, answer: Result<(), u32>) -> Result<(), Fail> {
    let mut book = book_with(&[7])?;
    assert_eq!(rt; numbered(book.trade(&deal)), answer);
    Ok(())
}

fn of_amount(amount: i64) -> Deal {
    Deal { amount, ..SALE }
}

fn at_moment(moment: u32) -> Deal {
    Deal { moment, ..SALE }
}

fn in_swaption(swaption: u16) -> Deal {
    Deal { swaption, ..SALE }
}

fn bought_by(buyer: Party) -> Deal {
    Deal { buyer, ..SALE }
}

fn sold_by(seller: Party) -> Deal {
    Deal { seller, ..SALE }
}

#[test]
fn amounts_in_range(rt: HostRuntime) -> Result<(), Fail> {
    check_answer(&rt, of_amount(1), Ok(()))?;
    check_answer(&rt, of_amount(2_000_000_000), Ok(()))
}

#[test]
fn amounts_out_of_range(rt: HostRuntime) -> Result<(), Fail> {
    check_answer(&rt, of_amount(0), Err(1))?;
    check_answer(&rt, of_amount(2_000_000_001), Err(1))?;
    check_answer(&rt, of_amount(-1), Err(1))?;
    check_answer(&rt, of_amount(-2_000_000_000), Err(1))?;
    check_answer(&rt, of_amount(i64::MIN), Err(1))?;
    check_answer(&rt, of_amount(i64::MAX), Err(1))
}

#[test]
fn participants_from_one(rt: HostRuntime) -> Result<(), Fail> {
    let none = Party {
        participant: 0,
        ..ANNE
    };
    let first = Party {
        participant: 1,
        ..ANNE
    };
    let last = Party {
        participant: 65_535,
        ..ANNE
    };
    check_answer(&rt, bought_by(none), Err(1))?;
    check_answer(&rt, bought_by(first), Ok(()))?;
    check_answer(&rt, bought_by(last), Ok(()))?;
    check_answer(&rt, sold_by(none), Err(1))?;
    check_answer(&rt, sold_by(Party { client: 5, ..first }), Ok(()))?;
    check_answer(&rt, sold_by(Party { client: 5, ..last }), Ok(()))
}

#[test]
fn any_client_and_desk(rt: HostRuntime) -> Result<(), Fail> {
    let least = Party {
        participant: 1,
        client: 0,
        desk: 0,
    };
    let largest = Party {
        participant: 1,
        client: 65_535,
        desk: 65_535,
    };
    check_answer(&rt, bought_by(least), Ok(()))?;
    check_answer(&rt, bought_by(largest), Ok(()))?;
    check_answer(&rt, sold_by(least), Ok(()))?;
    check_answer(&rt, sold_by(largest), Ok(()))
}

#[test]
fn a_listed_swaption(rt: HostRuntime) -> Result<(), Fail> {
    check_answer(&rt, in_swaption(7), Ok(()))?;
    check_answer(&rt, in_swaption(0), Err(1))?;
    check_answer(&rt, in_swaption(6), Err(3))?;
    check_answer(&rt, in_swaption(8), Err(3))?;
    check_answer(&rt, in_swaption(65_535), Err(3))
}

#[test]
fn two_different_sides(rt: HostRuntime) -> Result<(), Fail> {
    check_answer(&rt, sold_by(ANNE), Err(1))?;
    check_answer(&rt, bought_by(BERT), Err(1))?;
    check_answer(&rt, sold_by(Party { desk: 2, ..ANNE }), Ok(()))?;
    check_answer(&rt, sold_by(Party { client: 2, ..ANNE }), Ok(()))?;
    check_answer(
        &rt,
        sold_by(Party {
            participant: 2,
            ..ANNE
        }),
        Ok(()),
    )
}

#[test]
fn moments_before_cease(rt: HostRuntime) -> Result<(), Fail> {
    check_answer(&rt, at_moment(0), Ok(()))?;
    check_answer(&rt, at_moment(99), Ok(()))?;
    check_answer(&rt, at_moment(100), Err(5))?;
    check_answer(&rt, at_moment(101), Err(5))?;
    check_answer(&rt, at_moment(u32::MAX), Err(5))
}

#[test]
fn no_trade_where_cease_is_zero(rt: HostRuntime) -> Result<(), Fail> {
    let mut book = Book::new();
    book.list(&Listing { cease: 0, ..SOUND })?;
    assert_eq!(rt; numbered(book.trade(&at_moment(0))), Err(5));
    Ok(())
}

#[test]
fn the_last_moment_of_all(rt: HostRuntime) -> Result<(), Fail> {
    let mut book = Book::new();
    book.list(&Listing {
        cease: u32::MAX - 1,
        start: u32::MAX - 1,
        cutoff: u32::MAX,
        ..SOUND
    })?;
    assert_eq!(rt; numbered(book.trade(&at_moment(u32::MAX - 1))), Err(5));
    assert_eq!(rt; numbered(book.trade(&at_moment(u32::MAX - 2))), Ok(()));
    assert_eq!(rt; book.latest(), u32::MAX - 2);
    Ok(())
}

#[test]
fn moments_never_go_back(rt: HostRuntime) -> Result<(), Fail> {
    let mut book = book_with(&[7])?;
    trade_all(&mut book, &[at_moment(50), at_moment(50), at_moment(51)])?;
    assert_eq!(rt; book.latest(), 51);
    assert_eq!(rt; numbered(book.trade(&at_moment(50))), Err(4));
    assert_eq!(rt; numbered(book.trade(&at_moment(0))), Err(4));
    assert_eq!(rt; numbered(book.trade(&at_moment(51))), Ok(()));
    assert_eq!(rt; book.latest(), 51);
    Ok(())
}

#[test]
fn one_clock_for_all_swaptions(rt: HostRuntime) -> Result<(), Fail> {
    let mut book = book_with(&[7, 8])?;
    book.trade(&in_swaption(8))?;
    assert_eq!(rt; numbered(book.trade(&at_moment(49))), Err(4));
    assert_eq!(rt; numbered(book.trade(&at_moment(50))), Ok(()));
    Ok(())
}

#[test]
fn a_refused_moment_does_not_count(rt: HostRuntime) -> Result<(), Fail> {
    let mut book = book_with(&[7])?;
    assert_eq!(rt; numbered(book.trade(&at_moment(100))), Err(5));
    assert_eq!(rt;
        numbered(book.trade(&Deal {
            amount: 0,
            ..at_moment(90)
        },)),
        Err(1)
    );
    assert_eq!(rt; book.latest(), 0);
    assert_eq!(rt; numbered(book.trade(&at_moment(1))), Ok(()));
    assert_eq!(rt; book.latest(), 1);
    Ok(())
}

#[test]
fn the_most_traded_in_a_swaption(rt: HostRuntime) -> Result<(), Fail> {
    let mut book = book_with(&[7, 8])?;
    trade_all(&mut book, &[of_amount(1_999_999_999), of_amount(1)])?;
    assert_eq!(rt; numbered(book.trade(&of_amount(1))), Err(13));
    assert_eq!(rt; numbered(book.trade(&of_amount(2_000_000_000))), Err(13));
    assert_eq!(rt; numbered(book.trade(&in_swaption(8))), Ok(()));
    assert!(rt; book.swaptions().len() == 2);
    assert_eq!(rt; book.swaptions()[0].traded(), 2_000_000_000);
    assert_eq!(rt; book.swaptions()[1].traded(), 5);
    Ok(())
}

#[test]
fn one_trade_too_large(rt: HostRuntime) -> Result<(), Fail> {
    let mut book = book_with(&[7])?;
    trade_all(&mut book, &[of_amount(2)])?;
    assert_eq!(rt; numbered(book.trade(&of_amount(1_999_999_999))), Err(13));
    assert_eq!(rt; numbered(book.trade(&of_amount(1_999_999_998))), Ok(()));
    assert_eq!(rt; numbered(book.trade(&of_amount(1))), Err(13));
    Ok(())
}

#[test]
fn trades_back_count_too(rt: HostRuntime) -> Result<(), Fail> {
    let mut book = book_with(&[7])?;
    let back = Deal {
        buyer: BERT,
        seller: ANNE,
        ..of_amount(1_000_000_000)
    };
    trade_all(&mut book, &[of_amount(1_000_000_000), back])?;
    assert_eq!(rt; numbered(book.trade(&of_amount(1))), Err(13));
    Ok(())
}

#[test]
fn unsound_trades_first(rt: HostRuntime) -> Result<(), Fail> {
    let mut book = book_with(&[7])?;
    book.trade(&SALE)?;
    let unlisted = Deal {
        amount: 0,
        ..in_swaption(8)
    };
    let early = Deal {
        amount: 0,
        ..at_moment(49)
    };
    let late = Deal {
        seller: ANNE,
        ..at_moment(100)
    };
    assert_eq!(rt; numbered(book.trade(&unlisted)), Err(1));
    assert_eq!(rt; numbered(book.trade(&early)), Err(1));
    assert_eq!(rt; numbered(book.trade(&late)), Err(1));
    Ok(())
}

#[test]
fn not_listed_before_any_moment(rt: HostRuntime) -> Result<(), Fail> {
    let mut book = book_with(&[7])?;
    book.trade(&SALE)?;
    let early = Deal {
        moment: 49,
        ..in_swaption(8)
    };
    let late = Deal {
        moment: u32::MAX,
        ..in_swaption(8)
    };
    assert_eq!(rt; numbered(book.trade(&early)), Err(3));
    assert_eq!(rt; numbered(book.trade(&late)), Err(3));
    Ok(())
}

#[test]
fn moment_passed_before_cease(rt: HostRuntime) -> Result<(), Fail> {
    let mut book = book_with(&[7])?;
    book.list(&Listing {
        number: 8,
        cease: 200,
        ..SOUND
    })?;
    let later = Deal {
        moment: 150,
        ..in_swaption(8)
    };
    book.trade(&later)?;
    assert_eq!(rt; numbered(book.trade(&at_moment(149))), Err(4));
    assert_eq!(rt; numbered(book.trade(&at_moment(150))), Err(5));
    Ok(())
}

#[test]
fn moments_before_the_most_traded(rt: HostRuntime) -> Result<(), Fail> {
    let mut book = book_with(&[7])?;
    book.trade(&of_amount(2_000_000_000))?;
    assert_eq!(rt; numbered(book.trade(&at_moment(49))), Err(4));
    assert_eq!(rt; numbered(book.trade(&at_moment(100))), Err(5));
    assert_eq!(rt; numbered(book.trade(&at_moment(99))), Err(13));
    Ok(())
}
