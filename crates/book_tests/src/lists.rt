// Swaptions that are listed, and those that are refused.
use crate::checks::{check_numbers, numbered};
use crate::samples::{SOUND, book_with};
use book::Book;
use prices::{Kind, Payoff};
use std::test::Fail;
use tally::listings::{Blocks, Listing, Terms};

const SIXTEEN: [u16; 16] = [1, 2, 3, 4, 5, 6, 7, 8, 9, 10, 11, 12, 13, 14, 15, 16];

// What an empty book answers to a listing.
fn answer_to(listing: Listing) -> Result<(), u32> {
    let mut book = Book::new();
    numbered(book.list(&listing))
}

fn numbered_as(number: u16) -> Listing {
    Listing { number, ..SOUND }
}

fn with_kind(kind: u16) -> Listing {
    Listing { kind, ..SOUND }
}

fn with_strike(strike: u32) -> Listing {
    Listing { strike, ..SOUND }
}

fn with_minimum(minimum: u64) -> Listing {
    Listing { minimum, ..SOUND }
}

fn with_blocks(exercise: u32, assignment: u32) -> Listing {
    Listing {
        blocks: Blocks {
            exercise,
            assignment,
        },
        ..SOUND
    }
}

fn with_moments(cease: u32, start: u32, cutoff: u32) -> Listing {
    Listing {
        cease,
        start,
        cutoff,
        ..SOUND
    }
}

#[test]
fn numbers_from_one(rt: HostRuntime) {
    assert_eq!(rt; answer_to(numbered_as(0)), Err(1));
    assert_eq!(rt; answer_to(numbered_as(1)), Ok(()));
    assert_eq!(rt; answer_to(numbered_as(65_535)), Ok(()));
}

#[test]
fn any_index(rt: HostRuntime) {
    assert_eq!(rt; answer_to(Listing { index: 0, ..SOUND }), Ok(()));
    assert_eq!(rt;
        answer_to(Listing {
            index: 65_535,
            ..SOUND
        }),
        Ok(())
    );
}

#[test]
fn payers_and_receivers(rt: HostRuntime) {
    assert_eq!(rt; answer_to(with_kind(0)), Err(1));
    assert_eq!(rt; answer_to(with_kind(1)), Ok(()));
    assert_eq!(rt; answer_to(with_kind(2)), Ok(()));
    assert_eq!(rt; answer_to(with_kind(3)), Err(1));
    assert_eq!(rt; answer_to(with_kind(65_535)), Err(1));
}

#[test]
fn strikes(rt: HostRuntime) {
    assert_eq!(rt; answer_to(with_strike(0)), Ok(()));
    assert_eq!(rt; answer_to(with_strike(200_000)), Ok(()));
    assert_eq!(rt; answer_to(with_strike(200_001)), Err(1));
    assert_eq!(rt; answer_to(with_strike(u32::MAX)), Err(1));
}

#[test]
fn exercise_blocks(rt: HostRuntime) {
    assert_eq!(rt; answer_to(with_blocks(0, 1)), Ok(()));
    assert_eq!(rt; answer_to(with_blocks(1, 1)), Ok(()));
    assert_eq!(rt; answer_to(with_blocks(2_000_000_000, 1)), Ok(()));
    assert_eq!(rt; answer_to(with_blocks(2_000_000_001, 1)), Err(1));
    assert_eq!(rt; answer_to(with_blocks(u32::MAX, 1)), Err(1));
}

#[test]
fn assignment_blocks(rt: HostRuntime) {
    assert_eq!(rt; answer_to(with_blocks(0, 0)), Err(1));
    assert_eq!(rt; answer_to(with_blocks(0, 1)), Ok(()));
    assert_eq!(rt; answer_to(with_blocks(0, 2_000_000_000)), Ok(()));
    assert_eq!(rt; answer_to(with_blocks(0, 2_000_000_001)), Err(1));
    assert_eq!(rt; answer_to(with_blocks(0, u32::MAX)), Err(1));
}

#[test]
fn minimum_values(rt: HostRuntime) {
    assert_eq!(rt; answer_to(with_minimum(0)), Ok(()));
    assert_eq!(rt; answer_to(with_minimum(400_000_000_000_000)), Ok(()));
    assert_eq!(rt; answer_to(with_minimum(400_000_000_000_001)), Err(1));
    assert_eq!(rt; answer_to(with_minimum(u64::MAX)), Err(1));
}

#[test]
fn moments_in_order(rt: HostRuntime) {
    assert_eq!(rt; answer_to(with_moments(199, 200, 300)), Ok(()));
    assert_eq!(rt; answer_to(with_moments(200, 200, 300)), Ok(()));
    assert_eq!(rt; answer_to(with_moments(201, 200, 300)), Err(1));
    assert_eq!(rt; answer_to(with_moments(100, 299, 300)), Ok(()));
    assert_eq!(rt; answer_to(with_moments(100, 300, 300)), Err(1));
    assert_eq!(rt; answer_to(with_moments(100, 301, 300)), Err(1));
}

#[test]
fn first_and_last_moments(rt: HostRuntime) {
    let last = u32::MAX;
    assert_eq!(rt; answer_to(with_moments(0, 0, 1)), Ok(()));
    assert_eq!(rt; answer_to(with_moments(0, 0, 0)), Err(1));
    assert_eq!(rt; answer_to(with_moments(last - 1, last - 1, last)), Ok(()));
    assert_eq!(rt; answer_to(with_moments(last, last, last)), Err(1));
}

#[test]
fn a_number_once(rt: HostRuntime) -> Result<(), Fail> {
    let mut book = book_with(&[7])?;
    assert_eq!(rt; numbered(book.list(&SOUND)), Err(2));
    assert_eq!(rt; numbered(book.list(&with_strike(1))), Err(2));
    assert_eq!(rt; numbered(book.list(&numbered_as(8))), Ok(()));
    assert_eq!(rt; numbered(book.list(&numbered_as(8))), Err(2));
    Ok(())
}

#[test]
fn unsound_terms_before_a_listed_number(rt: HostRuntime) -> Result<(), Fail> {
    let mut book = book_with(&[7])?;
    assert_eq!(rt; numbered(book.list(&with_strike(200_001))), Err(1));
    assert_eq!(rt; numbered(book.list(&with_kind(3))), Err(1));
    Ok(())
}

#[test]
fn sixteen_swaptions(rt: HostRuntime) -> Result<(), Fail> {
    let mut book = book_with(&SIXTEEN)?;
    check_numbers(&rt, &book, &SIXTEEN);
    assert_eq!(rt; numbered(book.list(&numbered_as(17))), Err(14));
    assert_eq!(rt; numbered(book.list(&numbered_as(65_535))), Err(14));
    check_numbers(&rt, &book, &SIXTEEN);
    Ok(())
}

#[test]
fn fifteen_swaptions_and_one_more(rt: HostRuntime) -> Result<(), Fail> {
    let mut book = book_with(&SIXTEEN[1..])?;
    assert_eq!(rt; numbered(book.list(&numbered_as(1))), Ok(()));
    check_numbers(&rt, &book, &SIXTEEN);
    Ok(())
}

#[test]
fn other_refusals_before_a_full_book(rt: HostRuntime) -> Result<(), Fail> {
    let mut book = book_with(&SIXTEEN)?;
    assert_eq!(rt; numbered(book.list(&numbered_as(1))), Err(2));
    assert_eq!(rt; numbered(book.list(&numbered_as(16))), Err(2));
    assert_eq!(rt; numbered(book.list(&numbered_as(0))), Err(1));
    let unsound = Listing {
        kind: 0,
        ..numbered_as(17)
    };
    assert_eq!(rt; numbered(book.list(&unsound)), Err(1));
    Ok(())
}

#[test]
fn swaptions_by_number(rt: HostRuntime) -> Result<(), Fail> {
    check_numbers(&rt, &book_with(&[3, 2, 1])?, &[1, 2, 3]);
    check_numbers(&rt, &book_with(&[1, 2, 3])?, &[1, 2, 3]);
    check_numbers(
        &rt,
        &book_with(&[65_535, 1, 256, 255])?,
        &[1, 255, 256, 65_535],
    );
    check_numbers(&rt, &book_with(&[])?, &[]);
    Ok(())
}

#[test]
fn terms_as_listed(rt: HostRuntime) -> Result<(), Fail> {
    let mut book = Book::new();
    book.list(&SOUND)?;
    let receiver = Listing {
        number: 9,
        ..with_kind(2)
    };
    book.list(&receiver)?;
    let payer_terms = Terms {
        number: 7,
        index: 3,
        payoff: Payoff {
            kind: Kind::Payer,
            strike: 97_000,
            minimum: 50_000,
        },
        blocks: Blocks {
            exercise: 10,
            assignment: 5,
        },
        cease: 100,
        start: 200,
        cutoff: 300,
    };
    let receiver_terms = Terms {
        number: 9,
        payoff: Payoff {
            kind: Kind::Receiver,
            ..payer_terms.payoff
        },
        ..payer_terms
    };
    assert!(rt; book.swaptions().len() == 2);
    assert_eq!(rt; book.swaptions()[0].terms(), payer_terms);
    assert_eq!(rt; book.swaptions()[0].traded(), 0);
    assert_eq!(rt; book.swaptions()[1].terms(), receiver_terms);
    assert_eq!(rt; book.swaptions()[1].traded(), 0);
    Ok(())
}

#[test]
fn a_list_has_no_moment(rt: HostRuntime) -> Result<(), Fail> {
    assert_eq!(rt; Book::new().latest(), 0);
    let mut book = book_with(&[7, 8])?;
    assert_eq!(rt; book.latest(), 0);
    assert_eq!(rt; numbered(book.list(&SOUND)), Err(2));
    assert_eq!(rt; book.latest(), 0);
    assert_eq!(rt; book.positions().len(), 0);
    Ok(())
}
