// The positions that trades make and change.
use crate::checks::{check_held, holding_of};
use crate::samples::{ANNE, BERT, CARL, SALE, book_with, trade_all};
use book::Book;
use std::test::Fail;
use tally::deals::Deal;
use tally::keys::Party;
use tally::stances::Stance;

const FIRST: Party = Party {
    participant: 1,
    client: 1,
    desk: 1,
};

const NEXT_DESK: Party = Party {
    participant: 1,
    client: 1,
    desk: 2,
};

const NEXT_CLIENT: Party = Party {
    participant: 1,
    client: 2,
    desk: 0,
};

const NEXT_PARTICIPANT: Party = Party {
    participant: 2,
    client: 0,
    desk: 0,
};

const LAST: Party = Party {
    participant: 65_535,
    client: 0,
    desk: 0,
};

fn bought(buyer: Party, seller: Party, amount: i64) -> Deal {
    Deal {
        buyer,
        seller,
        amount,
        ..SALE
    }
}

// What the nets in a swaption add up to.
fn sum_of_nets(book: &Book, swaption: u16) -> i64 {
    let mut sum = 0i64;
    for position in book.positions() {
        if position.holder().swaption == swaption {
            sum = sum.wrapping_add(position.net());
        }
    }
    sum
}

#[test]
fn no_positions_at_first(rt: HostRuntime) -> Result<(), Fail> {
    check_held(&rt, &Book::new(), &[]);
    check_held(&rt, &book_with(&[7, 8])?, &[]);
    Ok(())
}

#[test]
fn a_buyer_and_a_seller(rt: HostRuntime) -> Result<(), Fail> {
    let mut book = book_with(&[7])?;
    book.trade(&SALE)?;
    check_held(
        &rt,
        &book,
        &[holding_of(7, ANNE, 5), holding_of(7, BERT, -5)],
    );
    Ok(())
}

#[test]
fn a_seller_with_the_lesser_key(rt: HostRuntime) -> Result<(), Fail> {
    let mut book = book_with(&[7])?;
    book.trade(&bought(BERT, ANNE, 5))?;
    check_held(
        &rt,
        &book,
        &[holding_of(7, ANNE, -5), holding_of(7, BERT, 5)],
    );
    Ok(())
}

#[test]
fn new_positions_are_silent(rt: HostRuntime) -> Result<(), Fail> {
    let mut book = book_with(&[7])?;
    book.trade(&SALE)?;
    assert_eq!(rt; book.positions().len(), 2);
    for position in book.positions() {
        assert_eq!(rt; position.stance(), Stance::Silent);
        assert_eq!(rt; position.bound(), 0);
        assert_eq!(rt; position.assignment(), 0);
    }
    Ok(())
}

#[test]
fn order_within_a_swaption(rt: HostRuntime) -> Result<(), Fail> {
    let mut book = book_with(&[7])?;
    trade_all(
        &mut book,
        &[
            bought(NEXT_PARTICIPANT, NEXT_DESK, 3),
            bought(NEXT_CLIENT, FIRST, 4),
        ],
    )?;
    check_held(
        &rt,
        &book,
        &[
            holding_of(7, FIRST, -4),
            holding_of(7, NEXT_DESK, -3),
            holding_of(7, NEXT_CLIENT, 4),
            holding_of(7, NEXT_PARTICIPANT, 3),
        ],
    );
    Ok(())
}

#[test]
fn order_over_swaptions(rt: HostRuntime) -> Result<(), Fail> {
    let mut book = book_with(&[9, 7])?;
    let in_nine = Deal {
        swaption: 9,
        ..bought(FIRST, NEXT_DESK, 2)
    };
    trade_all(&mut book, &[in_nine, bought(CARL, BERT, 6)])?;
    check_held(
        &rt,
        &book,
        &[
            holding_of(7, BERT, -6),
            holding_of(7, CARL, 6),
            holding_of(9, FIRST, 2),
            holding_of(9, NEXT_DESK, -2),
        ],
    );
    Ok(())
}

#[test]
fn a_position_for_each_swaption(rt: HostRuntime) -> Result<(), Fail> {
    let mut book = book_with(&[7, 8])?;
    let in_eight = Deal {
        swaption: 8,
        ..bought(BERT, ANNE, 3)
    };
    trade_all(&mut book, &[SALE, in_eight])?;
    check_held(
        &rt,
        &book,
        &[
            holding_of(7, ANNE, 5),
            holding_of(7, BERT, -5),
            holding_of(8, ANNE, -3),
            holding_of(8, BERT, 3),
        ],
    );
    Ok(())
}

#[test]
fn two_new_positions_around_others(rt: HostRuntime) -> Result<(), Fail> {
    let mut book = book_with(&[7])?;
    trade_all(&mut book, &[SALE, bought(LAST, FIRST, 4)])?;
    check_held(
        &rt,
        &book,
        &[
            holding_of(7, FIRST, -4),
            holding_of(7, ANNE, 5),
            holding_of(7, BERT, -5),
            holding_of(7, LAST, 4),
        ],
    );
    Ok(())
}

#[test]
fn two_new_positions_between_others(rt: HostRuntime) -> Result<(), Fail> {
    let mut book = book_with(&[7])?;
    trade_all(&mut book, &[bought(FIRST, LAST, 4), bought(BERT, ANNE, 5)])?;
    check_held(
        &rt,
        &book,
        &[
            holding_of(7, FIRST, 4),
            holding_of(7, ANNE, -5),
            holding_of(7, BERT, 5),
            holding_of(7, LAST, -4),
        ],
    );
    Ok(())
}

#[test]
fn two_new_positions_before_others(rt: HostRuntime) -> Result<(), Fail> {
    let mut book = book_with(&[7])?;
    trade_all(&mut book, &[bought(CARL, LAST, 4), SALE])?;
    check_held(
        &rt,
        &book,
        &[
            holding_of(7, ANNE, 5),
            holding_of(7, BERT, -5),
            holding_of(7, CARL, 4),
            holding_of(7, LAST, -4),
        ],
    );
    Ok(())
}

#[test]
fn one_new_position_on_either_side(rt: HostRuntime) -> Result<(), Fail> {
    let mut book = book_with(&[7])?;
    trade_all(
        &mut book,
        &[SALE, bought(FIRST, ANNE, 1), bought(BERT, LAST, 2)],
    )?;
    check_held(
        &rt,
        &book,
        &[
            holding_of(7, FIRST, 1),
            holding_of(7, ANNE, 4),
            holding_of(7, BERT, -3),
            holding_of(7, LAST, -2),
        ],
    );
    Ok(())
}

#[test]
fn nets_over_three_parties(rt: HostRuntime) -> Result<(), Fail> {
    let mut book = book_with(&[7])?;
    trade_all(
        &mut book,
        &[SALE, bought(BERT, CARL, 3), bought(CARL, ANNE, 1), SALE],
    )?;
    check_held(
        &rt,
        &book,
        &[
            holding_of(7, ANNE, 9),
            holding_of(7, BERT, -7),
            holding_of(7, CARL, -2),
        ],
    );
    Ok(())
}

#[test]
fn a_net_of_zero_stays(rt: HostRuntime) -> Result<(), Fail> {
    let mut book = book_with(&[7])?;
    trade_all(&mut book, &[SALE, bought(BERT, ANNE, 5)])?;
    check_held(
        &rt,
        &book,
        &[holding_of(7, ANNE, 0), holding_of(7, BERT, 0)],
    );
    book.trade(&SALE)?;
    check_held(
        &rt,
        &book,
        &[holding_of(7, ANNE, 5), holding_of(7, BERT, -5)],
    );
    Ok(())
}

#[test]
fn a_seller_becomes_a_buyer(rt: HostRuntime) -> Result<(), Fail> {
    let mut book = book_with(&[7])?;
    trade_all(&mut book, &[SALE, bought(BERT, CARL, 12)])?;
    check_held(
        &rt,
        &book,
        &[
            holding_of(7, ANNE, 5),
            holding_of(7, BERT, 7),
            holding_of(7, CARL, -12),
        ],
    );
    Ok(())
}

#[test]
fn the_largest_nets(rt: HostRuntime) -> Result<(), Fail> {
    let mut book = book_with(&[7])?;
    let half = bought(ANNE, BERT, 1_000_000_000);
    trade_all(&mut book, &[half, half])?;
    check_held(
        &rt,
        &book,
        &[
            holding_of(7, ANNE, 2_000_000_000),
            holding_of(7, BERT, -2_000_000_000),
        ],
    );
    Ok(())
}

#[test]
fn nets_add_up_to_zero(rt: HostRuntime) -> Result<(), Fail> {
    let mut book = book_with(&[7, 8])?;
    let in_eight = Deal {
        swaption: 8,
        ..bought(BERT, ANNE, 1_999_999_999)
    };
    trade_all(
        &mut book,
        &[
            SALE,
            in_eight,
            bought(FIRST, NEXT_DESK, 1_000_000_000),
            bought(BERT, FIRST, 17),
        ],
    )?;
    assert_eq!(rt; book.positions().len(), 6);
    assert_eq!(rt; sum_of_nets(&book, 7), 0);
    assert_eq!(rt; sum_of_nets(&book, 8), 0);
    Ok(())
}
