// Calls and books that the tests start from.
use book::Book;
use std::test::Fail;
use tally::deals::Deal;
use tally::keys::Party;
use tally::listings::{Blocks, Listing};

// Trades in it cease at 100.
pub(crate) const SOUND: Listing = Listing {
    number: 7,
    index: 3,
    kind: 1,
    strike: 97_000,
    blocks: Blocks {
        exercise: 10,
        assignment: 5,
    },
    minimum: 50_000,
    cease: 100,
    start: 200,
    cutoff: 300,
};

pub(crate) const ANNE: Party = Party {
    participant: 10,
    client: 1,
    desk: 1,
};

pub(crate) const BERT: Party = Party {
    participant: 20,
    client: 2,
    desk: 2,
};

pub(crate) const CARL: Party = Party {
    participant: 30,
    client: 3,
    desk: 3,
};

pub(crate) const SALE: Deal = Deal {
    swaption: 7,
    buyer: ANNE,
    seller: BERT,
    amount: 5,
    moment: 50,
};

// A book with swaptions of these numbers, listed in this order.
pub(crate) fn book_with(numbers: &[u16]) -> Result<Book, Fail> {
    let mut book = Book::new();
    for number in numbers {
        book.list(&Listing {
            number: *number,
            ..SOUND
        })?;
    }
    Ok(book)
}

// Makes these trades, all of which are accepted.
pub(crate) fn trade_all(book: &mut Book, deals: &[Deal]) -> Result<(), Fail> {
    for deal in deals {
        book.trade(deal)?;
    }
    Ok(())
}
