// What the tests compare.
use book::{Book, Position};
use refusals::Refusal;
use std::process::Abort;
use tally::keys::{Party, PositionKey};

// The answer with the refusal's number in place of the refusal: the numbers are what is published, so the tests name them.
pub(crate) fn numbered(answer: Result<(), Refusal>) -> Result<(), u32> {
    answer.map_err(|refusal| refusal.number())
}

// Whose position it is, and its net.
#[derive(Clone, Copy, PartialEq, Eq, Debug)]
pub(crate) struct Holding {
    key: PositionKey,
    net: i64,
}

impl From<&Position> for Holding {
    fn from(position: &Position) -> Holding {
        Holding {
            key: position.holder(),
            net: position.net(),
        }
    }
}

pub(crate) fn holding_of(swaption: u16, party: Party, net: i64) -> Holding {
    Holding {
        key: PositionKey { swaption, party },
        net,
    }
}

// That the book has just these positions, in this order.
pub(crate) fn check_held(rt: &impl Abort, book: &Book, expected: &[Holding]) {
    assert_eq!(rt; book.positions().len(), expected.len());
    for (position, holding) in book.positions().iter().zip(expected) {
        assert_eq!(rt; Holding::from(position), *holding);
    }
}

// That the book has just the swaptions of these numbers, in this order.
pub(crate) fn check_numbers(rt: &impl Abort, book: &Book, expected: &[u16]) {
    assert_eq!(rt; book.swaptions().len(), expected.len());
    for (swaption, number) in book.swaptions().iter().zip(expected) {
        assert_eq!(rt; swaption.terms().number, *number);
    }
}

// That two books hold the same, in every field of every row.
pub(crate) fn check_same(rt: &impl Abort, one: &Book, other: &Book) {
    assert_eq!(rt; one.positions(), other.positions());
    assert_eq!(rt; one.swaptions(), other.swaptions());
    assert_eq!(rt; one.latest(), other.latest());
}
