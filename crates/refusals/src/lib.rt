// The numbered refusals: one for whatever is turned down, by the book, by an
// assignment rule or by the day file's reader.
#![tactic(auto)]

ghost use Rattle.std.specs.Prelude.{◌≡◌, Some};
ghost use Rattle.refusals.specs.Numbers.{number_of, place_of};
ghost use Rattle.refusals.specs.Shown.{shown_as};

use std::fmt;

#[derive(Clone, Copy, PartialEq, Eq, Debug)]
pub enum Refusal {
    InvalidTerms,
    AlreadyListed,
    NotListed,
    MomentPassed,
    OutsideWindow,
    AlreadyDone,
    NotEntitled,
    NotABuyer,
    InvalidAmount,
    NotARaise,
    NotStanding,
    NoPrice,
    TradedTooMuch,
    BookFull,
    UnsoundAsk,
    BadHeader(u32),
    BadRow(u32),
}

impl Refusal {
    // The number in the table of refusals.
    pub fn number(&self) -> u32
        ensures { result ≡ number_of self.now }
    {
        match self {
            Refusal::InvalidTerms => 1,
            Refusal::AlreadyListed => 2,
            Refusal::NotListed => 3,
            Refusal::MomentPassed => 4,
            Refusal::OutsideWindow => 5,
            Refusal::AlreadyDone => 6,
            Refusal::NotEntitled => 7,
            Refusal::NotABuyer => 8,
            Refusal::InvalidAmount => 9,
            Refusal::NotARaise => 10,
            Refusal::NotStanding => 11,
            Refusal::NoPrice => 12,
            Refusal::TradedTooMuch => 13,
            Refusal::BookFull => 14,
            Refusal::UnsoundAsk => 15,
            Refusal::BadHeader(_) => 16,
            Refusal::BadRow(_) => 17,
        }
    }

    // The place in the day file that the refusal names, if it names one.
    pub fn place(&self) -> Option<u32>
        ensures { result ≡ place_of self.now }
    {
        match self {
            Refusal::BadHeader(place) | Refusal::BadRow(place) => Some(*place),
            _ => None,
        }
    }
}

// "refused 15", and with a place "refused 16 32".
impl fmt::Display for Refusal {
    ghost output = { λ refusal. Some (shown_as refusal) };

    fn fmt<W: fmt::Write>(&self, f: &mut fmt::Formatter<W>) -> fmt::Result {
        let number = self.number();
        match self.place() {
            Some(place) => write!(f, "refused {number} {place}"),
            None => write!(f, "refused {number}"),
        }
    }
}
