// One swaption of the book.
ghost use Rattle.std.specs.Prelude.{◌≡◌, ◌+◌, ◌≤◌};
ghost use Rattle.book.specs.Rows.{fresh_swaption, with_volume};

use prices::{Kind, Payoff};
use tables::Keyed;
use tally::listings::{Blocks, Terms};

#[derive(Clone, Copy, PartialEq, Eq, Debug)]
pub struct Swaption {
    pub(crate) terms: Terms,
    // What accepted trades add up to.
    pub(crate) traded: u64,
    // Whether a propose or a preliminary notice was accepted.
    pub(crate) proposed: bool,
    // Whether a failure was accepted.
    pub(crate) failed: bool,
    pub(crate) assigned: bool,
}

impl Keyed for Swaption {
    type Key = u16;

    ghost named = { λ s. s.terms.number };

    fn key(&self) -> u16 {
        self.terms.number
    }
}

impl Swaption {
    // What stands in a place of a table that holds no swaption. It is no `Default`, since there is no default kind of swaption.
    pub(crate) fn blank() -> Swaption {
        Swaption::fresh(Terms {
            number: 0,
            index: 0,
            payoff: Payoff {
                kind: Kind::Payer,
                strike: 0,
                minimum: 0,
            },
            blocks: Blocks {
                exercise: 0,
                assignment: 0,
            },
            cease: 0,
            start: 0,
            cutoff: 0,
        })
    }

    // The same with an amount more traded.
    pub(crate) fn with_volume(&self, amount: u64) -> Swaption
        requires { self.now.traded + amount ≤ 2000000000 }
        ensures { result ≡ with_volume amount self.now }
    {
        Swaption {
            traded: self.traded + amount,
            ..*self
        }
    }

    // A swaption in which nothing happened yet.
    pub(crate) fn fresh(terms: Terms) -> Swaption
        ensures { result ≡ fresh_swaption terms }
    {
        Swaption {
            terms,
            traded: 0,
            proposed: false,
            failed: false,
            assigned: false,
        }
    }

    // The terms that it was listed with.
    pub fn terms(&self) -> Terms
        ensures { result ≡ self.now.terms }
    {
        self.terms
    }

    // What accepted trades in it add up to.
    pub fn traded(&self) -> u64
        ensures { result ≡ self.now.traded }
    {
        self.traded
    }
}
