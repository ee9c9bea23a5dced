// Who holds a position, and the key of a position.
ghost use Rattle.std.specs.Prelude.{◌≡◌, Some};
ghost use Rattle.tally.specs.Keys.{before, key_in};
ghost use Rattle.tally.specs.Orders.{before_one, before_transitive};
ghost use Rattle.tally.specs.Shown.{key_shown, party_shown};
ghost use Rattle.std.proofs.Common.{rules};

use std::cmp::Ordering;
use std::fmt;
use tables::{Key, OrderedKey};

// Parties stand in the order of their fields: participant, client and desk.
#[derive(Clone, Copy, PartialEq, Eq, PartialOrd, Ord, Debug)]
pub struct Party {
    pub participant: u16,
    pub client: u16,
    pub desk: u16,
}

// Keys stand in the order of their fields: by swaption, then by party.
#[derive(Clone, Copy, PartialEq, Eq, PartialOrd, Ord, Debug)]
pub struct PositionKey {
    pub swaption: u16,
    pub party: Party,
}

impl Party {
    // The key of its position in a swaption.
    pub fn key_in(&self, swaption: u16) -> PositionKey
        ensures { result ≡ key_in swaption self.now }
    {
        PositionKey {
            swaption,
            party: *self,
        }
    }
}

impl Key for PositionKey {
    ghost less = { before };

    ghost exactly_one = { before_one };

    ghost transitive = { before_transitive };

    fn compare(&self, other: &PositionKey) -> Ordering {
        self.cmp(other)
    }
}

impl OrderedKey for PositionKey {
    ghost ordered = { Prim.search rules };
}

// "1 0 2": the participant, the client and the desk.
impl fmt::Display for Party {
    ghost output = { λ party. Some (party_shown party) };

    fn fmt<W: fmt::Write>(&self, f: &mut fmt::Formatter<W>) -> fmt::Result {
        write!(f, "{} {} {}", self.participant, self.client, self.desk)
    }
}

// "7 1 0 2": the swaption, then the party.
impl fmt::Display for PositionKey {
    ghost output = { λ key. Some (key_shown key) };

    fn fmt<W: fmt::Write>(&self, f: &mut fmt::Formatter<W>) -> fmt::Result {
        write!(f, "{} {}", self.swaption, self.party)
    }
}
