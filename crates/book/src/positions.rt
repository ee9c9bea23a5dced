// One position of the book.
ghost use Rattle.std.specs.Prelude.{◌≡◌, ◌≤◌, Some, unsigned_abs};
ghost use Rattle.book.specs.Rows.{bound_of, fresh, moved};
ghost use Rattle.book.specs.Shown.{position_shown};

use std::fmt;
use tables::Keyed;
use tally::keys::{Party, PositionKey};
use tally::stances::Stance;

#[derive(Clone, Copy, PartialEq, Eq, Debug)]
pub struct Position {
    pub(crate) key: PositionKey,
    pub(crate) net: i64,
    pub(crate) stance: Stance,
    pub(crate) assignment: u32,
}

impl Keyed for Position {
    type Key = PositionKey;

    ghost named = { λ p. p.key };

    fn key(&self) -> PositionKey {
        self.holder()
    }
}

impl Position {
    // What stands in a place of a table that holds no position. It is no `Default`, since there is no default party.
    pub(crate) fn blank() -> Position {
        let nobody = Party {
            participant: 0,
            client: 0,
            desk: 0,
        };
        Position::fresh(nobody.key_in(0))
    }

    // A position with a net of 0, silent, with nothing assigned.
    pub(crate) fn fresh(key: PositionKey) -> Position
        ensures { result ≡ fresh key }
    {
        Position {
            key,
            net: 0,
            stance: Stance::Silent,
            assignment: 0,
        }
    }

    // The same with its net changed.
    pub(crate) fn moved(&self, change: i64) -> Position
        requires net { unsigned_abs self.now.net ≤ 2000000000 }
        requires change { unsigned_abs change ≤ 2000000000 }
        ensures { result ≡ moved change self.now }
    {
        Position {
            net: self.net + change,
            ..*self
        }
    }

    // Whose position it is, and in which swaption.
    pub fn holder(&self) -> PositionKey
        ensures { result ≡ self.now.key }
    {
        self.key
    }

    // Where it stands between silence and exercise.
    pub fn stance(&self) -> Stance
        ensures { result ≡ self.now.stance }
    {
        self.stance
    }

    // What was bought less what was sold.
    pub fn net(&self) -> i64
        ensures { result ≡ self.now.net }
    {
        self.net
    }

    // What a seller was assigned.
    pub fn assignment(&self) -> u32
        ensures { result ≡ self.now.assignment }
    {
        self.assignment
    }

    // What it is bound to exercise: the whole position, or the amount noticed.
    pub fn bound(&self) -> u64
        ensures { result ≡ bound_of self.now }
    {
        match self.stance {
            Stance::Silent | Stance::Standing(_) => 0,
            Stance::Noticed(amount) => u64::from(amount),
            Stance::Whole => self.net.unsigned_abs(),
        }
    }
}

// "7 1 0 2 -30 0 15": the key, the net, the bound amount and the assignment.
impl fmt::Display for Position {
    ghost output = { λ position. Some (position_shown position) };

    fn fmt<W: fmt::Write>(&self, f: &mut fmt::Formatter<W>) -> fmt::Result {
        let bound = self.bound();
        write!(f, "{} {} {bound} {}", self.key, self.net, self.assignment)
    }
}
