// Places that searches answered.
ghost use Rattle.std.specs.Prelude.{◌≡◌};
ghost use Rattle.tally.specs.Keys.{before};

use crate::positions::Position;

// Where the swaption and the two positions of a trade stand, or belong.
#[derive(Clone, Copy)]
pub(crate) struct TradePlaces {
    pub(crate) swaption: usize,
    pub(crate) buyer: Result<usize, usize>,
    pub(crate) seller: Result<usize, usize>,
}

// A position, and the place where one with its key stands, or belongs.
#[derive(Clone, Copy)]
pub(crate) struct Entry {
    pub(crate) place: Result<usize, usize>,
    pub(crate) row: Position,
}

impl Entry {
    // Whether its key stands before another's.
    pub(crate) fn is_before(&self, other: &Entry) -> bool
        ensures { result ≡ before self.now.row.key other.now.row.key }
    {
        self.row.key < other.row.key
    }
}
