// A new book, and what is read of one.
ghost use Rattle.std.specs.Prelude.{◌≡◌, []};
ghost use Rattle.book.specs.Held.{rows_in};
ghost use Rattle.book.specs.Promise.{Records};

use crate::books::Book;
use crate::positions::Position;
use crate::row_tables::Table;
use crate::swaptions::Swaption;

impl Book {
    // A book without swaptions and positions.
    pub fn new() -> Book
        ensures { Records [] result }
    {
        Book {
            swaptions: Table::new(Swaption::blank()),
            positions: Table::new(Position::blank()),
            latest: 0,
        }
    }

    // The positions, in the order of their keys.
    pub fn positions(&self) -> &[Position]
        ensures { result.now ≡ rows_in self.now.positions }
    {
        self.positions.held()
    }

    // The swaptions, in the order of their numbers.
    pub fn swaptions(&self) -> &[Swaption]
        ensures { result.now ≡ rows_in self.now.swaptions }
    {
        self.swaptions.held()
    }

    // The latest moment of an accepted call.
    pub fn latest(&self) -> u32
        ensures { result ≡ self.now.latest }
    {
        self.latest
    }
}
