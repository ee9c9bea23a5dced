// What is changed of the swaptions of a book.
ghost use Rattle.std.specs.Prelude.{◌≡◌, ◌+◌, ◌<◌, ◌≤◌, get_or, length, slice_index_or, slice_set};
ghost use Rattle.book.specs.Held.{rows_in};
ghost use Rattle.book.specs.Rows.{with_volume};
ghost use Rattle.book.specs.declared.swaptions.Swaption.{Swaption as Row};

use crate::books::MOST_SWAPTIONS;
use crate::row_tables::Table;
use crate::swaptions::Swaption;

impl Table<Swaption, MOST_SWAPTIONS> {
    // Adds an amount to what is traded in the swaption at a place.
    pub(crate) fn add_volume(&mut self, at: usize, amount: u64)
        requires within { at < length (rows_in self.old) }
        requires capped { (d : Row) → (get_or (rows_in self.old) at d).traded + amount ≤ 2000000000 }
        ensures { (d : Row) → rows_in self.new ≡ slice_set (rows_in self.old) at (with_volume amount (slice_index_or (rows_in self.old) at d)) }
    {
        let row = self.row(at).with_volume(amount);
        self.write(at, row);
    }
}
