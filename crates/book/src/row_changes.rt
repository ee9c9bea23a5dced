// What is read of a table, and how its rows are changed.
ghost use Rattle.std.specs.Prelude.{◌≡◌, ◌+◌, ◌<◌, ◌≤◌, [], length, slice_index_or, slice_set};
ghost use Rattle.std.specs.List.{insert};
ghost use Rattle.tables.specs.Finding.{Found};
ghost use Rattle.book.specs.Held.{rows_in};

use crate::row_tables::Table;
use tables::{Keyed, find, insert_at, insert_two};

impl<T: Keyed + Copy, const N: usize> Table<T, N> {
    // A table that holds nothing, with a row for the places that do not count.
    pub(crate) fn new(blank: T) -> Table<T, N>
        ensures { rows_in result ≡ [] }
    {
        Table {
            rows: [blank; N],
            count: 0,
        }
    }

    // The rows that count. All rows are taken as a slice first, here and below, since a part of an array whose length
    // is a parameter cannot be lent.
    pub(crate) fn held(&self) -> &[T]
        ensures { result.now ≡ rows_in self.now }
    {
        let rows = &self.rows[..];
        &rows[0..self.count]
    }

    // The place of a key, or the place where it belongs.
    pub(crate) fn place_of(&self, key: &T::Key) -> Result<usize, usize>
        ensures { Found T.named T.Key.Key.less (rows_in self.now) key.now result }
    {
        find(self.held(), key)
    }

    // The row at a place.
    pub(crate) fn row(&self, at: usize) -> T
        requires { at < length (rows_in self.now) }
        ensures { (d : T) → result ≡ slice_index_or (rows_in self.now) at d }
    {
        self.rows[at]
    }

    // Writes a row whole. Places and rows are handed over one by one, here and below, as std's `insert` takes them,
    // and what is asked of places and of room ties them to the table.
    pub(crate) fn write(&mut self, at: usize, row: T)
        requires { at < length (rows_in self.old) }
        ensures { rows_in self.new ≡ slice_set (rows_in self.old) at row }
    {
        self.rows[at] = row;
    }

    // Puts a row in at a place.
    pub(crate) fn insert(&mut self, at: usize, row: T)
        requires within { at ≤ length (rows_in self.old) }
        requires room { length (rows_in self.old) < N }
        ensures { rows_in self.new ≡ insert (rows_in self.old) at row }
    {
        let end = self.count + 1;
        let rows = &mut self.rows[..];
        let put = insert_at(&mut rows[0..end], at, row);
        prove!(put.is_ok());
        self.count = end;
    }

    // Puts two rows in at once.
    pub(crate) fn insert_both(&mut self, low: usize, first: T, high: usize, second: T)
        requires ordered { low ≤ high }
        requires within { high ≤ length (rows_in self.old) }
        requires room { length (rows_in self.old) + 2 ≤ N }
        ensures { rows_in self.new ≡ insert (insert (rows_in self.old) high second) low first }
    {
        let end = self.count + 2;
        let rows = &mut self.rows[..];
        let put = insert_two(&mut rows[0..end], low, first, high, second);
        prove!(put.is_ok());
        self.count = end;
    }
}
