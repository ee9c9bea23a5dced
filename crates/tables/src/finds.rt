// The search for a key among rows in the order of their keys.
ghost use Rattle.std.specs.Prelude.{◌≡◌, ◌≤◌, length};
ghost use Rattle.tables.specs.Finding.{Above, Answer, Found, InOrder, UpTo};

use crate::keys::{Key, Keyed};
use std::cmp::Ordering;

// The place of a row with the key, or else the place where one belongs. In
// rows that are in order only one answer is right, so it is always the same.
// Rows and key are handed over apart, as std's searches take them.
pub fn find<T: Keyed>(rows: &[T], key: &T::Key) -> Result<usize, usize>
    ensures found { Found T.named T.Key.Key.less rows.now key.now result }
    ensures same { InOrder T.named T.Key.Key.less rows.now → (other : Answer) → Found T.named T.Key.Key.less rows.now key.now other → result ≡ other }
{
    last_with(rows, key)
}

// The same search: it ends at the last row with the key if there are several.
// not `binary_search_by_key`, which answers any of several rows with the key: here it is always the last
fn last_with<T: Keyed>(rows: &[T], key: &T::Key) -> Result<usize, usize>
    ensures { Found T.named T.Key.Key.less rows.now key.now result }
{
    let end = end_of(rows, key);
    if end == 0 {
        return Err(0);
    }
    match rows[end - 1].key().compare(key) {
        Ordering::Equal => Ok(end - 1),
        _ => Err(end),
    }
}

// The place after the rows with the key and the lesser ones.
// not `partition_point`, which looks at other rows: where rows are not in order, its answers are others
fn end_of<T: Keyed>(rows: &[T], key: &T::Key) -> usize
    ensures within { result ≤ length rows.now }
    ensures parts { InOrder T.named T.Key.Key.less rows.now → UpTo T.named T.Key.Key.less rows.now key.now result × Above T.named T.Key.Key.less rows.now key.now result }
{
    let mut low = 0;
    let mut high = rows.len();
    while low < high {
        let mid = low + (high - low) / 2;
        match rows[mid].key().compare(key) {
            Ordering::Greater => high = mid,
            _ => low = mid + 1,
        }
    }
    low
}
