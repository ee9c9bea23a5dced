// Changes of one row among others.
ghost use Rattle.std.specs.Prelude.{◌≡◌, is_ok, length, nat_lt, slice_set, Some};
ghost use Rattle.tables.specs.Changes.{moved_up, moved_up_twice, refusal_shown, two_fit};

use std::error::Error;
use std::fmt;

// A place that is none of the rows'.
#[derive(Clone, Copy, PartialEq, Eq, Debug)]
pub struct NoSuchPlace;

// by hand, here and at `Error`, since a derived text has no contract
impl fmt::Display for NoSuchPlace {
    ghost output = { λ _. Some refusal_shown };

    fn fmt<W: fmt::Write>(&self, f: &mut fmt::Formatter<W>) -> fmt::Result {
        write!(f, "no such place")
    }
}

impl Error for NoSuchPlace {}

// Puts a row in at a place: those from there on move up by one, over what
// stood last. If there is no such place nothing changes. That there are as many
// rows as before is said in a clause of its own, here and below, for callers who
// need no more. Places and rows are handed over one by one, as std's `insert`
// takes them.
pub fn insert_at<T: Copy>(rows: &mut [T], at: usize, row: T) -> Result<(), NoSuchPlace>
    ensures done { is_ok result ≡ nat_lt at (length rows.old) }
    ensures put { rows.new ≡ moved_up rows.old at row }
    ensures long { length rows.new ≡ length rows.old }
{
    if at >= rows.len() {
        return Err(NoSuchPlace);
    }
    let last = rows.len() - 1;
    rows.copy_within(at..last, at + 1);
    replace(rows, at, row)
}

// Writes one row. If there is no such place nothing changes.
pub fn replace<T: Copy>(rows: &mut [T], at: usize, row: T) -> Result<(), NoSuchPlace>
    ensures done { is_ok result ≡ nat_lt at (length rows.old) }
    ensures put { rows.new ≡ slice_set rows.old at row }
    ensures long { length rows.new ≡ length rows.old }
{
    if at >= rows.len() {
        return Err(NoSuchPlace);
    }
    rows[at] = row;
    Ok(())
}

// Puts two rows in: the places are counted among the rows as they are, and the
// first is not above the second. Each row moves once, over what stood in the
// last two places. If there are no such places nothing changes.
pub fn insert_two<T: Copy>(
    rows: &mut [T],
    low: usize,
    first: T,
    high: usize,
    second: T,
) -> Result<(), NoSuchPlace>
    ensures done { is_ok result ≡ two_fit (length rows.old) low high }
    ensures put { rows.new ≡ moved_up_twice rows.old low first high second }
    ensures long { length rows.new ≡ length rows.old }
{
    let end = rows.len().checked_sub(2).ok_or(NoSuchPlace)?;
    if low > high || high > end {
        return Err(NoSuchPlace);
    }
    rows.copy_within(high..end, high + 2);
    rows[high + 1] = second;
    rows.copy_within(low..high, low + 1);
    replace(rows, low, first)
}
