// Rows of prices as they are handed over.
ghost use Rattle.std.specs.Prelude.{◌≡◌, ℕ, ◌&&◌, MatchResult, Some, nat_le};
ghost use Rattle.prices.specs.Refused.{unsound_shown};
ghost use Rattle.prices.specs.Rows.{FirstUnsound, highest_price, Sound};

use std::error::Error;
use std::fmt;

// The highest price, twice par.
pub const HIGHEST_PRICE: u32 = 200_000;

// A row with a price, and with a rank that does not fall from row to row.
pub trait RankedPrice {
    ghost ranked: { Self → ℕ };

    ghost priced: { Self → ℕ };

    fn rank(&self) -> u32
        ensures { result ≡ ranked self.now };

    fn price(&self) -> u32
        ensures { result ≡ priced self.now };
}

// Whether a row with a rank and a price may come after one of the rank `least`.
fn may_follow(least: u32, rank: u32, price: u32) -> bool
    ensures { result ≡ (nat_le least rank && nat_le price highest_price) }
{
    least <= rank && price <= HIGHEST_PRICE
}

// The place of the first row that is not sound.
#[derive(Clone, Copy, PartialEq, Eq, Debug)]
pub struct UnsoundRow(pub usize);

// by hand, here and at `Error`, since a derived text has no contract
impl fmt::Display for UnsoundRow {
    ghost output = { λ row. Some (unsound_shown row) };

    fn fmt<W: fmt::Write>(&self, f: &mut fmt::Formatter<W>) -> fmt::Result {
        write!(f, "the row at place {} is not sound", self.0)
    }
}

impl Error for UnsoundRow {}

// Refuses rows of which one has a price above the highest, or a rank below that
// of the row before it.
pub fn check_rows<T: RankedPrice>(rows: &[T]) -> Result<(), UnsoundRow>
    ensures { MatchResult result (λ _. Sound T.ranked T.priced rows.now) (λ unsound. FirstUnsound T.ranked T.priced rows.now unsound.0) }
{
    let mut least = 0;
    for (place, row) in rows.iter().enumerate() {
        let rank = row.rank();
        if !may_follow(least, rank, row.price()) {
            return Err(UnsoundRow(place));
        }
        least = rank;
    }
    Ok(())
}
