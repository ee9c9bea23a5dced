// Rows of prices that are sound.
ghost use Rattle.std.specs.Prelude.{◌≡◌, length, MatchResult};
ghost use Rattle.prices.specs.Rows.{FirstUnsound, InRange, NeverFalling, Sound};

use crate::rows::{RankedPrice, UnsoundRow, check_rows};

// Rows in the order of their ranks, none above the highest price.
#[derive(Drop)]
pub struct PriceRows<T: RankedPrice> {
    pub(crate) rows: Vec<T>,
    // Ghost fields and no Model: the law in_range of PriceSource speaks of every source, and takes its fact from here.
    ghost never_falling: { NeverFalling T.ranked rows.items (length rows.items) },
    ghost in_range: { InRange T.priced rows.items (length rows.items) },
}

// Holds the rows if they are sound.
impl<T: RankedPrice + Drop> TryFrom<Vec<T>> for PriceRows<T> {
    type Error = UnsoundRow;

    ghost try_from_gives = { λ rows result. MatchResult result (λ held. (held.rows.items ≡ rows.items) × Sound T.ranked T.priced rows.items) (λ unsound. FirstUnsound T.ranked T.priced rows.items unsound.0) };

    fn try_from(rows: Vec<T>) -> Result<Self, UnsoundRow> {
        check_rows(rows.as_slice())?;
        Ok(PriceRows { rows })
    }
}
