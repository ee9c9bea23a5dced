// The book: its swaptions, its positions, and the latest moment.
ghost use Rattle.book.specs.Records.{Led};
ghost use Rattle.book.specs.Rows.{AllFair};

use crate::positions::Position;
use crate::row_tables::Table;
use crate::swaptions::Swaption;

pub(crate) const MOST_SWAPTIONS: usize = 16;

pub(crate) const MOST_POSITIONS: usize = 256;

#[derive(Drop)]
pub struct Book {
    pub(crate) swaptions: Table<Swaption, MOST_SWAPTIONS>,
    pub(crate) positions: Table<Position, MOST_POSITIONS>,
    pub(crate) latest: u32,
    // No stance amount and no assignment is above its open position.
    ghost fair: { AllFair positions.rows positions.count },
    // Some history of accepted calls led here.
    ghost led: { Led swaptions positions latest },
}
