// A tape: prices by the moments at which they arrived.
ghost use Rattle.std.specs.Prelude.{◌≡◌};
ghost use Rattle.prices.specs.Quotes.{known_by, taped};
ghost use Rattle.prices.specs.LastPrices.{last_in_range};

use crate::price_rows::PriceRows;
use crate::rows::RankedPrice;
use crate::sources::PriceSource;

// The price of an index from a moment on.
#[derive(Clone, Copy, PartialEq, Eq, Debug)]
pub struct TapeRow {
    pub index: u16,
    pub moment: u32,
    pub price: u32,
}

impl TapeRow {
    // Whether the row is of the index and had arrived by the moment.
    fn known_by(&self, index: u16, moment: u32) -> bool
        ensures { result ≡ known_by index moment self.now }
    {
        self.index == index && self.moment <= moment
    }
}

impl RankedPrice for TapeRow {
    ghost ranked = { λ row. row.moment };

    ghost priced = { λ row. row.price };

    fn rank(&self) -> u32 {
        self.moment
    }

    fn price(&self) -> u32 {
        self.price
    }
}

// Rows in the order of arrival, whose moments never fall, none above the highest price.
pub type Tape = PriceRows<TapeRow>;

impl PriceSource for Tape {
    ghost quoted = { λ tape i m. taped tape.rows.items i m };

    ghost in_range = { λ s i m p e. last_in_range (known_by i m) (λ row. row.price) s.rows.items p s.in_range e };

    // From the last row back to the first that applies.
    fn price(&self, index: u16, moment: u32) -> Option<u32> {
        self.rows
            .iter()
            .rev()
            .find(|row| row.known_by(index, moment))
            .map(|row| row.price)
    }
}
