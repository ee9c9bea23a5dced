// Marks: prices that hold at every moment.
ghost use Rattle.std.specs.Prelude.{◌≡◌, IfSome};
ghost use Rattle.prices.specs.Quotes.{marked, of_index, Priced};
ghost use Rattle.prices.specs.LastPrices.{last_in_range};

use crate::price_rows::PriceRows;
use crate::rows::RankedPrice;
use crate::sources::PriceSource;
use tables::{Keyed, find};

// The price of an index.
#[derive(Clone, Copy, PartialEq, Eq, Debug)]
pub struct Mark {
    pub index: u16,
    pub price: u32,
}

impl Keyed for Mark {
    type Key = u16;

    ghost named = { λ mark. mark.index };

    fn key(&self) -> u16 {
        self.index
    }
}

impl RankedPrice for Mark {
    ghost ranked = { λ mark. mark.index };

    ghost priced = { λ mark. mark.price };

    fn rank(&self) -> u32 {
        u32::from(self.index)
    }

    fn price(&self) -> u32 {
        self.price
    }
}

// Marks in the order of their indices, none above the highest price.
pub type Marks = PriceRows<Mark>;

impl PriceSource for Marks {
    ghost quoted = { λ marks i _. marked marks.rows.items i };

    ghost in_range = { λ s i m p e. last_in_range (of_index i) (λ mark. mark.price) s.rows.items p s.in_range e };

    // The price, which is that of a mark of the index. The trait's clauses stand here again, since it adds one of its own.
    fn price(&self, index: u16, _moment: u32) -> Option<u32>
        ensures answered { result ≡ marked self.now.rows.items index }
        ensures stays { self.exit.now ≡ self.entry.now }
        ensures held { IfSome result (Priced (of_index index) (λ mark. mark.price) self.now.rows.items) }
    {
        let place = find(self.rows.as_slice(), &index).ok()?;
        Some(self.rows[place].price)
    }
}
