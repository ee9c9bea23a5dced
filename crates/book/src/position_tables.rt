// How the positions of a book are entered in the order of their keys.
ghost use Rattle.std.specs.Prelude.{◌≡◌, ◌+◌, ◌≤◌, true, false, length, unsigned_abs};
ghost use Rattle.std.specs.List.{AllByRecursion};
ghost use Rattle.tables.specs.Finding.{Ascending, Found};
ghost use Rattle.tally.specs.Deals.{buyer_of, seller_of, sound_deal};
ghost use Rattle.tally.specs.Keys.{before, same_key};
ghost use Rattle.book.specs.Held.{rows_in};
ghost use Rattle.book.specs.Places.{Fits, Ordered, missing_at, placed, row_or_fresh};
ghost use Rattle.book.specs.Rows.{traded_positions, with_row};

use crate::books::MOST_POSITIONS;
use crate::places::{Entry, TradePlaces};
use crate::positions::Position;
use crate::row_tables::Table;
use tally::deals::Deal;
use tally::keys::PositionKey;

// Places and room are asked of each step by its arguments, and are no fact of the table alone.
impl Table<Position, MOST_POSITIONS> {
    // The row at a place, or a fresh one if it is missing.
    pub(crate) fn row_or_fresh(&self, place: Result<usize, usize>, key: PositionKey) -> Position
        requires { Fits place (length (rows_in self.now)) }
        ensures { result ≡ row_or_fresh (rows_in self.now) place key }
    {
        match place {
            Ok(at) => self.row(at),
            Err(_) => Position::fresh(key),
        }
    }

    // Writes a row at its place, or puts it in there.
    fn enter(&mut self, entry: Entry)
        requires fits { Fits entry.place (length (rows_in self.old)) }
        requires room { length (rows_in self.old) + missing_at entry.place ≤ 256 }
        ensures { rows_in self.new ≡ placed entry.place entry.row (rows_in self.old) }
    {
        match entry.place {
            Ok(at) => self.write(at, entry.row),
            Err(at) => self.insert(at, entry.row),
        }
    }

    // Enters two rows, of which the first has the lesser key; no row moves twice.
    fn enter_in_order(&mut self, low: Entry, high: Entry)
        requires low_fits { Fits low.place (length (rows_in self.old)) }
        requires high_fits { Fits high.place (length (rows_in self.old)) }
        requires ordered { Ordered low.place high.place }
        requires room { length (rows_in self.old) + missing_at low.place + missing_at high.place ≤ 256 }
        ensures { rows_in self.new ≡ placed low.place low.row (placed high.place high.row (rows_in self.old)) }
    {
        match (low.place, high.place) {
            (Err(at), Err(after)) => self.insert_both(at, low.row, after, high.row),
            _ => {
                self.enter(high);
                self.enter(low);
            }
        }
    }

    // Enters two rows with different keys at the places that a search answered.
    pub(crate) fn enter_both(&mut self, one: Entry, other: Entry)
        requires ascending { Ascending (λ p. p.key) before (rows_in self.old) }
        requires one_found { Found (λ p. p.key) before (rows_in self.old) one.row.key one.place }
        requires other_found { Found (λ p. p.key) before (rows_in self.old) other.row.key other.place }
        requires different { same_key one.row.key other.row.key ≡ false }
        requires room { length (rows_in self.old) + missing_at one.place + missing_at other.place ≤ 256 }
        ensures { rows_in self.new ≡ with_row other.row (with_row one.row (rows_in self.old)) }
    {
        if one.is_before(&other) {
            self.enter_in_order(one, other);
        } else {
            self.enter_in_order(other, one);
        }
    }

    // Raises the buyer's net and lowers the seller's, at the places that a
    // search answered for them.
    #[tactic(auto, using(crate::proofs::Netted::row_capped, crate::proofs::Netted::row_named, crate::proofs::RecordedTrades::sides_differ))]
    pub(crate) fn net(&mut self, deal: &Deal, places: &TradePlaces)
        requires ascending { Ascending (λ p. p.key) before (rows_in self.old) }
        requires buyer_found { Found (λ p. p.key) before (rows_in self.old) (buyer_of deal.now) places.now.buyer }
        requires seller_found { Found (λ p. p.key) before (rows_in self.old) (seller_of deal.now) places.now.seller }
        requires sound { sound_deal deal.now ≡ true }
        requires capped { AllByRecursion (λ p. unsigned_abs p.net ≤ 2000000000) (rows_in self.old) }
        requires room { length (rows_in self.old) + missing_at places.now.buyer + missing_at places.now.seller ≤ 256 }
        ensures { rows_in self.new ≡ traded_positions deal.now (rows_in self.old) }
    {
        let bought = self
            .row_or_fresh(places.buyer, deal.buyer_key())
            .moved(deal.amount);
        let sold = self
            .row_or_fresh(places.seller, deal.seller_key())
            .moved(-deal.amount);
        self.enter_both(
            Entry {
                place: places.buyer,
                row: bought,
            },
            Entry {
                place: places.seller,
                row: sold,
            },
        );
    }
}

// How many positions are missing at a place: none or one.
pub(crate) fn missing_at(place: &Result<usize, usize>) -> usize
    ensures { result ≡ missing_at place.now }
{
    usize::from(place.is_err())
}
