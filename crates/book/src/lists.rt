// The call that lists a swaption.
ghost use Rattle.std.specs.Prelude.{◌≡◌, false, is_ok};
ghost use Rattle.tally.specs.Listings.{terms_of};
ghost use Rattle.book.specs.Calls.{if_accepted, list_says, with_stated};
ghost use Rattle.book.specs.Held.{rows_in};

use crate::books::Book;
use crate::judgements::judge_list;
use crate::swaptions::Swaption;
use refusals::Refusal;
use tally::listings::{Listing, Terms};

impl Book {
    // Adds a swaption.
    pub fn list(&mut self, listing: &Listing) -> Result<(), Refusal>
        ensures answer { result ≡ list_says (rows_in self.old.swaptions) (terms_of listing.now) }
        ensures swaptions { rows_in self.new.swaptions ≡ if_accepted result (with_stated (terms_of listing.now) (rows_in self.old.swaptions)) (rows_in self.old.swaptions) }
        ensures positions { self.new.positions ≡ self.old.positions }
        ensures latest { self.new.latest ≡ self.old.latest }
        ensures refused { is_ok result ≡ false → self.new ≡ self.old }
    {
        let Ok(terms) = Terms::try_from(*listing) else {
            return Err(Refusal::InvalidTerms);
        };
        let place = self.swaptions.place_of(&terms.number);
        let at = judge_list(&terms, place, self.swaptions.count)?;
        self.swaptions.insert(at, Swaption::fresh(terms));
        Ok(())
    }
}
