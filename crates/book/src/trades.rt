// The call that trades.
ghost use Rattle.std.specs.Prelude.{◌≡◌, false, is_ok};
ghost use Rattle.book.specs.Calls.{if_accepted, trade_says};
ghost use Rattle.book.specs.Held.{rows_in};
ghost use Rattle.book.specs.Judging.{Judged};
ghost use Rattle.book.specs.Rows.{traded_positions, traded_swaptions};

use crate::books::Book;
use crate::judgements::judge_trade;
use crate::places::TradePlaces;
use crate::position_tables::missing_at;
use refusals::Refusal;
use tally::deals::Deal;

impl Book {
    // Raises the buyer's net by the amount and lowers the seller's.
    #[tactic(auto, using(crate::proofs::JudgedTrades::trade_room, crate::proofs::JudgedTrades::volume_capped))]
    pub fn trade(&mut self, deal: &Deal) -> Result<(), Refusal>
        ensures answer { result ≡ trade_says (rows_in self.old.swaptions) (rows_in self.old.positions) self.old.latest deal.now }
        ensures swaptions { rows_in self.new.swaptions ≡ if_accepted result (traded_swaptions deal.now (rows_in self.old.swaptions)) (rows_in self.old.swaptions) }
        ensures positions { rows_in self.new.positions ≡ if_accepted result (traded_positions deal.now (rows_in self.old.positions)) (rows_in self.old.positions) }
        ensures latest { self.new.latest ≡ if_accepted result deal.now.moment self.old.latest }
        ensures refused { is_ok result ≡ false → self.new ≡ self.old }
    {
        let places = self.places_for(deal)?;
        let amount = deal.amount.unsigned_abs();
        self.swaptions.add_volume(places.swaption, amount);
        self.positions.net(deal, &places);
        self.latest = deal.moment;
        Ok(())
    }

    // Where the swaption and the positions of a trade stand, if it is accepted.
    fn places_for(&self, deal: &Deal) -> Result<TradePlaces, Refusal>
        ensures { Judged (rows_in self.now.swaptions) (rows_in self.now.positions) self.now.latest deal.now result }
    {
        if !deal.is_sound() {
            return Err(Refusal::InvalidTerms);
        }
        let Ok(at) = self.swaptions.place_of(&deal.swaption) else {
            return Err(Refusal::NotListed);
        };
        let swaption = self.swaptions.row(at);
        let buyer = self.positions.place_of(&deal.buyer_key());
        let seller = self.positions.place_of(&deal.seller_key());
        let missing = missing_at(&buyer) + missing_at(&seller);
        judge_trade(
            deal,
            &swaption.terms,
            self.latest,
            swaption.traded,
            missing,
            self.positions.count,
        )?;
        Ok(TradePlaces {
            swaption: at,
            buyer,
            seller,
        })
    }
}
