// A trade between two parties.
ghost use Rattle.std.specs.Prelude.{◌≡◌};
ghost use Rattle.tally.specs.Deals.{buyer_of, seller_of, sound_deal};

use crate::keys::{Party, PositionKey};

// A trade as it comes from outside: any values.
#[derive(Clone, Copy, PartialEq, Eq, Debug)]
pub struct Deal {
    pub swaption: u16,
    pub buyer: Party,
    pub seller: Party,
    pub amount: i64,
    pub moment: u32,
}

// The most that one trade may be. It limits another thing than the other limits of this value.
const LARGEST_TRADE: i64 = 2_000_000_000;

impl Deal {
    // The position that buys.
    pub fn buyer_key(&self) -> PositionKey
        ensures { result ≡ buyer_of self.now }
    {
        self.buyer.key_in(self.swaption)
    }

    // The position that sells.
    pub fn seller_key(&self) -> PositionKey
        ensures { result ≡ seller_of self.now }
    {
        self.seller.key_in(self.swaption)
    }

    // Whether every field is in its range, and the two sides differ.
    pub fn is_sound(&self) -> bool
        ensures { result ≡ sound_deal self.now }
    {
        self.swaption >= 1
            && self.buyer.participant >= 1
            && self.seller.participant >= 1
            && (1..=LARGEST_TRADE).contains(&self.amount)
            && self.buyer != self.seller
    }
}
