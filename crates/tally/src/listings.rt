// A swaption's terms, as they are handed over and as they are once checked.
ghost use Rattle.std.specs.Prelude.{◌≡◌};
ghost use Rattle.tally.specs.Listings.{Stated, sound_blocks, sound_payoff, sound_terms};

use assignment::MOST_BLOCK;
use prices::{HIGHEST_PRICE, Kind, Payoff, UnknownKind};

// The block that amounts are exercised in, and the block that they are assigned
// in. Where no exercise block is given it is 0 and not an `Option`, since that is
// how a listing is handed over, and it then counts as 1.
#[derive(Clone, Copy, PartialEq, Eq, Debug)]
pub struct Blocks {
    pub exercise: u32,
    pub assignment: u32,
}

// Terms as they come from outside: any values.
#[derive(Clone, Copy, PartialEq, Eq, Debug)]
pub struct Listing {
    pub number: u16,
    pub index: u16,
    // A number and no kind: whoever lists may hand over any, and what stands for none is refused.
    pub kind: u16,
    pub strike: u32,
    pub blocks: Blocks,
    pub minimum: u64,
    pub cease: u32,
    pub start: u32,
    pub cutoff: u32,
}

#[derive(Clone, Copy, PartialEq, Eq, Debug)]
pub struct Terms {
    pub number: u16,
    pub index: u16,
    pub payoff: Payoff,
    pub blocks: Blocks,
    pub cease: u32,
    pub start: u32,
    pub cutoff: u32,
}

// The largest block to exercise in; the largest to assign in is the rules', and another thing.
const LARGEST_EXERCISE_BLOCK: u32 = 2_000_000_000;

const LARGEST_MINIMUM: u64 = 400_000_000_000_000;

impl Blocks {
    // Whether both are in their ranges.
    pub fn are_sound(&self) -> bool
        ensures { result ≡ sound_blocks self.now }
    {
        self.exercise <= LARGEST_EXERCISE_BLOCK && (1..=MOST_BLOCK).contains(&self.assignment)
    }
}

// Whether a strike and a minimum value are in their ranges.
pub fn sound_payoff(payoff: &Payoff) -> bool
    ensures { result ≡ sound_payoff payoff.now }
{
    payoff.strike <= HIGHEST_PRICE && payoff.minimum <= LARGEST_MINIMUM
}

impl Terms {
    // Whether every field is in its range and the moments are in order.
    pub fn is_sound(&self) -> bool
        ensures { result ≡ sound_terms self.now }
    {
        self.number >= 1
            && sound_payoff(&self.payoff)
            && self.blocks.are_sound()
            && self.cease <= self.start
            && self.start < self.cutoff
    }
}

// The terms that a listing states.
impl TryFrom<Listing> for Terms {
    type Error = UnknownKind;

    ghost try_from_gives = { Stated };

    fn try_from(listing: Listing) -> Result<Self, UnknownKind> {
        let kind = Kind::try_from(listing.kind)?;
        Ok(Terms {
            number: listing.number,
            index: listing.index,
            payoff: Payoff {
                kind,
                strike: listing.strike,
                minimum: listing.minimum,
            },
            blocks: listing.blocks,
            cease: listing.cease,
            start: listing.start,
            cutoff: listing.cutoff,
        })
    }
}
