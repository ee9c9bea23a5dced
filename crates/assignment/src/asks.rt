// An ask: a total, a block and the sellers' open positions.
ghost use Rattle.std.specs.Prelude.{◌≡◌, MatchOption, MatchResult};
ghost use Rattle.assignment.specs.Asks.{Opens, SoundAsk, sum_of};

use refusals::Refusal;

// How many sellers a sound ask has at most.
pub const MOST_SELLERS: usize = 256;

// The limit of what the open positions of a sound ask add up to. Here and elsewhere each limit of this value
// stands for itself: it limits another thing.
const MOST_OPEN: u32 = 2_000_000_000;

// The limit of the block of a sound ask.
pub const MOST_BLOCK: u32 = 2_000_000_000;

// How much is to be split, in which blocks, over which open positions. The amounts are no part of it: a rule writes
// them to a list that it is handed beside.
#[derive(Clone, Copy, PartialEq, Eq, Debug)]
pub struct Ask<'a> {
    pub total: u32,
    pub block: u32,
    pub open: &'a [u32],
}

// The sum of open positions, if each is open and the sum is within its limit.
fn open_sum(open: &[u32]) -> Option<u32>
    ensures { MatchOption result (Opens «open».now → ⊥) (λ sum. Opens «open».now × (sum ≡ sum_of «open».now)) }
{
    let mut sum = 0;
    for &position in open {
        if !(1..=MOST_OPEN - sum).contains(&position) {
            return None;
        }
        sum += position;
    }
    Some(sum)
}

impl Ask<'_> {
    // The sum of the open positions, if the ask is sound with an answer list of so many places.
    pub fn sound_sum(self, places: usize) -> Result<u32, Refusal>
        ensures { MatchResult result (λ sum. SoundAsk self.entry.total self.entry.block self.entry.«open».now places × (sum ≡ sum_of self.entry.«open».now)) (λ refusal. (SoundAsk self.entry.total self.entry.block self.entry.«open».now places → ⊥) × (refusal ≡ Refusal.UnsoundAsk)) }
    {
        if self.open.len() > MOST_SELLERS || places != self.open.len() {
            return Err(Refusal::UnsoundAsk);
        }
        if !(1..=MOST_BLOCK).contains(&self.block) {
            return Err(Refusal::UnsoundAsk);
        }
        open_sum(self.open)
            .filter(|sum| self.total <= *sum)
            .ok_or(Refusal::UnsoundAsk)
    }
}
