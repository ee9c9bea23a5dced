// The rows of the table of refusals, by plain figures.
ghost use Rattle.std.specs.Prelude.{◌≡◌, ◌+◌, ◌^◌, ◌<◌};
ghost use Rattle.tally.specs.Table.{trade_rows};
ghost use Rattle.book.specs.Judging.{ListJudged};

use crate::books::{MOST_POSITIONS, MOST_SWAPTIONS};
use refusals::Refusal;
use tally::deals::Deal;
use tally::listings::Terms;

// What the trades in a swaption may add up to. It limits another thing than the other limits of this value.
const MOST_TRADED: u64 = 2_000_000_000;

// Where a swaption of these terms belongs, if it may be listed: by the place that
// a search answered for its number, and how many are listed.
pub(crate) fn judge_list(
    terms: &Terms,
    place: Result<usize, usize>,
    count: usize,
) -> Result<usize, Refusal>
    ensures { ListJudged terms.now place count result }
{
    if !terms.is_sound() {
        return Err(Refusal::InvalidTerms);
    }
    let Err(at) = place else {
        return Err(Refusal::AlreadyListed);
    };
    if count >= MOST_SWAPTIONS {
        return Err(Refusal::BookFull);
    }
    Ok(at)
}

// The answer to a sound trade in a listed swaption: what is traded in it, how
// many positions are missing, and how many there are.
pub(crate) fn judge_trade(
    deal: &Deal,
    terms: &Terms,
    latest: u32,
    traded: u64,
    missing: usize,
    count: usize,
) -> Result<(), Refusal>
    requires { count + missing < 2 ^ 64 }
    ensures { result ≡ trade_rows deal.now terms.now latest traded missing count }
{
    if deal.moment < latest {
        return Err(Refusal::MomentPassed);
    }
    if deal.moment >= terms.cease {
        return Err(Refusal::OutsideWindow);
    }
    if traded.saturating_add(deal.amount.unsigned_abs()) > MOST_TRADED {
        return Err(Refusal::TradedTooMuch);
    }
    if count + missing > MOST_POSITIONS {
        return Err(Refusal::BookFull);
    }
    Ok(())
}
