// A short day of lists and trades: each call with its answer, then the
// positions.
#![tactic(auto)]

mod day;

use book::run;
use refusals::Refusal;
use std::fmt;
use tally::calls::Call;

// What a call was answered: 0 if it was accepted, else the refusal's number.
#[derive(Clone, Copy)]
struct Answered(Result<(), Refusal>);

impl fmt::Display for Answered {
    fn fmt<W: fmt::Write>(&self, f: &mut fmt::Formatter<W>) -> fmt::Result {
        match self.0 {
            Ok(()) => write!(f, "0"),
            Err(refusal) => write!(f, "{}", refusal.number()),
        }
    }
}

// The text of a call is this program's own, and so no `Display` of `Call`.
fn print_call(
    rt: &HostRuntime,
    place: u64,
    call: &Call<()>,
    answer: &Answered,
) -> anyhow::Result<()> {
    match call {
        Call::List(listing) => println!(rt; "{place}: list {}: {answer}", listing.number)?,
        Call::Trade(deal) => println!(rt;
            "{place}: trade {} of {} at {}: {answer}",
            deal.amount, deal.swaption, deal.moment,
        )?,
        _ => println!(rt; "{place}: not yet available")?,
    }
    Ok(())
}

fn print_day(rt: &HostRuntime, calls: &[Call<()>]) -> anyhow::Result<()> {
    let outcome = run(rt.alloc(), calls)?;
    for ((call, answer), place) in calls.iter().zip(&outcome.answers).zip(1u64..) {
        if let Some(answer) = answer {
            print_call(rt, place, call, &Answered(*answer))?;
        }
    }
    for position in outcome.book.positions() {
        println!(rt; "position {position}")?;
    }
    Ok(())
}

fn main(rt: HostRuntime) -> anyhow::Result<()> {
    print_day(&rt, &day::calls())
}
