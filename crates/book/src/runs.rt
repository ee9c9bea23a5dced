// Calls given to a book, one or many.
ghost use Rattle.std.specs.Prelude.{IfOk};
ghost use Rattle.tally.specs.History.{History};
ghost use Rattle.tally.specs.Tally.{World};
ghost use Rattle.book.specs.Promise.{Ran, Records, Told};

use crate::books::Book;
use refusals::Refusal;
use std::alloc::{AllocError, Global};
use tally::calls::Call;

impl Book {
    // Gives the book one call. None if the call does not run yet; the book is
    // then as it was.
    pub fn apply<R>(&mut self, call: &Call<R>) -> Option<Result<(), Refusal>>
        ensures { (w : World R) (t : History) → Records t self.old → Told w t call.now result self.old self.new }
    {
        match call {
            Call::List(listing) => Some(self.list(listing)),
            Call::Trade(deal) => Some(self.trade(deal)),
            _ => None,
        }
    }
}

// What a list of calls came to.
#[derive(Drop)]
pub struct Outcome {
    pub book: Book,
    // For each call its answer, or none if the call does not run yet.
    pub answers: Vec<Option<Result<(), Refusal>>>,
}

// Gives a new book each of the calls in turn.
pub fn run<R>(heap: Global, calls: &[Call<R>]) -> Result<Outcome, AllocError>
    ensures { IfOk result (λ x. (w : World R) → Ran w calls.now x.answers.items x.book) }
{
    let mut book = Book::new();
    let mut answers = Vec::new(heap);
    for call in calls {
        let answer = book.apply(call);
        answers.push(answer)?;
    }
    Ok(Outcome { book, answers })
}
