// The eight calls, each with all that it hands over.
use crate::deals::Deal;
use crate::keys::Party;
use crate::listings::Listing;

// Who speaks for a position.
#[derive(Clone, Copy, PartialEq, Eq, Debug)]
pub struct Submitter {
    pub participant: u16,
    pub client: u16,
}

// That buyers in the money stand with their whole positions.
#[derive(Clone, Copy, PartialEq, Eq, Debug)]
pub struct Proposal {
    pub swaption: u16,
    pub moment: u32,
}

// A preliminary or a final notice: how much of a position is exercised. Here and in
// a withdrawal the swaption stands beside the party and not in a `PositionKey`, as in
// a trade, which names it once for two parties: all calls are handed over alike.
#[derive(Clone, Copy, PartialEq, Eq, Debug)]
pub struct ExerciseNotice {
    pub swaption: u16,
    pub position: Party,
    pub submitter: Submitter,
    pub amount: i64,
    pub moment: u32,
}

// That a preliminary notice is taken back.
#[derive(Clone, Copy, PartialEq, Eq, Debug)]
pub struct Withdrawal {
    pub swaption: u16,
    pub position: Party,
    pub submitter: Submitter,
    pub moment: u32,
}

// The price source that a failure names.
#[derive(Clone, Copy, PartialEq, Eq, Debug)]
pub enum SourceName {
    Marks,
    Tape,
}

// That the exercise system failed, so that whoever is in the money is exercised.
#[derive(Clone, Copy, PartialEq, Eq, Debug)]
pub struct SystemFailure {
    pub swaption: u16,
    pub source: SourceName,
    pub moment: u32,
}

// That the exercised total is assigned to the sellers by a rule.
#[derive(Drop)]
pub struct Assignment<R> {
    pub swaption: u16,
    pub rule: R,
    pub moment: u32,
}

#[derive(Drop)]
pub enum Call<R> {
    List(Listing),
    Trade(Deal),
    Propose(Proposal),
    Preliminary(ExerciseNotice),
    Withdraw(Withdrawal),
    Notice(ExerciseNotice),
    Failure(SystemFailure),
    Assign(Assignment<R>),
}
