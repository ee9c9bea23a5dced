// The calls that an expiry book takes, and the words in which it is promised
// what they come to: the table of refusals, the history of accepted calls, and
// all that is read off it. The definitions are in specs/.
#![tactic(auto)]

pub mod calls;
pub mod deals;
pub mod keys;
pub mod listings;
pub mod stances;
