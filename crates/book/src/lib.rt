// The expiry book: swaptions and positions in key order, and the calls on it.
#![tactic(auto)]

mod books;
mod judgements;
mod lists;
mod places;
mod position_tables;
mod positions;
mod readers;
mod row_changes;
mod row_tables;
mod runs;
mod swaption_tables;
mod swaptions;
mod trades;

pub use books::Book;
pub use positions::Position;
pub use runs::{Outcome, run};
pub use swaptions::Swaption;
