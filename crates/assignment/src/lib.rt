// The assignment of an exercised total to sellers: what an ask is, the rules
// that answer it, and what makes a rule fit.
#![tactic(auto)]

mod asks;
mod block_shares;
mod choices;
mod fit_rules;
mod running_sums;
mod worked_asks;

pub use asks::{Ask, MOST_BLOCK};
pub use block_shares::{Blocks, blocks_fit_in_any_order};
pub use choices::{Choice, UnknownRule};
pub use fit_rules::{AssignmentRule, FitRule, assign_by};
pub use running_sums::Running;
pub use worked_asks::worked_asks_hold;
