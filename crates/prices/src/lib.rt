// Prices, what they come from, and what a payoff is worth at one.
#![tactic(auto)]

mod marks;
mod payoffs;
mod price_rows;
mod rows;
mod sources;
mod tapes;
#[cfg(test)]
mod tests;
mod worked_values;

pub use marks::{Mark, Marks};
pub use payoffs::{Kind, Payoff, UnknownKind};
pub use price_rows::PriceRows;
pub use rows::{HIGHEST_PRICE, RankedPrice, UnsoundRow};
pub use sources::PriceSource;
pub use tapes::{Tape, TapeRow};
pub use worked_values::worked_values_hold;
