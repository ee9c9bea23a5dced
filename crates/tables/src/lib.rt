// Rows of any kind: kept in the order of their keys, searched, changed and added up.
#![tactic(auto)]

mod changes;
mod finds;
mod keys;
#[cfg(test)]
mod tests;
mod totals;

pub use changes::{NoSuchPlace, insert_at, insert_two, replace};
pub use finds::find;
pub use keys::{Key, Keyed, OrderedKey};
pub use totals::{Counted, total};
