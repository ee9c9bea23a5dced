// The book at the edges of what it takes.
#![tactic(auto)]

#[cfg(test)]
mod checks;
#[cfg(test)]
mod full_books;
#[cfg(test)]
mod lists;
#[cfg(test)]
mod positions;
#[cfg(test)]
mod samples;
#[cfg(test)]
mod trades;
#[cfg(test)]
mod unchanged;
