// Rows with a key and an amount.
ghost use Rattle.std.specs.Prelude.{nat_lt};
ghost use Rattle.std.proofs.Common.{rules};

use crate::changes::{NoSuchPlace, insert_at, replace};
use crate::finds::find;
use crate::keys::{Key, Keyed};
use crate::totals::{Counted, total};
use std::cmp::Ordering;

#[derive(Clone, Copy)]
struct Row {
    name: u16,
    amount: u64,
}

impl Keyed for Row {
    type Key = u16;

    ghost named = { λ row. row.name };

    fn key(&self) -> u16 {
        self.name
    }
}

impl Counted for Row {
    ghost counts = { λ row. row.amount };

    fn counted(&self) -> u64 {
        self.amount
    }
}

// A kind of key that Rust does not compare: the larger number comes first.
#[derive(Clone, Copy)]
struct Newest {
    moment: u16,
}

impl Key for Newest {
    ghost less = { λ a b. nat_lt b.moment a.moment };

    ghost exactly_one = { Prim.search rules };

    ghost transitive = { Prim.search rules };

    fn compare(&self, other: &Newest) -> Ordering {
        other.moment.cmp(&self.moment)
    }
}

impl Keyed for Newest {
    type Key = Newest;

    ghost named = { λ key. key };

    fn key(&self) -> Newest {
        *self
    }
}

fn at(moment: u16) -> Newest {
    Newest { moment }
}

fn row_of(name: u16) -> Row {
    Row { name, amount: 1 }
}

#[test]
fn no_rows(rt: HostRuntime) {
    let none: [Row; 0] = [];
    assert_eq!(rt; find(&none, &5), Err(0));
    assert_eq!(rt; total(&none), 0);
}

#[test]
fn one_row(rt: HostRuntime) {
    let rows = [row_of(5)];
    assert_eq!(rt; find(&rows, &4), Err(0));
    assert_eq!(rt; find(&rows, &5), Ok(0));
    assert_eq!(rt; find(&rows, &6), Err(1));
}

#[test]
fn several_rows(rt: HostRuntime) {
    let rows = [row_of(2), row_of(4), row_of(6), row_of(8)];
    assert_eq!(rt; find(&rows, &1), Err(0));
    assert_eq!(rt; find(&rows, &2), Ok(0));
    assert_eq!(rt; find(&rows, &5), Err(2));
    assert_eq!(rt; find(&rows, &8), Ok(3));
    assert_eq!(rt; find(&rows, &9), Err(4));
}

#[test]
fn repeated_keys(rt: HostRuntime) {
    let rows = [row_of(2), row_of(4), row_of(4), row_of(4), row_of(6)];
    assert_eq!(rt; find(&rows, &4), Ok(3));
    assert_eq!(rt; find(&rows, &4), Ok(3));
    assert_eq!(rt; find(&rows, &5), Err(4));
}

#[test]
fn rows_put_in(rt: HostRuntime) {
    let mut numbers = [1, 2, 3];
    assert_eq!(rt; insert_at(&mut numbers, 0, 7), Ok(()));
    assert_eq!(rt; numbers, [7, 1, 2]);
    assert_eq!(rt; insert_at(&mut numbers, 1, 8), Ok(()));
    assert_eq!(rt; numbers, [7, 8, 1]);
    assert_eq!(rt; insert_at(&mut numbers, 2, 9), Ok(()));
    assert_eq!(rt; numbers, [7, 8, 9]);
    assert_eq!(rt; insert_at(&mut numbers, 3, 5), Err(NoSuchPlace));
    assert_eq!(rt; numbers, [7, 8, 9]);
}

#[test]
fn row_replaced(rt: HostRuntime) {
    let mut numbers = [1, 2, 3];
    assert_eq!(rt; replace(&mut numbers, 1, 7), Ok(()));
    assert_eq!(rt; numbers, [1, 7, 3]);
    assert_eq!(rt; replace(&mut numbers, 3, 5), Err(NoSuchPlace));
    assert_eq!(rt; numbers, [1, 7, 3]);
}

#[test]
fn amounts_added_up(rt: HostRuntime) {
    let largest = Row {
        name: 1,
        amount: u64::MAX,
    };
    assert_eq!(rt;
        total(&[largest, row_of(2), largest]),
        36_893_488_147_419_103_231
    );
}

#[test]
fn rows_of_keys_that_rust_does_not_compare(rt: HostRuntime) {
    let rows = [at(8), at(6), at(2)];
    assert_eq!(rt; find(&rows, &at(9)), Err(0));
    assert_eq!(rt; find(&rows, &at(6)), Ok(1));
    assert_eq!(rt; find(&rows, &at(5)), Err(2));
    assert_eq!(rt; find(&rows, &at(1)), Err(3));
}
