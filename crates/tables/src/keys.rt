// Keys, and records that have one.
ghost use Rattle.std.specs.Prelude.{◌≡◌, Bool, true, nat_lt};
ghost use Rattle.std.specs.Ordering.{MatchOrdering};
ghost use Rattle.tables.specs.Orders.{ExactlyOne, nat_one, nat_transitive};
ghost use Rattle.std.proofs.Common.{rules};

use std::cmp::Ordering;

// A kind of key, with its order.
pub trait Key: Copy {
    // Whether one key is less than another.
    ghost less: { Self → Self → Bool };

    // How the key stands to another. It is no supertrait `Ord`, which would keep out kinds of keys that Rust does not
    // compare, or compares otherwise.
    fn compare(&self, other: &Self) -> Ordering
        ensures { MatchOrdering result (less self.now other.now ≡ true) (self.now ≡ other.now) (less other.now self.now ≡ true) };

    // Of less, equal and greater exactly one holds.
    ghost exactly_one: { (a b : Self) → ExactlyOne (less a b) (a ≡ b) (less b a) };

    ghost transitive: { (a b c : Self) → less a b ≡ true → less b c ≡ true → less a c ≡ true };
}

// A kind of key that Rust compares by its order.
pub trait OrderedKey: Key + Ord {
    // The order of the keys is that of `less`.
    ghost ordered: { (a b : Self) → MatchOrdering (Self.cmp a b) (Self.less a b ≡ true) (a ≡ b) (Self.less b a ≡ true) };
}

// A record with a key.
pub trait Keyed {
    type Key: Key;

    // The key of a record.
    ghost named: { Self → Self.Key };

    fn key(&self) -> Self::Key
        ensures { result ≡ named self.now };
}

impl Key for u16 {
    ghost less = { nat_lt };

    ghost exactly_one = { nat_one };

    ghost transitive = { nat_transitive };

    fn compare(&self, other: &u16) -> Ordering {
        self.cmp(other)
    }
}

impl OrderedKey for u16 {
    ghost ordered = { Prim.search rules };
}
