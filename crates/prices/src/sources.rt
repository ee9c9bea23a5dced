// What a price source is. A price counts hundred-thousandths of par.
ghost use Rattle.std.specs.Prelude.{◌≡◌, ℕ, ◌≤◌, Some, Option};
ghost use Rattle.prices.specs.Rows.{highest_price};

// What answers a price, or none, for an index and a moment.
pub trait PriceSource {
    // The answer, by what the source holds, an index and a moment alone.
    ghost quoted: { Self → ℕ → ℕ → Option ℕ };

    // The price of an index at a moment, if there is one. It is asked by these two alone, here and in each source.
    fn price(&self, index: u16, moment: u32) -> Option<u32>
        ensures answered { result ≡ quoted self.now index moment }
        ensures stays { self.exit.now ≡ self.entry.now };

    // No price is above the highest.
    ghost in_range: { (s : Self) (i m p : ℕ) → quoted s i m ≡ Some p → p ≤ highest_price };
}
