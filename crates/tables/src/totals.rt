// What records add up to.
ghost use Rattle.std.specs.Prelude.{◌≡◌, ℕ, ◌^◌, ◌<◌, sum_by};

// A record that counts for some amount.
pub trait Counted {
    ghost counts: { Self → ℕ };

    fn counted(&self) -> u64
        ensures { result ≡ counts self.now };
}

// The sum of the amounts, by a plain `for` over records of any kind: a rule of the project fixes that form.
pub fn total<T: Counted>(rows: &[T]) -> u128
    ensures sum { result ≡ sum_by T.counts rows.now }
    ensures fits { sum_by T.counts rows.now < 2 ^ 128 }
{
    let mut sum = 0;
    for row in rows {
        sum += u128::from(row.counted());
    }
    sum
}
