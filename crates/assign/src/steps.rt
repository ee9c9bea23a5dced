// A seller's step: its pro-rata level, and how far its amount is from it.
ghost use Rattle.std.specs.Prelude.{◌≡◌, ◌<◌, Some};
ghost use Rattle.assign.specs.Steps.{distance_of, distance_shown, mixed_of, mixed_shown, step_of, step_shown};

use std::cmp::Ordering;
use std::fmt;

// Whole units, and parts of one over, of which `of` make a whole.
#[derive(Clone, Copy)]
pub struct Mixed {
    whole: u64,
    over: u64,
    of: u32,
}

// How far an amount is from its level.
#[derive(Clone, Copy)]
pub enum Distance {
    At,
    Above(Mixed),
    Under(Mixed),
}

// A seller with its open position, its pro-rata level and its amount.
#[derive(Clone, Copy)]
pub struct Step {
    seller: usize,
    position: u32,
    level: Mixed,
    amount: u32,
    distance: Distance,
}

// A total that is split over open positions, of which there is one at least: the level of a position is
// total × position ÷ sum. Levels and amounts are measured in parts of a unit, of which `sum` make a whole.
#[derive(Clone, Copy)]
pub struct ProRata {
    pub total: u32,
    pub sum: u32,
    ghost some_open: { 0 < sum },
}

impl ProRata {
    // The step of a seller.
    pub fn step(self, seller: usize, position: u32, amount: u32) -> Step
        ensures { result ≡ step_of seller self.total self.sum position amount }
    {
        let level = u64::from(self.total) * u64::from(position);
        Step {
            seller,
            position,
            level: self.mixed(level),
            amount,
            distance: self.distance(u64::from(amount) * u64::from(self.sum), level),
        }
    }

    // How far an amount is from a level.
    fn distance(self, amount: u64, level: u64) -> Distance
        ensures { result ≡ distance_of amount level self.sum }
    {
        match amount.cmp(&level) {
            Ordering::Equal => Distance::At,
            Ordering::Greater => Distance::Above(self.mixed(amount - level)),
            Ordering::Less => Distance::Under(self.mixed(level - amount)),
        }
    }

    // So many parts.
    fn mixed(self, parts: u64) -> Mixed
        ensures { result ≡ mixed_of parts self.sum }
    {
        Mixed {
            whole: parts / u64::from(self.sum),
            over: parts % u64::from(self.sum),
            of: self.sum,
        }
    }
}

impl fmt::Display for Mixed {
    ghost output = { λ m. Some (mixed_shown m) };

    fn fmt<W: fmt::Write>(&self, f: &mut fmt::Formatter<W>) -> fmt::Result {
        if self.over == 0 {
            write!(f, "{}", self.whole)
        } else if self.whole == 0 {
            write!(f, "{}/{}", self.over, self.of)
        } else {
            write!(f, "{} {}/{}", self.whole, self.over, self.of)
        }
    }
}

impl fmt::Display for Distance {
    ghost output = { λ d. Some (distance_shown d) };

    fn fmt<W: fmt::Write>(&self, f: &mut fmt::Formatter<W>) -> fmt::Result {
        match self {
            Distance::At => write!(f, "just that"),
            Distance::Above(by) => write!(f, "{by} above it"),
            Distance::Under(by) => write!(f, "{by} below it"),
        }
    }
}

impl fmt::Display for Step {
    ghost output = { λ step. Some (step_shown step) };

    fn fmt<W: fmt::Write>(&self, f: &mut fmt::Formatter<W>) -> fmt::Result {
        write!(
            f,
            "seller {}: open {}, pro rata {}, gets {}, {}",
            self.seller, self.position, self.level, self.amount, self.distance
        )
    }
}
