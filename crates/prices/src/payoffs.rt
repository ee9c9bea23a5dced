// What a net position is worth at a price.
ghost use Rattle.std.specs.Prelude.{◌≡◌, Some};
ghost use Rattle.prices.specs.Kinds.{KindNumbered};
ghost use Rattle.prices.specs.Refused.{unknown_shown};
ghost use Rattle.prices.specs.Values.{gain_of, in_the_money, value};

use std::error::Error;
use std::fmt;

#[derive(Clone, Copy, PartialEq, Eq, Debug)]
pub enum Kind {
    Payer,
    Receiver,
}

// A number that stands for no kind.
#[derive(Clone, Copy, PartialEq, Eq, Debug)]
pub struct UnknownKind(pub u16);

// The kind that a number stands for.
impl TryFrom<u16> for Kind {
    type Error = UnknownKind;

    ghost try_from_gives = { KindNumbered };

    fn try_from(number: u16) -> Result<Self, UnknownKind> {
        match number {
            1 => Ok(Kind::Payer),
            2 => Ok(Kind::Receiver),
            _ => Err(UnknownKind(number)),
        }
    }
}

// by hand, here and at `Error`, since a derived text has no contract
impl fmt::Display for UnknownKind {
    ghost output = { λ unknown. Some (unknown_shown unknown) };

    fn fmt<W: fmt::Write>(&self, f: &mut fmt::Formatter<W>) -> fmt::Result {
        write!(f, "no kind of swaption has number {}", self.0)
    }
}

impl Error for UnknownKind {}

// The terms by which a position pays: a strike, and the least value to exercise for.
#[derive(Clone, Copy, PartialEq, Eq, Debug)]
pub struct Payoff {
    pub kind: Kind,
    pub strike: u32,
    pub minimum: u64,
}

impl Payoff {
    // What one contract gains at a price.
    fn gain(&self, price: u32) -> i64
        ensures { result ≡ gain_of self.now.kind self.now.strike price }
    {
        match self.kind {
            Kind::Payer => i64::from(self.strike) - i64::from(price),
            Kind::Receiver => i64::from(price) - i64::from(self.strike),
        }
    }

    // What a net position is worth at a price, exactly.
    pub fn value(&self, net: i64, price: u32) -> i128
        ensures { result ≡ value self.now net price }
    {
        i128::from(net) * i128::from(self.gain(price))
    }

    // Whether that value is above zero and not below the minimum.
    pub fn in_the_money(&self, net: i64, price: u32) -> bool
        ensures { result ≡ in_the_money self.now net price }
    {
        let value = self.value(net, price);
        value > 0 && value >= i128::from(self.minimum)
    }
}
