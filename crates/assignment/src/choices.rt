// A choice among the numbered rules, made when the program runs.
ghost use Rattle.std.specs.Prelude.{◌≡◌, Some};
ghost use Rattle.assignment.specs.Choices.{RuleByNumber, chosen, no_rule_shown, rule_number};
ghost use Rattle.assignment.specs.BlockShares.{by_remainder};
ghost use Rattle.assignment.specs.declared.choices.Choice.TheVariants.{Running, Blocks};
ghost use Rattle.assignment.specs.BlockDuties.{blocks_fit};
ghost use Rattle.assignment.specs.BlockOrder.{by_remainder_proper};
ghost use Rattle.assignment.specs.RunningDuties.{running_fits};

use crate::asks::Ask;
use crate::block_shares::Blocks;
use crate::fit_rules::{AssignmentRule, FitRule};
use crate::running_sums::Running;
use refusals::Refusal;
use std::error::Error;
use std::fmt;

#[derive(Clone, Copy, PartialEq, Eq, Debug)]
pub enum Choice {
    Running(Running),
    Blocks(Blocks),
}

// A number that no rule bears.
#[derive(Clone, Copy, PartialEq, Eq, Debug)]
pub struct UnknownRule(pub u32);

// The rule that bears the number.
impl TryFrom<u32> for Choice {
    type Error = UnknownRule;

    ghost try_from_gives = { RuleByNumber };

    fn try_from(number: u32) -> Result<Self, UnknownRule> {
        match number {
            Running::NUMBER => Ok(Choice::Running(Running)),
            Blocks::NUMBER => Ok(Choice::Blocks(Blocks)),
            _ => Err(UnknownRule(number)),
        }
    }
}

// "there is no rule 7".
// by hand, here and at `Error`, since a derived text has no contract
impl fmt::Display for UnknownRule {
    ghost output = { λ unknown. Some (no_rule_shown unknown.0) };

    fn fmt<W: fmt::Write>(&self, f: &mut fmt::Formatter<W>) -> fmt::Result {
        write!(f, "there is no rule {}", self.0)
    }
}

impl Error for UnknownRule {}

impl Choice {
    // The number of the chosen rule.
    pub fn number(&self) -> u32
        ensures { result ≡ rule_number self.now }
    {
        match self {
            Choice::Running(_) => Running::NUMBER,
            Choice::Blocks(_) => Blocks::NUMBER,
        }
    }
}

impl FitRule for Choice {
    ghost meaning = { chosen };

    ghost fit = { elim [
      | Running _ ↦ λ total block positions sound. running_fits total block positions sound
      | Blocks _ ↦ λ total block positions sound. blocks_fit by_remainder by_remainder_proper total block positions sound
    ] };

    fn ask(&self, ask: Ask<'_>, answer: &mut [u32]) -> Result<(), Refusal> {
        match self {
            Choice::Running(rule) => rule.ask(ask, answer),
            Choice::Blocks(rule) => rule.ask(ask, answer),
        }
    }
}
