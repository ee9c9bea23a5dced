// What an assignment rule is.
ghost use Rattle.std.specs.Prelude.{◌≡◌, ℕ, List, length, OnOk};
ghost use Rattle.assignment.specs.Asks.{Answered, Fit, Sound, SoundAsk};

use crate::asks::Ask;
use refusals::Refusal;

// A rule that can be asked, and keeps the duties of a fit rule.
pub trait FitRule {
    // The amounts that the rule means for a total, a block and the open positions.
    ghost meaning: { Self → ℕ → ℕ → List ℕ → List ℕ };

    // Writes the amounts of a sound ask to the answer list; refuses any other.
    fn ask(&self, ask: Ask<'_>, answer: &mut [u32]) -> Result<(), Refusal>
        ensures answered { Answered result (SoundAsk ask.entry.total ask.entry.block ask.entry.«open».now (length answer.old)) (meaning self.now ask.entry.total ask.entry.block ask.entry.«open».now) answer.old answer.new }
        ensures stays { self.exit.now ≡ self.entry.now };

    // The duties, for every sound ask. The same ask always has the same amounts, since they are a function of it.
    ghost fit: { (rule : Self) (total block : ℕ) (positions : List ℕ) → Sound total block positions → Fit total block positions (meaning rule total block positions) };
}

// A fit rule with the number by which an event picks it.
pub trait AssignmentRule: FitRule {
    const NUMBER: u32;
}

// Asks any fit rule. That the amounts fit follows from the rule's duties alone. That the rule stays as it is is handed
// on from the trait.
pub fn assign_by<R: FitRule>(rule: &R, ask: Ask<'_>, answer: &mut [u32]) -> Result<(), Refusal>
    ensures answered { Answered result (SoundAsk ask.entry.total ask.entry.block ask.entry.«open».now (length answer.old)) (R.meaning rule.now ask.entry.total ask.entry.block ask.entry.«open».now) answer.old answer.new }
    ensures fits { OnOk result (Fit ask.entry.total ask.entry.block ask.entry.«open».now answer.new) }
    ensures stays { rule.exit.now ≡ rule.entry.now }
{
    rule.ask(ask, answer)
}
