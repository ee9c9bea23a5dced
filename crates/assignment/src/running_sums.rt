// Rule 1: running sums.
ghost use Rattle.std.specs.Prelude.{◌≡◌, ◌*◌, ◌/◌, ◌<◌};
ghost use Rattle.assignment.specs.RunningSums.{running};
ghost use Rattle.assignment.specs.RunningDuties.{running_fits};

use crate::asks::Ask;
use crate::fit_rules::{AssignmentRule, FitRule};
use refusals::Refusal;

#[derive(Clone, Copy, PartialEq, Eq, Debug)]
pub struct Running;

// What is due to positions that add up to `part` of the sum, the fraction dropped.
fn due_to(total: u32, part: u32, sum: u32) -> u64
    requires { 0 < sum }
    ensures { result ≡ total * part / sum }
{
    u64::from(total) * u64::from(part) / u64::from(sum)
}

impl AssignmentRule for Running {
    const NUMBER: u32 = 1;
}

impl FitRule for Running {
    ghost meaning = { λ _ total _ positions. running total positions };

    ghost fit = { λ r total block held sound. running_fits total block held sound };

    fn ask(&self, ask: Ask<'_>, answer: &mut [u32]) -> Result<(), Refusal> {
        let sum = ask.sound_sum(answer.len())?;
        let mut before = 0;
        let mut paid = 0;
        // by index: after a loop over `answer.iter_mut().zip(ask.open)` a proof knows nothing of what was written
        for (i, &position) in ask.open.iter().enumerate() {
            before += position;
            let due = due_to(ask.total, before, sum);
            // an `as` is proved to lose nothing, and `try_from` would bring an error that cannot come
            answer[i] = (due - paid) as u32;
            paid = due;
        }
        Ok(())
    }
}
