// Rule 2: floor shares, then whole blocks by the largest remainder, then the
// rest in list order.
ghost use Rattle.std.specs.Prelude.{◌≡◌, ◌-◌, ◌≤◌, min, map, length, IfSome, OnOk};
ghost use Rattle.assignment.specs.Asks.{Answered, SoundAsk};
ghost use Rattle.assignment.specs.BlockLaws.{Blockwise, FitsInAnyOrder, Waits};
ghost use Rattle.assignment.specs.BlockShares.{blocks, by_remainder, claim_of, floor_share, floors, last_pass, rounds, state, stronger, strongest_from};
ghost use Rattle.assignment.specs.BlockSteps.{Apt, Granted, Standing, TermsOf};
ghost use Rattle.assignment.specs.BlockDuties.{blocks_fit};
ghost use Rattle.assignment.specs.BlockOrder.{by_remainder_proper};

use crate::asks::{Ask, MOST_SELLERS};
use crate::fit_rules::{AssignmentRule, FitRule};
use refusals::Refusal;

#[derive(Clone, Copy, PartialEq, Eq, Debug)]
pub struct Blocks;

// An ask's total and block, and the sum of its open positions. That the ask is sound is asked for and is no ghost
// field: the definitions take the terms of any ask. Positions, flags and amounts are handed to each step beside the
// terms: the definitions take them so, and a struct of all would need a clause for each that a step leaves as it is.
#[derive(Clone, Copy)]
pub struct Terms {
    total: u32,
    block: u32,
    all: u32,
}

// A seller who waits for a block, and its remainder.
#[derive(Clone, Copy)]
pub struct Claim {
    seller: usize,
    remainder: u64,
}

impl Claim {
    // The stronger of this claim and the best of earlier sellers, who keep it on a tie.
    // no `Ord` with `max`: by the remainder alone, claims of different sellers would be equal
    fn against(self, best: Option<Claim>) -> Option<Claim>
        ensures { result ≡ stronger best (Some self) }
    {
        match best {
            Some(earlier) if self.remainder <= earlier.remainder => Some(earlier),
            _ => Some(self),
        }
    }
}

impl Terms {
    // The floor share of a seller.
    #[tactic(auto, using(crate::specs::BlockDuties::share_le))]
    fn share(self, position: u32) -> u32
        requires { Apt self }
        ensures value { result ≡ floor_share self position }
        ensures bound { result ≤ position }
    {
        let count = u64::from(self.total) * u64::from(position)
            / (u64::from(self.all) * u64::from(self.block));
        // an `as` is proved to lose nothing, and `try_from` would bring an error that cannot come
        (u64::from(self.block) * count) as u32
    }

    // The claim of a seller, if it has room for a block and none yet.
    fn claim(self, seller: usize, position: u32, has: bool) -> Option<Claim>
        requires { Apt self }
        ensures { result ≡ claim_of self seller position has }
    {
        let share = self.share(position);
        if has || self.block > position - share {
            return None;
        }
        let remainder = u64::from(self.total) * u64::from(position)
            - u64::from(share) * u64::from(self.all);
        Some(Claim { seller, remainder })
    }

    // The strongest claim to a block.
    fn strongest(self, open: &[u32], held: &[bool]) -> Option<Claim>
        requires { Standing self «open».now held.now }
        ensures value { result ≡ strongest_from self 0 None «open».now held.now }
        ensures waits { IfSome result (λ claim. Waits self «open».now held.now claim.seller) }
    {
        let mut best = None;
        for (i, (&position, &has)) in open.iter().zip(held).enumerate() {
            if let Some(claim) = self.claim(i, position, has) {
                best = claim.against(best);
            }
        }
        best
    }

    // Writes the floor shares, and says what is left of the total.
    fn write_floors(self, open: &[u32], answer: &mut [u32]) -> u32
        requires terms { TermsOf self «open».now }
        requires roomy { length answer.old ≡ length «open».now }
        ensures left { result ≡ (floors self «open».now).left }
        ensures written { answer.new ≡ map (floor_share self) «open».now }
    {
        let mut left = self.total;
        // by index: after a loop over `answer.iter_mut().zip(open)` a proof knows nothing of what was written
        for (i, &position) in open.iter().enumerate() {
            let share = self.share(position);
            answer[i] = share;
            left -= share;
        }
        left
    }

    // Gives whole blocks while there is one and somebody waits for it, and says what is left.
    #[tactic(auto, using(crate::proofs::BlockTurns::granted_places))]
    fn give_blocks(self, mut left: u32, open: &[u32], held: &mut [bool], answer: &mut [u32]) -> u32
        requires { Granted self «open».now held.old answer.old }
        ensures rounds { state result held.new ≡ rounds by_remainder self «open».now (length «open».now) (state left held.old) }
        ensures granted { Granted self «open».now held.new answer.new }
    {
        while left >= self.block {
            let Some(next) = self.strongest(open, held) else {
                break;
            };
            held[next.seller] = true;
            answer[next.seller] += self.block;
            left -= self.block;
        }
        left
    }

    // What a seller without a block gets of what is left.
    fn part(self, left: u32, position: u32, share: u32) -> u32
        requires { share ≤ position }
        ensures { result ≡ min left (min self.block (position - share)) }
    {
        left.min(self.block.min(position - share))
    }

    // Gives what is left to the sellers without a block, in list order.
    #[tactic(auto, using(crate::proofs::BlockTurns::granted_places))]
    fn give_rest(self, mut left: u32, open: &[u32], held: &[bool], answer: &mut [u32])
        requires { Granted self «open».now held.now answer.old }
        ensures { answer.new ≡ last_pass self left «open».now held.now }
    {
        // by index, as in `write_floors`
        for (i, amount) in answer.iter_mut().enumerate() {
            if !held[i] {
                let part = self.part(left, open[i], *amount);
                *amount += part;
                left -= part;
            }
        }
    }
}

impl AssignmentRule for Blocks {
    const NUMBER: u32 = 2;
}

impl FitRule for Blocks {
    ghost meaning = { λ _ total block positions. blocks total block positions };

    ghost fit = { λ rule total block positions sound. blocks_fit by_remainder by_remainder_proper total block positions sound };

    // The trait's clauses stand here again, since this rule adds one of its own.
    fn ask(&self, ask: Ask<'_>, answer: &mut [u32]) -> Result<(), Refusal>
        ensures answered { Answered result (SoundAsk ask.entry.total ask.entry.block ask.entry.«open».now (length answer.old)) (blocks ask.entry.total ask.entry.block ask.entry.«open».now) answer.old answer.new }
        ensures stays { self.exit.now ≡ self.entry.now }
        ensures blockwise { OnOk result (Blockwise ask.entry.total ask.entry.block ask.entry.«open».now answer.new) }
    {
        let all = ask.sound_sum(answer.len())?;
        let terms = Terms {
            total: ask.total,
            block: ask.block,
            all,
        };
        // a list beside the positions, in fixed memory: a rule allocates nothing
        let mut has_block = [false; MOST_SELLERS];
        let held = &mut has_block[..ask.open.len()];
        let after_floors = terms.write_floors(ask.open, answer);
        let rest = terms.give_blocks(after_floors, ask.open, held, answer);
        terms.give_rest(rest, ask.open, held, answer);
        Ok(())
    }
}

// That the amounts of rule 2 fit does not depend on who is next.
pub fn blocks_fit_in_any_order()
    ensures { FitsInAnyOrder }
{}
