// What is printed for a line.
ghost use Rattle.std.specs.Prelude.{◌≡◌, ◌^◌, ◌<◌, ◌++◌, length, IfOk, IfSome, OnOk, Some, string_bytes, codes, decimal};
ghost use Rattle.std.specs.Option.{option_map};
ghost use Rattle.asktext.specs.Format.{line_says};
ghost use Rattle.assignment.specs.Choices.{rule_of};
ghost use Rattle.assignment.specs.Asks.{Opens, sum_of};
ghost use Rattle.assign.specs.Report.{AskReported, NumberReported, Reported, accepted_shown, ask_shown, numbers_shown, steps_shown, unreadable_shown};

use crate::steps::ProRata;
use asktext::{AskLine, ReadError, read_line};
use assignment::{Ask, Choice, assign_by};
use std::alloc::{AllocError, Global};
use std::fmt;

// Numbers, a blank before each.
#[derive(Clone, Copy)]
struct Numbers<'a>(&'a [u32]);

impl fmt::Display for Numbers<'_> {
    ghost output = { λ numbers. Some (numbers_shown numbers.0.now) };

    fn fmt<W: fmt::Write>(&self, f: &mut fmt::Formatter<W>) -> fmt::Result {
        for n in self.0 {
            write!(f, " {n}")?;
        }
        Ok(())
    }
}

// An ask as it was read from the line at a place.
#[derive(Clone, Copy)]
struct Asked<'a> {
    place: u64,
    line: &'a AskLine,
}

impl fmt::Display for Asked<'_> {
    ghost output = { λ asked. Some (ask_shown asked.place asked.line.now.rule asked.line.now.total asked.line.now.block asked.line.now.«open».items) };

    fn fmt<W: fmt::Write>(&self, f: &mut fmt::Formatter<W>) -> fmt::Result {
        let AskLine {
            rule,
            total,
            block,
            open,
        } = self.line;
        writeln!(
            f,
            "line {}: rule {rule}, total {total}, block {block}, open{}",
            self.place,
            Numbers(open)
        )
    }
}

// An accepted ask: its steps and its amounts, a list beside the positions, as a rule wrote them.
#[derive(Clone, Copy)]
struct Accepted<'a> {
    total: u32,
    open: &'a [u32],
    amounts: &'a [u32],
    ghost opens: { Opens «open».now },
    ghost long: { length amounts.now ≡ length «open».now },
    ghost whole: { sum_of amounts.now ≡ total },
}

impl fmt::Display for Accepted<'_> {
    ghost output = { λ accepted. Some (accepted_shown accepted.total accepted.«open».now accepted.amounts.now) };

    fn fmt<W: fmt::Write>(&self, f: &mut fmt::Formatter<W>) -> fmt::Result {
        let Accepted {
            total,
            open,
            amounts,
        } = *self;
        let positions = sum(open);
        let steps = Steps(*self);
        let assigned = sum(amounts);
        let amounts = Numbers(amounts);
        write!(
            f,
            "the open positions add up to {positions}\n{steps}the amounts add up to {assigned}, and the total is {total}\namounts{amounts}\n"
        )
    }
}

// The steps of an accepted ask: a line for each seller.
#[derive(Clone, Copy)]
struct Steps<'a>(Accepted<'a>);

impl fmt::Display for Steps<'_> {
    ghost output = { λ steps. let accepted = steps.0 in Some (steps_shown accepted.total (sum_of accepted.«open».now) 1 accepted.«open».now accepted.amounts.now) };

    fn fmt<W: fmt::Write>(&self, f: &mut fmt::Formatter<W>) -> fmt::Result {
        let Accepted {
            total,
            open,
            amounts,
        } = self.0;
        let sum = sum(open);
        for (place, (position, amount)) in open.iter().zip(amounts).enumerate() {
            // in each turn and not once before: without a seller the sum is 0, and nothing is pro rata
            let pro_rata = ProRata { total, sum };
            let step = pro_rata.step(place + 1, *position, *amount);
            writeln!(f, "{step}")?;
        }
        Ok(())
    }
}

// The sum of amounts that add up to less than 2^32.
fn sum(amounts: &[u32]) -> u32
    requires { sum_of amounts.now < 2 ^ 32 }
    ensures { result ≡ sum_of amounts.now }
{
    amounts.iter().sum()
}

// Writes a value behind a text. Where memory is wanting, the error is that a value could not be written.
fn put<D: fmt::Display>(text: &mut String, value: &D) -> fmt::Result
    ensures { OnOk result (IfSome (D.output value.now) (λ shown. string_bytes text.new ≡ string_bytes text.old ++ shown)) }
{
    write!(text, "{value}")?;
    Ok(())
}

// What is printed for an ask by a rule.
fn ask_report(heap: Global, rule: &Choice, asked: Asked<'_>) -> anyhow::Result<String>
    ensures { IfOk result (λ text. AskReported asked.entry.place asked.entry.line.now.rule rule.now asked.entry.line.now.total asked.entry.line.now.block asked.entry.line.now.«open».items (string_bytes text)) }
{
    let mut text = String::new(heap);
    put(&mut text, &asked)?;
    let ask = Ask {
        total: asked.line.total,
        block: asked.line.block,
        open: &asked.line.open,
    };
    let mut amounts = vec![in heap; 0; ask.open.len()]?;
    match assign_by(rule, ask, amounts.as_mut_slice()) {
        Ok(()) => {
            let accepted = Accepted {
                total: ask.total,
                open: ask.open,
                amounts: &amounts,
            };
            put(&mut text, &accepted)?;
            Ok(text)
        }
        Err(refusal) => {
            writeln!(text, "the ask is not sound\n{refusal}")?;
            Ok(text)
        }
    }
}

// What is printed for an ask, by the rule that bears its number.
fn number_report(heap: Global, asked: Asked<'_>) -> anyhow::Result<String>
    ensures { IfOk result (λ text. NumberReported asked.entry.place asked.entry.line.now.rule (rule_of asked.entry.line.now.rule) asked.entry.line.now.total asked.entry.line.now.block asked.entry.line.now.«open».items (string_bytes text)) }
{
    match Choice::try_from(asked.line.rule) {
        Ok(rule) => ask_report(heap, &rule, asked),
        Err(unknown) => Ok(unreadable(heap, asked.place, &unknown)?),
    }
}

// What is printed for a line that is no ask, with the reason.
fn unreadable<R: fmt::Display>(heap: Global, place: u64, reason: &R) -> Result<String, AllocError>
    ensures { IfOk result (λ text. IfSome (R.output reason.now) (λ shown. string_bytes text ≡ unreadable_shown place shown)) }
{
    format!(in heap; "line {place}: {reason}\nunreadable\n")
}

// What is printed for a line: nothing if it is passed over.
pub fn report(heap: Global, place: u64, line: &[u8]) -> anyhow::Result<Option<String>>
    ensures { IfOk result (λ printed. Reported place (line_says line.now) (option_map string_bytes printed)) }
{
    match read_line(heap, line) {
        Ok(None) => Ok(None),
        Ok(Some(ask)) => Ok(Some(number_report(heap, Asked { place, line: &ask })?)),
        Err(ReadError::Unreadable(fault)) => Ok(Some(unreadable(heap, place, &fault)?)),
        Err(ReadError::OutOfMemory(refused)) => Err(refused.into()),
    }
}
