// Reads one line of text that holds an ask.
#![tactic(auto)]

ghost use Rattle.std.specs.Prelude.{◌≡◌, ◌+◌, ◌==◌, ◌^◌, ◌<◌, IfErr, IfOk, IfSome, MatchResult, None, Some, alloc_error};
ghost use Rattle.asktext.specs.Format.{all_space, answer_says, is_comment, is_space, line_says, numbers_say, without_return, words};
ghost use Rattle.asktext.specs.Parts.{Numbered, grown_by, number_of_word};
ghost use Rattle.asktext.specs.Shown.{error_shown, fault_shown};
ghost use Rattle.asktext.specs.declared.Fault.TheVariants.{NotANumber};
ghost use Rattle.asktext.specs.declared.ReadError.TheVariants.{Unreadable, OutOfMemory};

use std::alloc::{AllocError, AllocFailed, Global};
use std::error::Error;
use std::fmt;

// Why a line is no ask.
#[derive(Clone, Copy, PartialEq, Eq, Debug)]
pub enum Fault {
    // The place, from 1, of the first word that is no number from 0 to 4,294,967,295.
    NotANumber(usize),
    // Fewer than three numbers; how many there are.
    TooFew(usize),
}

// by hand, here and for `ReadError`, since a derived text has no contract
impl fmt::Display for Fault {
    ghost output = { λ fault. Some (fault_shown fault) };

    fn fmt<W: fmt::Write>(&self, f: &mut fmt::Formatter<W>) -> fmt::Result {
        match self {
            Fault::NotANumber(place) => {
                write!(f, "word {place} is no number from 0 to 4294967295")
            }
            Fault::TooFew(count) => {
                write!(
                    f,
                    "an ask has at least 3 numbers, and this line has {count}"
                )
            }
        }
    }
}

// Why a line is not read.
#[derive(Clone, Copy, PartialEq, Eq, Debug)]
pub enum ReadError {
    // The line is no ask.
    Unreadable(Fault),
    // Memory ran out, and nothing is said of the line.
    OutOfMemory(AllocError),
}

impl fmt::Display for ReadError {
    ghost output = { λ error. Some (error_shown error) };

    fn fmt<W: fmt::Write>(&self, f: &mut fmt::Formatter<W>) -> fmt::Result {
        match self {
            ReadError::Unreadable(why) => write!(f, "{why}"),
            ReadError::OutOfMemory(_) => write!(f, "out of memory"),
        }
    }
}

impl Error for ReadError {}

// by hand, here and below, since a derived `From` has no contract
impl From<Fault> for ReadError {
    ghost from_gives = { λ fault error. error ≡ Unreadable fault };

    fn from(fault: Fault) -> ReadError {
        ReadError::Unreadable(fault)
    }
}

impl From<AllocError> for ReadError {
    ghost from_gives = { λ refused error. error ≡ OutOfMemory refused };

    fn from(refused: AllocError) -> ReadError {
        ReadError::OutOfMemory(refused)
    }
}

impl<T: Drop> From<AllocFailed<T>> for ReadError {
    ghost from_gives = { λ _ error. error ≡ OutOfMemory alloc_error };

    fn from(_unstored: AllocFailed<T>) -> ReadError {
        ReadError::OutOfMemory(AllocError)
    }
}

// The numbers of an ask as they stand in the line: its rule's number, its total, its block and the sellers' open positions.
#[derive(Drop)]
pub struct AskLine {
    // A number and no rule: a line may name any number, and whoever asks the rules reports one that no rule bears.
    pub rule: u32,
    pub total: u32,
    pub block: u32,
    pub open: Vec<u32>,
}

// The ask of a line, or `None` for one that is passed over: it is blank or a comment.
pub fn read_line(heap: Global, line: &[u8]) -> Result<Option<AskLine>, ReadError>
    ensures { IfSome (answer_says result) (λ said. said ≡ line_says line.now) }
{
    let text = without_return(line);
    if is_comment(text) || is_blank(text) {
        return Ok(None);
    }
    let numbers = read_numbers(heap, text)?;
    Ok(Some(ask(heap, &numbers)?))
}

// The line without the carriage return that it may end in.
fn without_return(line: &[u8]) -> &[u8]
    ensures { result.now ≡ without_return line.now }
{
    match line {
        [text @ .., b'\r'] => text,
        _ => line,
    }
}

// Whether the first byte is `#`.
fn is_comment(text: &[u8]) -> bool
    ensures { result ≡ is_comment text.now }
{
    matches!(text, [b'#', ..])
}

// Whether there is nothing but blanks and tabs.
fn is_blank(text: &[u8]) -> bool
    ensures { result ≡ all_space text.now }
{
    // a `for`: by `all` of an iterator the loop has one more branch for each byte
    for byte in text {
        if !is_space(*byte) {
            return false;
        }
    }
    true
}

// Whether a byte is a blank or a tab.
fn is_space(byte: u8) -> bool
    ensures { result ≡ is_space byte }
{
    byte == b' ' || byte == b'\t'
}

// The numbers that the words of a text are.
fn read_numbers(heap: Global, text: &[u8]) -> Result<Vec<u32>, ReadError>
    ensures { Numbered (words text.now) result }
{
    let mut found = Vec::new(heap);
    for (index, word) in text.split(ends_word).enumerate() {
        let n = number_at(index, word)?;
        found.push(n)?;
    }
    Ok(found)
}

// Whether a word ends before the byte.
fn ends_word(byte: &u8) -> bool
    ensures { result ≡ (byte.now == 32) }
{
    *byte == b' '
}

// The number that the word at an index is, or its place.
fn number_at(index: usize, word: &[u8]) -> Result<u32, Fault>
    requires { index + 1 < 2 ^ 64 }
    ensures { MatchResult result (λ n. number_of_word word.now ≡ Some n) (λ fault. (number_of_word word.now ≡ None) × (fault ≡ NotANumber (index + 1))) }
{
    number(word).ok_or(Fault::NotANumber(index + 1))
}

// The number that a word is, if it is one.
fn number(word: &[u8]) -> Option<u32>
    ensures { result ≡ number_of_word word.now }
{
    if word.is_empty() {
        return None;
    }
    let mut value = 0;
    for byte in word {
        value = grown(value, *byte)?;
    }
    Some(value)
}

// A number with one more digit, if the byte is one and the number is not too large.
fn grown(value: u32, byte: u8) -> Option<u32>
    ensures { result ≡ grown_by value byte }
{
    let digit = char::from(byte).to_digit(10)?;
    value.checked_mul(10)?.checked_add(digit)
}

// The ask that numbers make: the first three, and the list of the others.
fn ask(heap: Global, numbers: &[u32]) -> Result<AskLine, ReadError>
    ensures ok { IfOk result (λ ask. answer_says (Ok (Some ask)) ≡ Some (numbers_say numbers.now)) }
    ensures err { IfErr result (λ error. IfSome (answer_says (Err error)) (λ said. said ≡ numbers_say numbers.now)) }
{
    let [rule, total, block, open @ ..] = numbers else {
        return Err(Fault::TooFew(numbers.len()).into());
    };
    let open = Vec::from_slice(heap, open)?;
    Ok(AskLine {
        rule: *rule,
        total: *total,
        block: *block,
        open,
    })
}

#[cfg(test)]
mod tests {
    use super::*;
    use std::test::Fail;

    fn fault(heap: Global, line: &[u8]) -> Result<Option<Fault>, AllocError> {
        match read_line(heap, line) {
            Ok(_) => Ok(None),
            Err(ReadError::Unreadable(fault)) => Ok(Some(fault)),
            Err(ReadError::OutOfMemory(refused)) => Err(refused),
        }
    }

    fn is_passed_over(heap: Global, line: &[u8]) -> Result<bool, AllocError> {
        match read_line(heap, line) {
            Ok(ask) => Ok(ask.is_none()),
            Err(ReadError::Unreadable(_)) => Ok(false),
            Err(ReadError::OutOfMemory(refused)) => Err(refused),
        }
    }

    #[test]
    fn an_ask_is_read(rt: HostRuntime) -> Result<(), Fail> {
        let Some(ask) = read_line(rt.alloc(), b"2 30 5 007 0 4294967295\r")? else {
            return Err(Fail::new("no ask"));
        };
        assert_eq!(rt; (ask.rule, ask.total, ask.block), (2, 30, 5));
        assert!(rt; ask.open.as_slice() == [7, 0, 4_294_967_295].as_slice());
        Ok(())
    }

    #[test]
    fn blank_lines_and_comments_are_passed_over(rt: HostRuntime) -> Result<(), Fail> {
        assert!(rt; is_passed_over(rt.alloc(), b"")?);
        assert!(rt; is_passed_over(rt.alloc(), b" \t \r")?);
        assert!(rt; is_passed_over(rt.alloc(), b"# 1 2 3")?);
        assert!(rt; !is_passed_over(rt.alloc(), b" # 1 2 3")?);
        Ok(())
    }

    #[test]
    fn an_empty_word_is_no_number(rt: HostRuntime) -> Result<(), Fail> {
        assert_eq!(rt; fault(rt.alloc(), b"1 2  3")?, Some(Fault::NotANumber(3)));
        assert_eq!(rt; fault(rt.alloc(), b"1 2 3 ")?, Some(Fault::NotANumber(4)));
        Ok(())
    }

    #[test]
    fn only_digits_make_a_number(rt: HostRuntime) -> Result<(), Fail> {
        assert_eq!(rt; fault(rt.alloc(), b"1 2 x")?, Some(Fault::NotANumber(3)));
        assert_eq!(rt; fault(rt.alloc(), b"1 -2 3")?, Some(Fault::NotANumber(2)));
        assert_eq!(rt; fault(rt.alloc(), b"+1 2 3")?, Some(Fault::NotANumber(1)));
        assert_eq!(rt; fault(rt.alloc(), &[255, 255])?, Some(Fault::NotANumber(1)));
        Ok(())
    }

    #[test]
    fn a_number_has_32_bits(rt: HostRuntime) -> Result<(), Fail> {
        assert_eq!(rt; fault(rt.alloc(), b"1 4294967295 3")?, None);
        assert_eq!(rt;
            fault(rt.alloc(), b"1 4294967296 3")?,
            Some(Fault::NotANumber(2))
        );
        Ok(())
    }

    #[test]
    fn three_numbers_are_needed(rt: HostRuntime) -> Result<(), Fail> {
        assert_eq!(rt; fault(rt.alloc(), b"7")?, Some(Fault::TooFew(1)));
        assert_eq!(rt; fault(rt.alloc(), b"1 2")?, Some(Fault::TooFew(2)));
        assert_eq!(rt; fault(rt.alloc(), b"1 2 3")?, None);
        Ok(())
    }
}
