// The cases of a stored corpus: for each a line `case NAME LENGTH`, then exactly LENGTH bytes of text, then a newline, which is
// skipped unread.
#![tactic(auto)]

ghost use Rattle.std.specs.Prelude.{◌≡◌, ◌<◌, ◌≤◌, ◌+◌, ◌^◌, length, take, drop, IfSome, MatchOption, Contains};
ghost use Rattle.std.specs.Str.Parse.{AllDigits, digits_value};
ghost use Rattle.cases.specs.Case.{IsCut, IsCase, NoCase};

use thiserror::Error;

// A case, and the bytes behind it.
#[derive(Clone, Copy)]
pub struct Case<'a> {
    pub name: &'a [u8],
    pub text: &'a [u8],
    pub rest: &'a [u8],
}

// Some bytes are left, and no case stands first in them.
#[derive(Debug, Drop, Error)]
#[error("the corpus is damaged")]
pub struct Damaged;

// What stands before the first such byte, and what stands behind it.
fn cut(bytes: &[u8], at: u8) -> Option<(&[u8], &[u8])>
    ensures { MatchOption result (¬ (Contains bytes.now at)) (λ parts. IsCut at bytes.now parts.0.now parts.1.now) }
{
    let place = bytes.iter().position(|byte| *byte == at)?;
    Some((&bytes[..place], &bytes[place + 1..]))
}

// The number that digits alone write, 0 where there is none; `parse` refuses an empty text, and takes a plus before digits.
fn number(digits: &[u8]) -> Option<usize>
    ensures { MatchOption result (¬ (AllDigits 10 digits.now × (digits_value 10 digits.now < 2 ^ 64))) (λ n. AllDigits 10 digits.now × (n ≡ digits_value 10 digits.now)) }
{
    if digits.is_empty() {
        return Some(0);
    }
    if digits.first() == Some(&b'+') {
        return None;
    }
    std::str::from_utf8(digits).ok()?.parse().ok()
}

// So many bytes, and what stands behind the byte after them, whatever that is.
fn text_and_rest(bytes: &[u8], size: usize) -> Option<(&[u8], &[u8])>
    ensures { MatchOption result (length bytes.now ≤ size) (λ parts. (size < length bytes.now) × (parts.0.now ≡ take size bytes.now) × (parts.1.now ≡ drop (size + 1) bytes.now)) }
{
    if size >= bytes.len() {
        return None;
    }
    Some((&bytes[..size], &bytes[size + 1..]))
}

// The first case of some bytes, if one begins them; what is behind it is shorter.
pub fn next_case(input: &[u8]) -> Option<Case<'_>>
    ensures case { MatchOption result (NoCase input.now) (λ c. IsCase input.now c.name.now c.text.now c.rest.now) }
    ensures shorter { IfSome result (λ c. length c.rest.now < length input.now) }
{
    let (line, after) = cut(input, b'\n')?;
    let words = line.strip_prefix(b"case ")?;
    let (name, digits) = cut(words, b' ')?;
    let (text, rest) = text_and_rest(after, number(digits)?)?;
    Some(Case { name, text, rest })
}

// The cases of a corpus, one after the other. Bytes that no case begins are one last item, an error.
#[derive(Drop)]
pub struct Cases<'a> {
    rest: &'a [u8],
}

impl<'a> Cases<'a> {
    pub fn new(corpus: &'a [u8]) -> Cases<'a>
        ensures { result.rest.now ≡ corpus.now }
    {
        Cases { rest: corpus }
    }
}

impl<'a> Iterator for Cases<'a> {
    ghost use Rattle.std.specs.Iterator.{at_most};
    ghost use Rattle.cases.specs.Cases.{NextCase};

    type Item = Result<Case<'a>, Damaged>;

    ghost next_gives = { NextCase };

    ghost remaining = { λ c. at_most (length c.rest.now) };

    fn next(&mut self) -> Option<Result<Case<'a>, Damaged>> {
        if self.rest.is_empty() {
            return None;
        }
        let found = next_case(self.rest);
        self.rest = found.map_or(&[], |case| case.rest);
        Some(found.ok_or(Damaged))
    }
}
