// What a column of a line holds: a number or one letter.
ghost use Rattle.std.specs.Prelude.{◌≡◌, Some, None, MatchResult};
ghost use Rattle.problem.specs.Numeral.{digit, flaw_of, digits_value, capped, numeral, letter};
ghost use Rattle.std.specs.List.{list_all};
ghost use Rattle.problem.specs.Form.{good_by};

use crate::fault::{LineFault, NumberFault, NumberFlaw};
use crate::line::Column;

// Whether each byte is a digit.
fn is_digits(bytes: &[u8]) -> bool
    ensures { result ≡ list_all digit bytes.now }
{
    bytes.iter().all(|b| b.is_ascii_digit())
}

// Why the bytes are no numeral.
fn check_numeral(bytes: &[u8]) -> Result<(), NumberFlaw>
    ensures { MatchResult result (λ _. flaw_of bytes.now ≡ None) (λ flaw. flaw_of bytes.now ≡ Some flaw) }
{
    if !is_digits(bytes) {
        return Err(NumberFlaw::NotDigit);
    }
    match bytes {
        [] => Err(NumberFlaw::Empty),
        [b'0', _, ..] => Err(NumberFlaw::LeadingZero),
        _ => Ok(()),
    }
}

// The number that digits write; past the largest number the largest.
fn digits_value(digits: &[u8]) -> usize
    ensures { result ≡ capped (digits_value digits.now) }
{
    digits.iter().fold(0usize, |value, b| {
        value
            .saturating_mul(10)
            .saturating_add(b.saturating_sub(b'0') as usize)
    })
}

impl<'a> Column<'a> {
    // The number that it holds. One past the largest number of the machine, and so past every limit, is told as the
    // largest.
    pub(crate) fn number(&self) -> Result<usize, NumberFault>
        ensures { result ≡ good_by capped (numeral self.now.line self.now.number self.now.bytes.now) }
    {
        let line = self.line;
        let column = self.number;
        check_numeral(self.bytes).map_err(|flaw| NumberFault { line, column, flaw })?;
        Ok(digits_value(self.bytes))
    }

    // The letter that it holds.
    pub(crate) fn letter(&self) -> Result<char, LineFault>
        ensures { result ≡ letter self.now.line self.now.number self.now.bytes.now }
    {
        match self.bytes {
            [b] => Ok(*b as char),
            _ => Err(LineFault::Length {
                line: self.line,
                column: self.number,
            }),
        }
    }
}
