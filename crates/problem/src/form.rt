// The form of a line of values: its columns, as numbers and letters.
ghost use Rattle.std.specs.Prelude.{◌≡◌, ℕ, List, Result};
ghost use Rattle.problem.specs.declared.fault.LineFault.{LineFault};
ghost use Rattle.problem.specs.Form.{three_values, four_values, capped_at};
ghost use Rattle.problem.specs.Numeral.{letter};

use crate::fault::LineFault;
use crate::line::{Column, Line, four_fields, three_fields};

// What a column may hold.
pub(crate) trait FromColumn: Copy {
    // what the bytes of a column mean, by its line and its number
    ghost meaning: { ℕ → ℕ → List ℕ → Result Self LineFault };

    fn from_column(column: &Column) -> Result<Self, LineFault>
        ensures { result ≡ meaning column.now.line column.now.number column.now.bytes.now };
}

impl FromColumn for usize {
    ghost meaning = { capped_at };

    fn from_column(column: &Column) -> Result<usize, LineFault> {
        Ok(column.number()?)
    }
}

impl FromColumn for char {
    ghost meaning = { letter };

    fn from_column(column: &Column) -> Result<char, LineFault> {
        column.letter()
    }
}

// The values of a line of three columns.
pub(crate) fn read_three<A: FromColumn, B: FromColumn, C: FromColumn>(
    line: &Line,
) -> Result<(A, B, C), LineFault>
    ensures { result ≡ three_values A.meaning B.meaning C.meaning line.now.number line.now.bytes.now }
{
    let fault = LineFault::Columns { line: line.number };
    let (first, second, third) = three_fields(line.bytes).ok_or(fault)?;
    let u = A::from_column(&line.column(1, first))?;
    let v = B::from_column(&line.column(2, second))?;
    let w = C::from_column(&line.column(3, third))?;
    Ok((u, v, w))
}

// The values of a line of four columns.
pub(crate) fn read_four<A: FromColumn, B: FromColumn, C: FromColumn, D: FromColumn>(
    line: &Line,
) -> Result<(A, B, C, D), LineFault>
    ensures { result ≡ four_values A.meaning B.meaning C.meaning D.meaning line.now.number line.now.bytes.now }
{
    let fault = LineFault::Columns { line: line.number };
    let (first, second, third, fourth) = four_fields(line.bytes).ok_or(fault)?;
    let u = A::from_column(&line.column(1, first))?;
    let v = B::from_column(&line.column(2, second))?;
    let w = C::from_column(&line.column(3, third))?;
    let x = D::from_column(&line.column(4, fourth))?;
    Ok((u, v, w, x))
}
