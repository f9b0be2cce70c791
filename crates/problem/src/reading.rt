// A whole text, line by line.
ghost use Rattle.std.specs.Prelude.{◌≡◌, ◌≤◌, List, length};
ghost use Rattle.std.specs.Iterator.{at_most};
ghost use Rattle.problem.specs.Ahead.{Tells};
ghost use Rattle.problem.specs.Lines.{lines};
ghost use Rattle.problem.specs.Text.{ended, placed, read_text, Ends};
ghost use Rattle.domain.specs.declared.strips.Action.{Action};

use crate::fault::LineFault;
use crate::line::{Line, split_once};
use crate::reader::{Reader, Wanted};
use crate::tables::ActionRow;
use domain::strips::Action;
use std::marker::Model;

// The lines of a text that are left, and the number of the next.
#[derive(Drop)]
pub struct Lines<'a> {
    rest: &'a [u8],
    number: usize,
}

impl<'a> Model for Lines<'a> {
    ghost use Rattle.std.specs.Prelude.{◌+◌, ◌^◌, ◌<◌, length};
    ghost use Rattle.problem.specs.Lines.{lines};
    ghost use Rattle.problem.specs.Ahead.{Ahead};

    ghost Value = { Ahead };

    ghost view = { λ a. record { number = a.number; lines = lines a.rest.now } };

    ghost invariant = { λ a. a.number + length a.rest.now < 2 ^ 64 };
}

impl<'a> Lines<'a> {
    fn new(text: &'a [u8]) -> Lines<'a>
        ensures { result ≡ record { number = 1; lines = lines text.now } }
    {
        Lines {
            rest: text,
            number: 1,
        }
    }

    // The number of the next line.
    fn number(&self) -> usize
        ensures { result ≡ self.now.number }
    {
        self.number
    }
}

impl<'a> Iterator for Lines<'a> {
    type Item = Line<'a>;

    ghost next_gives = { Tells };

    ghost remaining = { λ a. at_most (length a.lines) };

    // The next line, without its end.
    fn next(&mut self) -> Option<Line<'a>> {
        if self.rest.is_empty() {
            return None;
        }
        let (bytes, behind) = split_once(self.rest, b'\n').unwrap_or((self.rest, b""));
        let line = Line {
            number: self.number,
            bytes,
        };
        self.rest = behind;
        self.number += 1;
        Some(line)
    }
}

impl Reader {
    // The reader where no line is wanted any more; else the line that is missing.
    fn finish(self, line: usize) -> Result<Reader, LineFault>
        ensures { (acts : List Action) → Ends (ended self.wanted line (self, acts)) acts result }
    {
        match self.wanted {
            Wanted::Nothing => Ok(self),
            Wanted::TheNames(_) | Wanted::Values(_) => Err(LineFault::Missing { line }),
        }
    }
}

// Adds a row of the action table to its place.
fn place(row: Option<ActionRow>, places: &mut [Action])
    ensures { places.new ≡ placed places.old row }
{
    if let Some(row) = row {
        row.add_to(places);
    }
}

// Reads a whole text, where so many actions are allowed, and adds the rows of the action table to the places.
pub(crate) fn read_lines(
    text: &[u8],
    limit: usize,
    places: &mut [Action],
) -> Result<Reader, LineFault>
    requires { limit ≤ 1024 }
    ensures { Ends (read_text limit places.old text.now) places.new result }
{
    let mut reader = Reader::new(limit);
    let mut lines = Lines::new(text);
    // A `for` over `&mut lines` or `lines.by_ref()` gets no proof of what `lines.number()` is behind it.
    while let Some(line) = lines.next() {
        let row = reader.advance(&line)?;
        place(row, places);
    }
    reader.finish(lines.number())
}
