// What the solver tells.
ghost use Rattle.std.specs.Prelude.{◌≡◌, ◌+◌, ◌<◌, ◌^◌};
ghost use Rattle.solver.specs.Attempt.{row};

use std::fmt;

// One search: its number from 1 on, its width, the expanded and kept states, and the length of the way, if it found one.
#[derive(Clone, Copy, PartialEq, Eq, Default, Debug)]
pub struct Row {
    pub number: usize,
    pub width: usize,
    pub expanded: usize,
    pub kept: usize,
    pub length: Option<usize>,
}

impl Row {
    // The row of the search that comes after `before` others.
    pub(crate) fn after(
        before: usize,
        width: usize,
        expanded: usize,
        kept: usize,
        length: Option<usize>,
    ) -> Row
        requires { before + 1 < 2 ^ 64 }
        ensures { result ≡ row (before + 1) width expanded kept length }
    {
        Row {
            number: before + 1,
            width,
            expanded,
            kept,
            length,
        }
    }
}

// The number, the width, 1 for a way and else 0, the expanded and kept states, and the way's length, 0 without one.
impl fmt::Display for Row {
    fn fmt<W: fmt::Write>(&self, f: &mut fmt::Formatter<W>) -> fmt::Result {
        let Row {
            number,
            width,
            expanded,
            kept,
            ..
        } = *self;
        let found = u8::from(self.length.is_some());
        let length = self.length.unwrap_or(0);
        write!(f, "{number} {width} {found} {expanded} {kept} {length}")
    }
}

// Why the solver stopped: the steps lead to a target, or the searches of all three widths of a subproblem are exhausted.
#[derive(Clone, Copy, PartialEq, Eq, Debug)]
pub enum Ending {
    AtTarget,
    ThirdStub,
}

// How many rows are written, how many steps the plan has, and why the solver stopped.
// The lists of rows and steps are the caller's, so only their used lengths are told here.
#[derive(Clone, Copy, PartialEq, Eq, Debug)]
pub struct Report {
    pub rows: usize,
    pub steps: usize,
    pub ending: Ending,
}
