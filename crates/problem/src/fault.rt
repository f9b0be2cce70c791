// What is wrong with a problem text. A fault of a number becomes one of its line, and that one of the problem; the
// higher fault holds the lower one whole.
ghost use Rattle.std.specs.Prelude.{◌≡◌};
ghost use Rattle.problem.specs.Fault.{refusal_of, line_refusal};
ghost use Rattle.problem.specs.declared.fault.LineFault.TheVariants.{Number};
ghost use Rattle.problem.specs.declared.fault.ProblemFault.TheVariants.{Line, Sketch};

use domain::refusal::Refusal;

// The four tables of a text, in their order.
#[derive(Clone, Copy, PartialEq, Eq, Debug)]
pub enum Table {
    Atoms,
    Actions,
    Features,
    Rules,
}

#[derive(Clone, Copy, PartialEq, Eq, Debug)]
pub enum NumberFlaw {
    // there is no digit
    Empty,
    // a byte is no digit
    NotDigit,
    // a zero stands in front of other digits
    LeadingZero,
}

// A column that should hold a number and does not. Lines and columns count from 1.
#[derive(Clone, Copy, PartialEq, Eq, Debug)]
pub struct NumberFault {
    pub line: usize,
    pub column: usize,
    pub flaw: NumberFlaw,
}

#[derive(Clone, Copy, PartialEq, Eq, Debug)]
pub enum LineFault {
    // Form: a column should hold a number and does not
    Number(NumberFault),
    // the line is not the names of the table that is to begin
    Names { line: usize },
    // the line has more or fewer columns than its table
    Columns { line: usize },
    // a column of one letter is longer or shorter
    Length { line: usize, column: usize },
    // the atom's number is not the next one
    AtomOrder { line: usize },
    // the table of atoms ends with no atom
    NoAtoms { line: usize },
    // the feature was named under another kind
    SecondKind { line: usize },
    // the rule and the feature were named together before
    NamedTwice { line: usize },
    // the line stands behind the last table
    AfterEnd { line: usize },
    // the text ends where this line is wanted
    Missing { line: usize },
    // Range: the letter is none of its column
    Letter { line: usize, column: usize },
    // start or goal is neither 0 nor 1
    Truth { line: usize, column: usize },
    // the table of atoms has no such atom
    NoSuchAtom { line: usize },
    // the table of features has no such feature
    NoSuchFeature { line: usize },
    // Limit: the number is past the limit of its table
    Full { line: usize, table: Table },
}

#[derive(Clone, Copy, PartialEq, Eq, Debug)]
pub enum ProblemFault {
    // the text has more bytes than are allowed
    TooLong,
    // a line is at fault
    Line(LineFault),
    // the features and the rules make no accepted sketch
    Sketch(Refusal),
}

impl From<NumberFault> for LineFault {
    ghost from_gives = { λ e r. r ≡ Number e };

    fn from(fault: NumberFault) -> LineFault {
        LineFault::Number(fault)
    }
}

impl From<LineFault> for ProblemFault {
    ghost from_gives = { λ e r. r ≡ Line e };

    fn from(fault: LineFault) -> ProblemFault {
        ProblemFault::Line(fault)
    }
}

impl From<Refusal> for ProblemFault {
    ghost from_gives = { λ e r. r ≡ Sketch e };

    fn from(refusal: Refusal) -> ProblemFault {
        ProblemFault::Sketch(refusal)
    }
}

impl LineFault {
    // The refusal that it is told as, with the line.
    pub fn refusal(&self) -> Refusal
        ensures { result ≡ line_refusal self.now }
    {
        match self {
            LineFault::Number(number) => Refusal::Form { line: number.line },
            LineFault::Names { line }
            | LineFault::Columns { line }
            | LineFault::Length { line, .. }
            | LineFault::AtomOrder { line }
            | LineFault::NoAtoms { line }
            | LineFault::SecondKind { line }
            | LineFault::NamedTwice { line }
            | LineFault::AfterEnd { line }
            | LineFault::Missing { line } => Refusal::Form { line: *line },
            LineFault::Letter { line, .. }
            | LineFault::Truth { line, .. }
            | LineFault::NoSuchAtom { line }
            | LineFault::NoSuchFeature { line } => Refusal::Range { place: *line },
            LineFault::Full { line, .. } => Refusal::Limit { place: *line },
        }
    }
}

impl ProblemFault {
    // The refusal that it is told as, with the line or place.
    pub fn refusal(&self) -> Refusal
        ensures { result ≡ refusal_of self.now }
    {
        match self {
            ProblemFault::TooLong => Refusal::Limit { place: 0 },
            ProblemFault::Line(line) => line.refusal(),
            ProblemFault::Sketch(told) => *told,
        }
    }
}
