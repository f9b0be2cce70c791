// A line of a text, and its columns.
ghost use Rattle.std.specs.Prelude.{◌==◌, position, ◌≡◌, ◌<◌, ◌≤◌, ℕ, List, [], ◌∷◌, Ok, Err, length, MatchOption};
ghost use Rattle.problem.specs.Lines.{before, cut, fields, three, four};
ghost use Rattle.problem.specs.declared.fault.LineFault.TheVariants.{Columns};

// The bytes of a line, and its number, counted from 1.
#[derive(Clone, Copy)]
pub struct Line<'a> {
    pub number: usize,
    pub bytes: &'a [u8],
}

// The bytes of a column, its line, and its number, counted from 1.
#[derive(Clone, Copy)]
pub struct Column<'a> {
    pub line: usize,
    pub number: usize,
    pub bytes: &'a [u8],
}

// Where the first `stop` stands.
fn position(bytes: &[u8], stop: u8) -> Option<usize>
    ensures { result ≡ position (λ b. b == stop) bytes.now }
{
    bytes.iter().position(|b| *b == stop)
}

// The bytes in front of the first `stop` and those behind it, if there is one.
pub(crate) fn split_once<'a>(bytes: &'a [u8], stop: u8) -> Option<(&'a [u8], &'a [u8])>
    ensures parts { MatchOption result (length bytes.now ≤ before stop bytes.now) (λ p. (none : List (List ℕ)) → cut stop none bytes.now ≡ p.0.now ∷ cut stop none p.1.now) }
    ensures shorter { MatchOption result (Unit {0}) (λ p. length p.1.now < length bytes.now) }
{
    let end = position(bytes, stop)?;
    Some((&bytes[..end], &bytes[end + 1..]))
}

// The first field, and the bytes behind its space if it has one.
fn split_field<'a>(bytes: &'a [u8]) -> Option<(&'a [u8], &'a [u8])>
    ensures { MatchOption result (fields bytes.now ≡ bytes.now ∷ []) (λ p. fields bytes.now ≡ p.0.now ∷ fields p.1.now) }
{
    split_once(bytes, b' ')
}

// Not one function that makes an array `[&[u8]; N]` or of columns, by items or by index: its items' lifetime gets no proof.
// The fields, if they are three.
pub(crate) fn three_fields<'a>(bytes: &'a [u8]) -> Option<(&'a [u8], &'a [u8], &'a [u8])>
    ensures { MatchOption result ((n : ℕ) → three n (fields bytes.now) ≡ Err (Columns n)) (λ t. (n : ℕ) → three n (fields bytes.now) ≡ Ok (t.0.now, t.1.now, t.2.now)) }
{
    let (first, rest) = split_field(bytes)?;
    let (second, third) = split_field(rest)?;
    split_field(third)
        .is_none()
        .then_some((first, second, third))
}

// The fields, if they are four.
pub(crate) fn four_fields<'a>(bytes: &'a [u8]) -> Option<(&'a [u8], &'a [u8], &'a [u8], &'a [u8])>
    ensures { MatchOption result ((n : ℕ) → four n (fields bytes.now) ≡ Err (Columns n)) (λ t. (n : ℕ) → four n (fields bytes.now) ≡ Ok (t.0.now, t.1.now, t.2.now, t.3.now)) }
{
    let (first, rest) = split_field(bytes)?;
    let (second, third, fourth) = three_fields(rest)?;
    Some((first, second, third, fourth))
}

impl<'a> Line<'a> {
    // The column of a number, with these bytes.
    pub(crate) fn column(&self, number: usize, bytes: &'a [u8]) -> Column<'a>
        ensures { (result.line ≡ self.now.number) × (result.number ≡ number) × (result.bytes.now ≡ bytes.now) }
    {
        Column {
            line: self.number,
            number,
            bytes,
        }
    }
}
