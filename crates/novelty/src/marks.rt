// Tables of marks: one byte a key, zero for unmarked. A key past the table counts as marked.
ghost use Rattle.std.specs.Prelude.{◌≡◌, slice_set};
ghost use Rattle.novelty.specs.Marks.{unmarked};

pub(crate) fn is_unmarked(marks: &[u8], key: usize) -> bool
    ensures { result ≡ unmarked marks.now key }
{
    marks.get(key) == Some(&0)
}

pub(crate) fn put_mark(marks: &mut [u8], key: usize)
    ensures { marks.new ≡ slice_set marks.old key 1 }
{
    // of a write through `get_mut` no proof knows what it left in the table
    if key < marks.len() {
        marks[key] = 1;
    }
}
