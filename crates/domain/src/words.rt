// Four words of 64 bits as one row of 256: bit a is bit a % 64 of word a / 64.
ghost use Rattle.std.specs.Prelude.{◌≡◌, ℕ, ◌/◌, ◌%◌, ◌^◌, ◌<◌, ◌≤◌, ◌==◌, length, MatchOption, slice_index, slice_set};
ghost use Rattle.std.specs.List.{list_all};
ghost use Rattle.domain.specs.Words.{Short, bit, lowest, total, BlankFrom, FirstSet};

use std::array;

// The row whose words are `f` of the words of two rows.
pub(crate) fn zipped<F: Fn(u64, u64) -> u64>(a: &[u64; 4], b: &[u64; 4], f: F) -> [u64; 4]
    requires { F.IsAlwaysCallable f }
    ensures long { length result ≡ 4 }
    ensures each { (i : ℕ) → i < 4 → F.post f (slice_index a.now i) (slice_index b.now i) (slice_index result i) }
    ensures short { Short b.now }
{
    array::from_fn(|i| f(a[i], b[i]))
}

// Changes the word of a bit to `f` of it and of that bit alone.
pub(crate) fn change<F: Fn(u64, u64) -> u64>(row: &mut [u64; 4], at: u8, f: F)
    requires { F.IsAlwaysCallable f }
    ensures { (w : ℕ) × F.post f (slice_index row.old (at / 64)) (2 ^ (at % 64)) w × (row.new ≡ slice_set row.old (at / 64) w) }
{
    let word = &mut row[at as usize / 64];
    *word = f(*word, 1 << (at % 64));
}

// The lowest `count` bits of a word.
fn low_bits(word: u64, count: usize) -> u64
    ensures { result ≡ word % 2 ^ count }
{
    if count >= 64 {
        word
    } else {
        word & ((1 << count) - 1)
    }
}

// The bits below `bound`.
pub(crate) fn low(row: &[u64; 4], bound: usize) -> [u64; 4]
    ensures { result ≡ lowest bound row.now }
{
    array::from_fn(|i| low_bits(row[i], bound.saturating_sub(64 * i)))
}

pub(crate) fn is_set(row: &[u64; 4], at: u8) -> bool
    ensures { result ≡ bit (slice_index row.now (at / 64)) (at % 64) }
{
    (row[at as usize / 64] >> (at % 64)) % 2 == 1
}

// The first word with a set bit, from the word `start` on.
pub(crate) fn first_set(row: &[u64; 4], start: usize) -> Option<usize>
    ensures { MatchOption result (BlankFrom row.now start) (FirstSet row.now start) }
{
    (start..4).find(|i| row[*i] != 0)
}

// Whether no bit is set.
pub(crate) fn is_blank(row: &[u64; 4]) -> bool
    ensures value { result ≡ list_all (λ w. w == 0) row.now }
    ensures short { Short row.now }
{
    row.iter().all(|word| *word == 0)
}

// How many bits are set.
pub(crate) fn count(row: &[u64; 4]) -> usize
    ensures value { result ≡ total row.now }
    ensures small { result ≤ 256 }
    ensures short { Short row.now }
{
    row.iter().map(|word| word.count_ones() as usize).sum()
}
