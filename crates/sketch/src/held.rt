// A lent list held in an array of its own.
ghost use Rattle.std.specs.Prelude.{◌≡◌, ◌≤◌, ⊤, length};
ghost use Rattle.sketch.specs.Blanked.{held};

use std::alloc::AllocError;

// The first N of the items, with `blank` behind them where there are fewer.
#[tactic(auto, using(crate::proofs::Copied::copied_front))]
pub fn hold_first<T: Copy, const N: usize>(items: &[T], blank: T) -> [T; N]
    ensures { result ≡ held N blank items.now }
{
    let mut copy = [blank; N];
    let count = items.len().min(N);
    copy[..count].copy_from_slice(&items[..count]);
    copy
}

// At most N items, which stand at the beginning of the array.
#[derive(Debug)]
pub struct Held<T, const N: usize> {
    items: [T; N],
    count: usize,
    ghost few: { count ≤ N },
    ghost full: { length items ≡ N },
}

// By hand: a derive of `Clone` is refused on a generic struct with a ghost field. It copies.
impl<T: Copy, const N: usize> Clone for Held<T, N> {
    ghost is_clone = { λ x y. y ≡ x };

    ghost is_infallible = { λ _. ⊤ };

    fn clone(&self) -> Result<Held<T, N>, AllocError> {
        Ok(*self)
    }
}

impl<T: Copy, const N: usize> Copy for Held<T, N> {}

impl<T: Copy, const N: usize> Held<T, N> {
    ghost use Rattle.std.specs.Prelude.{take};
    ghost use Rattle.sketch.specs.Held.{list_of};

    // The first N of the items, with `blank` behind them where there are fewer.
    pub fn first(items: &[T], blank: T) -> Held<T, N>
        ensures { list_of result ≡ take N items.now }
    {
        Held {
            items: hold_first(items, blank),
            count: items.len().min(N),
        }
    }

    pub fn as_slice(&self) -> &[T]
        ensures { result.now ≡ list_of self.now }
    {
        &self.items[..self.count]
    }
}
