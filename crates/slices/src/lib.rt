// Tables at any place: 0 is read outside, and nothing is written there.
#![tactic(auto)]

ghost use Rattle.std.specs.Prelude.{◌≡◌, ℕ, List, set, slice_index_or};
ghost use Rattle.definition.specs.Lists.{at};
ghost use Rattle.slices.specs.Reading.{at_is};

use zeros::Zero;

// A number that tables hold, and how the definition reads a list of them.
pub trait Entry: Zero {
    ghost at: { List Self → ℕ → Self };

    ghost reads: { (l : List Self) (i : ℕ) → at l i ≡ slice_index_or l i Self.ZERO };
}

impl Entry for u32 {
    ghost at = { at };

    ghost reads = { at_is };
}

impl Entry for u64 {
    ghost at = { at };

    ghost reads = { at_is };
}

pub fn get<T: Entry>(l: &[T], i: usize) -> T
    ensures { result ≡ T.at l.now i }
{
    l.get(i).copied().unwrap_or(T::ZERO)
}

pub fn put<T: Entry>(l: &mut [T], i: usize, x: T)
    ensures { l.new ≡ set l.old i x }
{
    if i < l.len() {
        l[i] = x;
    }
}
