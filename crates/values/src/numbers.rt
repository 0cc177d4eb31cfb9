// The number of every place: the first place of its key, found by chains of first places whose keys have one remainder.
ghost use Rattle.std.specs.Prelude.{◌≡◌, ◌≤◌, ◌<◌, length, replicate};
ghost use Rattle.values.specs.Tables.{numbers_of};
ghost use Rattle.values.specs.Chains.{walked, Chained, Numbered, Emptied};

use slices::{get, put};
use zeros::clear;

// Along a chain from place top - 1 on: where key k stands, and 1 more, or 0. A chain only leads down.
fn walk(keys: &[u64], next: &[u32], top: u32, k: u64) -> u32
    ensures { result ≡ walked keys.now next.now k top }
{
    // The loop follows links: each leads to a lower place, but by any step, so that there is no range to count through.
    let mut x = top;
    while x > 0 {
        let here = x as usize - 1;
        if get(keys, here) == k {
            return x;
        }
        let y = get(next, here);
        if y >= x {
            return 0;
        }
        x = y;
    }
    0
}

// The number of place i; a new first place becomes the head of its chain.
fn number(heads: &mut [u32], next: &mut [u32], keys: &[u64], i: usize) -> u32
    requires chained { Chained keys.now heads.old next.old i }
    requires i_in_bounds { (i < length keys.now) × (length keys.now ≤ length next.old) × (length keys.now < 4294967296) × (0 < length heads.old) }
    ensures { Numbered keys.now i result heads.new next.new }
{
    let k = get(keys, i);
    if k == 0 {
        return 0;
    }
    let b = (k % (heads.len() as u64)) as usize;
    let top = get(heads, b);
    let x = walk(keys, next, top, k);
    if x > 0 {
        return x - 1;
    }
    put(next, i, top);
    put(heads, b, i as u32 + 1);
    i as u32
}

fn number_all(numbers: &mut [u32], heads: &mut [u32], next: &mut [u32], keys: &[u64])
    requires heads_value { heads.old ≡ replicate (length heads.old) 0 }
    requires numbers_len { (length numbers.old ≡ length keys.now) × (length keys.now ≤ length next.old) × (length keys.now < 4294967296) × (0 < length heads.old) }
    ensures { numbers.new ≡ numbers_of keys.now }
{
    for i in 0..keys.len() {
        put(numbers, i, number(heads, next, keys, i));
    }
}

// The numbers of all keys. Heads and next are scratch, and are left as zeros.
pub fn numbers(numbers: &mut [u32], heads: &mut [u32], next: &mut [u32], keys: &[u64])
    requires { (length numbers.old ≡ length keys.now) × (length keys.now ≤ length next.old) × (length keys.now < 4294967296) × (0 < length heads.old) }
    ensures { Emptied keys.now numbers.new heads.new next.new (length heads.old) (length next.old) }
{
    clear(heads);
    number_all(numbers, heads, next, keys);
    clear(heads);
    clear(next);
}
