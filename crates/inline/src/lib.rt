// Which values are written in place of their one use: for each the statement that defines it.
#![tactic(auto)]

pub mod tables;

ghost use Rattle.std.specs.Prelude.{◌≡◌, ◌+◌, ◌-◌, ◌<◌, ◌≤◌, length, replicate};
ghost use Rattle.definition.specs.Edition.{Edition, statements};
ghost use Rattle.definition.specs.Lists.{gather, range, at};
ghost use Rattle.definition.specs.Contents.{size};
ghost use Rattle.places.specs.Keys.{places_of};
ghost use Rattle.values.specs.Tables.{table};
ghost use Rattle.later.specs.Search.{single};
ghost use Rattle.inline.specs.Placing.{placed_at, place_of, Adds};

use crate::tables::Tables;
use defined::value::RSP;
use later::later_read;
use places::places_of;
use records::contents::{BLOCKS, size_of};
use records::owners::{ASSIGN, block_stmts, is_dead, stmt_field, stmt_kind};
use slices::{get, put};

// The number of the value that statement i defines.
fn number_of(f: &[u8], numbers: &[u32], i: u32) -> usize
    ensures { result ≡ at numbers.now ((places_of f.now).stmts + i) }
{
    let p = places_of(f);
    get(numbers, p.stmts + i as usize) as usize
}

// Whether statement i is a live Assign to another register than RSP, of value n, which no phi reads and live statements read once.
#[tactic(auto, unfolding(later::specs::Search::single))]
fn read_once(f: &[u8], live: &[u32], phi: &[u32], i: u32, n: usize) -> bool
    ensures { result ≡ single f.now i (at phi.now n) (at live.now n) }
{
    !is_dead(f, i)
        && stmt_kind(f, i) == ASSIGN
        && stmt_field(f, i, 0) != RSP
        && get(phi, n) == 0
        && get(live, n) == 1
}

// Statement i, in a block that ends before statement `end`. A value without exactly one later read in its block is passed over at once.
fn place(places: &mut [u32], of: &Tables<'_>, i: u32, end: u32)
    requires { (i < end) × (end ≤ size of.now.f.now statements) }
    ensures { Adds of.now.f.now (length of.now.numbers.now) (λ (E : Edition). placed_at E of.now.f.now end i) places.old places.new }
{
    let n = number_of(of.f, of.numbers, i);
    if !read_once(of.f, of.live, of.phi, i, n) {
        return;
    }
    let Some(_) = later_read(of.f, of.readers, of.loads, i, end, n) else {
        return;
    };
    put(places, n, i + 1);
}

// The statements of one block, from `first` on and before `end`.
fn place_block(places: &mut [u32], of: &Tables<'_>, first: u32, end: u32)
    requires { (first ≤ end) × (end ≤ size of.now.f.now statements) }
    ensures { Adds of.now.f.now (length of.now.numbers.now) (λ (E : Edition). gather (placed_at E of.now.f.now end) (range first (end - first))) places.old places.new }
{
    for i in first..end {
        place(places, of, i, end);
    }
}

// All blocks, each beginning where the one before ends.
pub fn inline(places: &mut [u32], of: &Tables<'_>)
    requires { places.old ≡ replicate (length of.now.numbers.now) 0 }
    ensures { (E : Edition) → places.new ≡ table of.now.f.now (length of.now.numbers.now) (place_of E of.now.f.now) }
{
    let n = size_of(of.f, BLOCKS);
    let mut first: u32 = 0;
    for b in 0..n {
        let end = first + block_stmts(of.f, b);
        place_block(places, of, first, end);
        first = end;
    }
}
