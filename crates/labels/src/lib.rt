// A block has a label where some block goes there other than by falling into the next, or some branch does, dead or live.
#![tactic(auto)]

ghost use Rattle.std.specs.Prelude.{◌≡◌, true, ◌≤◌, ◌<◌, length, replicate};
ghost use Rattle.definition.specs.Edition.{blocks, statements};
ghost use Rattle.definition.specs.Lists.{distinct, gather, range};
ghost use Rattle.definition.specs.Contents.{size};
ghost use Rattle.definition.specs.Shape.{owned};
ghost use Rattle.definition.specs.Meaning.{starts};
ghost use Rattle.definition.specs.Lookup.{is_next};
ghost use Rattle.reads.specs.Counts.{visit};
ghost use Rattle.labels.specs.Labels.{block_of, labelled, next_at, taken_at, fall_at, edges_at, target_at, Labels};

use records::contents::{BLOCKS, STATEMENTS, block_long, block_word, size_of, stmt_long};
use records::owners::{BRANCH, stmt_field, stmt_kind};
use slices::put;

// The first block that begins at a, if one does.
pub fn block_of(f: &[u8], a: u64) -> Option<u32>
    ensures { result ≡ block_of f.now a }
{
    (0..size_of(f, BLOCKS)).find(|b| block_long(f, *b, 0) == a)
}

// The block that begins at a is marked, if there is one.
#[tactic(auto, unfolding(crate::specs::Labels::labelled, crate::specs::Labels::with_mark))]
fn label_at(tab: &mut [u32], f: &[u8], a: u64)
    ensures { tab.new ≡ labelled f.now tab.old a }
{
    if let Some(b) = block_of(f, a) {
        put(tab, b as usize, 1);
    }
}

// Is a the start of the block behind b.
#[tactic(auto, unfolding(crate::specs::Labels::next_at, crate::specs::Labels::start_at, definition::specs::Lookup::is_next))]
pub fn is_next(f: &[u8], b: u32, a: u64) -> bool
    requires { b < size f.now blocks }
    ensures { result ≡ is_next (next_at f.now b) a }
{
    let c = b + 1;
    c < size_of(f, BLOCKS) && a == block_long(f, c, 0)
}

// Where block b goes when its branch is taken.
fn label_taken(tab: &mut [u32], f: &[u8], b: u32)
    ensures { tab.new ≡ visit (labelled f.now) tab.old (taken_at f.now b) }
{
    if block_word(f, b, 2) == 1 {
        label_at(tab, f, block_long(f, b, 3));
    }
}

// Where it falls to, unless that is the next block.
fn label_fall(tab: &mut [u32], f: &[u8], b: u32)
    requires { b < size f.now blocks }
    ensures { tab.new ≡ visit (labelled f.now) tab.old (fall_at f.now b) }
{
    if block_word(f, b, 5) != 1 {
        return;
    }
    let a = block_long(f, b, 6);
    if is_next(f, b, a) {
        return;
    }
    label_at(tab, f, a);
}

fn label_edges(tab: &mut [u32], f: &[u8])
    ensures { tab.new ≡ visit (labelled f.now) tab.old (gather (edges_at f.now) (range 0 (size f.now blocks))) }
{
    let n = size_of(f, BLOCKS);
    for b in 0..n {
        label_taken(tab, f, b);
        label_fall(tab, f, b);
    }
}

// The target of statement i, if it is a branch that has one.
fn label_target(tab: &mut [u32], f: &[u8], i: u32)
    ensures { tab.new ≡ visit (labelled f.now) tab.old (target_at f.now i) }
{
    if stmt_kind(f, i) != BRANCH {
        return;
    }
    if stmt_field(f, i, 3) != 1 {
        return;
    }
    label_at(tab, f, stmt_long(f, i, 8));
}

fn label_targets(tab: &mut [u32], f: &[u8])
    ensures { tab.new ≡ visit (labelled f.now) tab.old (gather (target_at f.now) (range 0 (size f.now statements))) }
{
    let n = size_of(f, STATEMENTS);
    for i in 0..n {
        label_target(tab, f, i);
    }
}

// 1 for each block that has a label.
pub fn labels(tab: &mut [u32], f: &[u8])
    requires f_value { (owned f.now ≡ true) × (distinct (starts f.now) ≡ true) }
    requires tab_value { (tab.old ≡ replicate (length tab.old) 0) × (size f.now blocks ≤ length tab.old) }
    ensures { Labels f.now (length tab.old) tab.new }
{
    label_edges(tab, f);
    label_targets(tab, f);
}
