// Every expression has one owner: each mention is counted once, in a table that is lent.
#![tactic(auto)]

ghost use Rattle.std.specs.Prelude.{◌≡◌, ◌+◌, ◌≤◌, ◌<◌, eqb, length};
ghost use Rattle.definition.specs.Edition.{statements, expressions};
ghost use Rattle.definition.specs.Contents.{size};
ghost use Rattle.definition.specs.Lists.{gather, range, all_below, at};
ghost use Rattle.definition.specs.Owners.{expr_items, first_item};
ghost use Rattle.definition.specs.References.{roots, children, owned_once};
ghost use Rattle.owned.specs.Tally.{more, mentioned, tally, Answered};

use mentions::{child_at, child_count, root_at, root_count};
use records::contents::{EXPRESSIONS, STATEMENTS, size_of};
use records::owners::items_of;
use zeros::clear;

// One owner more; 2 says more than one, so that it never overflows.
#[tactic(auto, using(crate::proofs::Tally::more_none, crate::proofs::Tally::more_some))]
fn one_more(x: u32) -> u32
    ensures { result ≡ more x }
{
    match x {
        0 => 1,
        _ => 2,
    }
}

// A number past the table is passed over. The entry is written by its index, which tells what the table holds then; get_mut does not.
fn mention(table: &mut [u32], e: u32)
    ensures { table.new ≡ mentioned table.old e }
{
    let k = e as usize;
    if k < table.len() {
        table[k] = one_more(table[k]);
    }
}

// The expressions that statement i names; its list items begin at `first`.
fn tally_roots(table: &mut [u32], f: &[u8], i: u32, first: u32)
    requires first_value { first ≡ first_item f.now i }
    requires i_bound { first + expr_items f.now i ≤ 4294967296 }
    ensures { table.new ≡ tally table.old (roots f.now i) }
{
    for k in 0..root_count(f, i) {
        mention(table, root_at(f, i, first, k));
    }
}

fn tally_children(table: &mut [u32], f: &[u8], i: u32)
    ensures { table.new ≡ tally table.old (children f.now i) }
{
    for k in 0..child_count(f, i) {
        mention(table, child_at(f, i, k));
    }
}

// The first item of each statement is carried along, so that no sum is made twice.
fn tally_statements(table: &mut [u32], f: &[u8])
    requires { first_item f.now (size f.now statements) < 4294967296 }
    ensures { table.new ≡ tally table.old (gather (roots f.now) (range 0 (size f.now statements))) }
{
    let mut first: u32 = 0;
    for i in 0..size_of(f, STATEMENTS) {
        tally_roots(table, f, i, first);
        first += items_of(f, i) as u32;
    }
}

fn tally_expressions(table: &mut [u32], f: &[u8])
    ensures { table.new ≡ tally table.old (gather (children f.now) (range 0 (size f.now expressions))) }
{
    for i in 0..size_of(f, EXPRESSIONS) {
        tally_children(table, f, i);
    }
}

// Whether the first n entries are all 1.
fn all_once(table: &[u32], n: u32) -> bool
    requires { n ≤ length table.now }
    ensures { result ≡ all_below n (λ e. eqb (at table.now e) 1) }
{
    table[..n as usize].iter().all(|x| *x == 1)
}

// Whether each expression has exactly one owner; the table is left as zeros.
pub fn owned_once(table: &mut [u32], f: &[u8]) -> bool
    requires statements_bound { first_item f.now (size f.now statements) < 4294967296 }
    requires expressions_in_bounds { size f.now expressions ≤ length table.old }
    ensures { Answered (owned_once f.now) result table.old table.new }
{
    clear(table);
    tally_statements(table, f);
    tally_expressions(table, f);
    let once = all_once(table, size_of(f, EXPRESSIONS));
    clear(table);
    once
}
