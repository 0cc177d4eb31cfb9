// One round over the definitions of a closure: each block's phis, then its Assigns, dead ones too.
#![tactic(auto)]

mod rules;

ghost use Rattle.std.specs.Prelude.{◌≡◌, ◌+◌, ◌≤◌, ◌<◌, length};
ghost use Rattle.definition.specs.Edition.{Edition, blocks, phis, statements};
ghost use Rattle.definition.specs.Contents.{size, text};
ghost use Rattle.definition.specs.Owners.{first_input};
ghost use Rattle.definition.specs.Read.{block_at, all_trees};
ghost use Rattle.definition.specs.Offsets.{block_defs};
ghost use Rattle.rounds.specs.Defs.{mine, phi_defs, stmt_defs, defs_below};
ghost use Rattle.rounds.specs.Ran.{Ran};
ghost use Rattle.rounds.specs.Before.{Before};

use crate::rules::{phi_step, stmt_step};
use records::contents::{BLOCKS, size_of};
use records::owners::{block_phis, block_stmts, phi_inputs};
use sums::numbered::Numbered;

// The first phi, input and statement of the next block, and whether the last one taught something.
#[derive(Clone, Copy)]
pub struct Walk {
    pub phi: u32,
    pub input: u32,
    pub stmt: u32,
    pub changed: bool,
}

#[derive(Clone, Copy)]
pub struct Phis {
    pub input: u32,
    pub changed: bool,
}

// The n phis from `from` on, whose inputs begin at `input`.
fn phis_round(tab: &mut [u64], of: &Numbered<'_>, own: bool, from: u32, n: u32, input: u32) -> Phis
    requires tab_len { length tab.old ≡ length of.now.numbers.now }
    requires n_bound { (from + n ≤ size of.now.f.now phis) × (input ≡ first_input of.now.f.now from) }
    ensures { (result.input ≡ first_input of.now.f.now (from + n))
        × Ran of.now.f.now (length of.now.numbers.now) (mine own (phi_defs of.now.f.now from n)) tab.old tab.new result.changed }
{
    let mut changed = false;
    let mut first = input;
    for i in 0..n {
        let c = phi_step(tab, of, own, from + i, first);
        changed |= c;
        first += phi_inputs(of.f, from + i);
    }
    Phis {
        input: first,
        changed,
    }
}

// The n statements from `from` on.
fn stmts_round(tab: &mut [u64], of: &Numbered<'_>, own: bool, from: u32, n: u32) -> bool
    requires tab_len { length tab.old ≡ length of.now.numbers.now }
    requires n_bound { from + n ≤ size of.now.f.now statements }
    ensures { (E : Edition) → text E ≡ of.now.t
        → Ran of.now.f.now (length of.now.numbers.now) (mine own (stmt_defs E of.now.f.now from n)) tab.old tab.new result }
{
    let mut changed = false;
    for i in 0..n {
        let c = stmt_step(tab, of, own, from + i);
        changed |= c;
    }
    changed
}

fn block_round(tab: &mut [u64], of: &Numbered<'_>, own: bool, b: u32, w: Walk) -> Walk
    requires tab_len { length tab.old ≡ length of.now.numbers.now }
    requires b_bound { (b < size of.now.f.now blocks) × Before of.now.f.now b w }
    ensures { Before of.now.f.now (b + 1) result × ((E : Edition) → text E ≡ of.now.t
        → Ran of.now.f.now (length of.now.numbers.now) (mine own (block_defs (block_at E of.now.f.now (all_trees E of.now.f.now) b))) tab.old tab.new result.changed) }
{
    let n = block_phis(of.f, b);
    let m = block_stmts(of.f, b);
    let p = phis_round(tab, of, own, w.phi, n, w.input);
    let c = stmts_round(tab, of, own, w.stmt, m);
    Walk {
        phi: w.phi + n,
        input: p.input,
        stmt: w.stmt + m,
        changed: p.changed | c,
    }
}

// A round over all blocks. Whether it taught something.
pub fn round_of(tab: &mut [u64], of: &Numbered<'_>, own: bool) -> bool
    requires tab_len { length tab.old ≡ length of.now.numbers.now }
    ensures { (E : Edition) → text E ≡ of.now.t
        → Ran of.now.f.now (length of.now.numbers.now) (mine own (defs_below E of.now.f.now (size of.now.f.now blocks))) tab.old tab.new result }
{
    let n = size_of(of.f, BLOCKS);
    let mut changed = false;
    let mut w = Walk {
        phi: 0,
        input: 0,
        stmt: 0,
        changed: false,
    };
    for b in 0..n {
        w = block_round(tab, of, own, b, w);
        changed |= w.changed;
    }
    changed
}
