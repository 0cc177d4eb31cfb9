// What one definition adds to the table.
ghost use Rattle.std.specs.Prelude.{◌≡◌, ◌+◌, ◌≤◌, ◌<◌, length};
ghost use Rattle.definition.specs.Edition.{Edition, phis, statements};
ghost use Rattle.definition.specs.Contents.{size, text};
ghost use Rattle.definition.specs.Owners.{first_input};
ghost use Rattle.sums.specs.Address.{value_at};
ghost use Rattle.rounds.specs.Agreed.{agreed_by};
ghost use Rattle.rounds.specs.Defs.{turn_of, mine, phi_defs, stmt_defs};
ghost use Rattle.rounds.specs.Ran.{pass_of, learnt, Ran};

use records::contents::phi_word;
use records::owners::{ASSIGN, phi_inputs, stmt_field, stmt_kind};
use slices::{get, put};
use sums::address::stack_off;
use sums::numbered::Numbered;
use sums::reading::value_at;

const RSP: u32 = 4;

// What the n values from place `from` on agree on: there is one, and all are known and equal.
fn agreed(tab: &[u64], numbers: &[u32], from: usize, n: u32) -> u64
    requires { from + n ≤ length numbers.now }
    ensures { result ≡ agreed_by (value_at tab.now numbers.now from) n }
{
    if n == 0 {
        return 0;
    }
    let x = value_at(tab, numbers, from, 0);
    if (0..n).all(|i| value_at(tab, numbers, from, i) == x) {
        x
    } else {
        0
    }
}

// Puts x for value v, unless it says nothing or something is known. Whether it did.
#[tactic(auto, unfolding(crate::specs::Ran::learnt))]
fn learn(tab: &mut [u64], v: u32, x: u64) -> bool
    ensures { pass_of tab.new result ≡ learnt tab.old v x }
{
    if get(tab, v as usize) != 0 || x == 0 {
        return false;
    }
    put(tab, v as usize, x);
    true
}

// Whether a definition of this register is the closure's: RSP's own, or the others'.
#[tactic(auto, unfolding(crate::specs::Defs::turn_of))]
fn is_turn(own: bool, reg: u32) -> bool
    ensures { result ≡ turn_of own reg }
{
    (reg == RSP) == own
}

// Phi i, whose inputs begin at `first`.
pub fn phi_step(tab: &mut [u64], of: &Numbered<'_>, own: bool, i: u32, first: u32) -> bool
    requires tab_len { length tab.old ≡ length of.now.numbers.now }
    requires i_bound { (i < size of.now.f.now phis) × (first ≡ first_input of.now.f.now i) }
    ensures { Ran of.now.f.now (length of.now.numbers.now) (mine own (phi_defs of.now.f.now i 1)) tab.old tab.new result }
{
    if !is_turn(own, phi_word(of.f, i, 0)) {
        return false;
    }
    let x = agreed(
        tab,
        of.numbers,
        of.places.inputs + first as usize,
        phi_inputs(of.f, i),
    );
    let v = get(of.numbers, of.places.phis + i as usize);
    learn(tab, v, x)
}

// Statement i, if it is an Assign.
pub fn stmt_step(tab: &mut [u64], of: &Numbered<'_>, own: bool, i: u32) -> bool
    requires tab_len { length tab.old ≡ length of.now.numbers.now }
    requires i_bound { i < size of.now.f.now statements }
    ensures { (E : Edition) → text E ≡ of.now.t
        → Ran of.now.f.now (length of.now.numbers.now) (mine own (stmt_defs E of.now.f.now i 1)) tab.old tab.new result }
{
    if stmt_kind(of.f, i) != ASSIGN {
        return false;
    }
    if !is_turn(own, stmt_field(of.f, i, 0)) {
        return false;
    }
    let x = stack_off(tab, of, stmt_field(of.f, i, 2));
    let v = get(of.numbers, of.places.stmts + i as usize);
    learn(tab, v, x)
}
