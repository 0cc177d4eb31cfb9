// The expressions that a record names, by their number: the children of an expression and the roots of a statement.
#![tactic(auto)]

ghost use Rattle.std.specs.Prelude.{◌≡◌, ◌+◌, ◌≤◌, ◌<◌};
ghost use Rattle.definition.specs.Owners.{expr_items};
ghost use Rattle.mentions.specs.Named.{child_count, child_at, root_count, root_at};

use records::contents::{expr_word, item_word};
use records::owners::{
    ASSIGN, BIN, FLAGS, LOAD, RETURN, STORE, UN, expr_items, stmt_field, stmt_kind,
};

#[tactic(auto, using(std::proofs::lemmas::Bool::Decides::nat_tests), unfolding(crate::specs::Named::child_count))]
pub fn child_count(f: &[u8], i: u32) -> u32
    ensures { result ≡ child_count f.now i }
{
    match expr_word(f, i, 0) {
        BIN => 2,
        UN | LOAD => 1,
        _ => 0,
    }
}

#[tactic(auto, using(std::proofs::lemmas::Bool::Decides::nat_tests), unfolding(crate::specs::Named::child_at))]
pub fn child_at(f: &[u8], i: u32, k: u32) -> u32
    requires { k < 2 }
    ensures { result ≡ child_at f.now i k }
{
    match expr_word(f, i, 0) {
        LOAD => expr_word(f, i, 2),
        _ => expr_word(f, i, 3 + k),
    }
}

#[tactic(auto, using(std::proofs::lemmas::Bool::Decides::nat_tests), unfolding(crate::specs::Named::root_count))]
pub fn root_count(f: &[u8], i: u32) -> u32
    ensures { result ≡ root_count f.now i }
{
    match stmt_kind(f, i) {
        ASSIGN => 1,
        STORE | FLAGS => 2,
        RETURN => u32::from(stmt_field(f, i, 0) == 1),
        _ => expr_items(f, i),
    }
}

// The k-th root of statement i, whose list items begin at `first`.
#[tactic(auto, using(std::proofs::lemmas::Bool::Decides::nat_tests), unfolding(crate::specs::Named::root_at, crate::specs::Named::root_count))]
pub fn root_at(f: &[u8], i: u32, first: u32, k: u32) -> u32
    requires k_bound { k < root_count f.now i }
    requires i_bound { first + expr_items f.now i ≤ 4294967296 }
    ensures { result ≡ root_at f.now i first k }
{
    match stmt_kind(f, i) {
        ASSIGN => stmt_field(f, i, 2),
        STORE | FLAGS => stmt_field(f, i, 1 + k),
        RETURN => stmt_field(f, i, 1),
        _ => item_word(f, first + k, 0),
    }
}
