// The kinds of statements and the tags of expressions; a statement's kind, marks and fields, and how many list items it owns.
ghost use Rattle.std.specs.Prelude.{◌≡◌, ◌<◌};
ghost use Rattle.definition.specs.Owners.{stmt_kind, stmt_field, expr_items, value_items, items, block_phis, block_stmts, phi_inputs};
ghost use Rattle.definition.specs.Read.{marked};

use crate::contents::{block_word, phi_word, stmt_word};
use crate::kinds::{Kind, kind_at};

// The kinds of statements.
pub const ASSIGN: u32 = 1;

pub const STORE: u32 = 2;

pub const CALL: u32 = 3;

pub const BRANCH: u32 = 4;

pub const FLAGS: u32 = 5;

pub const RETURN: u32 = 6;

pub const OTHER: u32 = 7;

// The tags of expressions.
pub const CONST: u32 = 1;

pub const USE: u32 = 2;

pub const BIN: u32 = 3;

pub const UN: u32 = 4;

pub const LOAD: u32 = 5;

pub const OPAQUE: u32 = 6;

pub fn stmt_kind(f: &[u8], i: u32) -> u32
    ensures { result ≡ stmt_kind f.now i }
{
    stmt_word(f, i, 3)
}

// Whether statement i has mark m, a power of 2.
fn is_marked(f: &[u8], i: u32, m: u32) -> bool
    requires { 0 < m }
    ensures { result ≡ marked f.now i m }
{
    stmt_word(f, i, 2) / m % 2 == 1
}

// Whether statement i is dead.
pub fn is_dead(f: &[u8], i: u32) -> bool
    ensures { result ≡ marked f.now i 1 }
{
    is_marked(f, i, 1)
}

// Whether statement i is marked as a push.
pub fn is_pushed(f: &[u8], i: u32) -> bool
    ensures { result ≡ marked f.now i 4 }
{
    is_marked(f, i, 4)
}

// Field k of a statement, behind address, marks and kind.
pub fn stmt_field(f: &[u8], i: u32, k: u32) -> u32
    requires { k < 7 }
    ensures { result ≡ stmt_field f.now i k }
{
    stmt_word(f, i, 4 + k)
}

// How many list items of statement i are expressions; they come first.
#[tactic(auto, unfolding(definition::specs::Owners::expr_items, crate::specs::Kinds::kind_of))]
pub fn expr_items(f: &[u8], i: u32) -> u32
    ensures { result ≡ expr_items f.now i }
{
    match kind_at(f, i) {
        Some(Kind::Call | Kind::Other) => stmt_field(f, i, 2),
        Some(Kind::Branch) => stmt_field(f, i, 6),
        _ => 0,
    }
}

// How many are values.
#[tactic(auto, unfolding(definition::specs::Owners::value_items, crate::specs::Kinds::kind_of))]
pub fn value_items(f: &[u8], i: u32) -> u32
    ensures { result ≡ value_items f.now i }
{
    match kind_at(f, i) {
        Some(Kind::Call) => stmt_field(f, i, 6),
        Some(Kind::Other) => stmt_field(f, i, 3),
        _ => 0,
    }
}

pub fn items_of(f: &[u8], i: u32) -> u64
    ensures { result ≡ items f.now i }
{
    u64::from(expr_items(f, i)) + u64::from(value_items(f, i))
}

pub fn block_phis(f: &[u8], i: u32) -> u32
    ensures { result ≡ block_phis f.now i }
{
    block_word(f, i, 8)
}

pub fn block_stmts(f: &[u8], i: u32) -> u32
    ensures { result ≡ block_stmts f.now i }
{
    block_word(f, i, 9)
}

pub fn phi_inputs(f: &[u8], i: u32) -> u32
    ensures { result ≡ phi_inputs f.now i }
{
    phi_word(f, i, 3)
}
