// Values of the SSA form, read where the file defines them.
ghost use Rattle.std.specs.Prelude.{◌≡◌, true, ◌+◌, ◌≤◌, ◌<◌};
ghost use Rattle.definition.specs.Edition.{statements};
ghost use Rattle.definition.specs.Contents.{size};
ghost use Rattle.definition.specs.Owners.{first_item};
ghost use Rattle.definition.specs.Shape.{owned};
ghost use Rattle.definition.specs.Values.{eqv};
ghost use Rattle.definition.specs.Meaning.{value_at, phi_value, assigned, call_returns};
ghost use Rattle.defined.specs.Defined.{value_of, list_of, item_value};

use records::contents::{LISTS, PHIS, field};
use records::owners::{ASSIGN, CALL, expr_items, stmt_field, stmt_kind, value_items};

// How many register families there are, and the stack pointer's number.
pub const REGISTERS: u32 = 16;

pub const RSP: u32 = 4;

#[derive(Clone, Copy, PartialEq, Eq)]
pub struct Value {
    pub reg: u32,
    pub ver: u32,
}

pub fn same_value(a: Value, b: Value) -> bool
    ensures { result ≡ eqv (value_of a) (value_of b) }
{
    a == b
}

// The value that words 0 and 1 of record i name, in section s of records of w words.
fn value_in(f: &[u8], s: u32, w: u32, i: u32) -> Value
    requires { w ≤ 16 }
    ensures { value_of result ≡ value_at f.now s w i }
{
    Value {
        reg: field(f, s, w, i, 0),
        ver: field(f, s, w, i, 1),
    }
}

pub fn phi_value(f: &[u8], i: u32) -> Value
    ensures { value_of result ≡ phi_value f.now i }
{
    value_in(f, PHIS, 4, i)
}

// The value at place k of the lists.
pub fn item_value(f: &[u8], k: u32) -> Value
    ensures { value_of result ≡ item_value f.now k }
{
    value_in(f, LISTS, 2, k)
}

// What an Assign defines.
pub fn assigned_by(f: &[u8], i: u32) -> Option<Value>
    ensures { list_of result ≡ assigned f.now i }
{
    if stmt_kind(f, i) != ASSIGN {
        return None;
    }
    Some(Value {
        reg: stmt_field(f, i, 0),
        ver: stmt_field(f, i, 1),
    })
}

// What a Call returns.
pub fn returned_by(f: &[u8], i: u32) -> Option<Value>
    ensures { list_of result ≡ call_returns f.now i }
{
    if stmt_kind(f, i) != CALL || stmt_field(f, i, 3) != 1 {
        return None;
    }
    Some(Value {
        reg: stmt_field(f, i, 4),
        ver: stmt_field(f, i, 5),
    })
}

// Where the items of the statement behind i begin, those of i beginning at `at`. What is owned comes out exactly, so the sum fits.
pub fn next_item(f: &[u8], i: u32, at: u32) -> u32
    requires { (owned f.now ≡ true) × (i < size f.now statements) × (at ≡ first_item f.now i) }
    ensures { result ≡ first_item f.now (i + 1) }
{
    at + expr_items(f, i) + value_items(f, i)
}
