// Keys as the file has them. Every register is one of the sixteen, so that a key has 64 bits.
ghost use Rattle.std.specs.Prelude.{◌≡◌, true, ◌+◌, ◌<◌};
ghost use Rattle.definition.specs.Edition.{args, phis, statements, expressions};
ghost use Rattle.definition.specs.Contents.{size};
ghost use Rattle.definition.specs.Owners.{items, first_item};
ghost use Rattle.definition.specs.Meaning.{registers};
ghost use Rattle.definition.specs.Values.{value};
ghost use Rattle.places.specs.Keys.{key_of, arg_key, phi_key, input_key, stmt_key, expr_key};
ghost use Rattle.places.specs.Laid.{key_at, item_at};

use records::contents::{
    ARGS, EXPRESSIONS, PHIS, STATEMENTS, arg_at, expr_word, input_at, item_word, phi_word,
};
use records::owners::{ASSIGN, CALL, USE, expr_items, stmt_field, stmt_kind};

fn value_key(reg: u32, ver: u32) -> u64
    requires { reg < 16 }
    ensures { result ≡ key_of (value reg ver) }
{
    1 + (4294967296 * (reg as u64) + ver as u64)
}

fn arg_key(f: &[u8], i: u32) -> u64
    requires f_value { registers f.now ≡ true }
    requires i_bound { i < size f.now args }
    ensures { result ≡ arg_key f.now i }
{
    value_key(arg_at(f, i), 0)
}

fn phi_key(f: &[u8], i: u32) -> u64
    requires f_value { registers f.now ≡ true }
    requires i_bound { i < size f.now phis }
    ensures { result ≡ phi_key f.now i }
{
    value_key(phi_word(f, i, 0), phi_word(f, i, 1))
}

// What an Assign defines, or a Call returns.
fn stmt_key(f: &[u8], i: u32) -> u64
    requires f_value { registers f.now ≡ true }
    requires i_bound { i < size f.now statements }
    ensures { result ≡ stmt_key f.now i }
{
    let k = stmt_kind(f, i);
    if k == ASSIGN {
        return value_key(stmt_field(f, i, 0), stmt_field(f, i, 1));
    }
    if k != CALL {
        return 0;
    }
    if stmt_field(f, i, 3) != 1 {
        return 0;
    }
    value_key(stmt_field(f, i, 4), stmt_field(f, i, 5))
}

fn expr_key(f: &[u8], i: u32) -> u64
    requires f_value { registers f.now ≡ true }
    requires i_bound { i < size f.now expressions }
    ensures { result ≡ expr_key f.now i }
{
    if expr_word(f, i, 0) != USE {
        return 0;
    }
    value_key(expr_word(f, i, 1), expr_word(f, i, 2))
}

// Record i of a section in which each record is one place.
pub fn key_at(f: &[u8], s: u32, i: u32) -> u64
    requires f_value { registers f.now ≡ true }
    requires i_bound { i < size f.now s }
    ensures { result ≡ key_at f.now s i }
{
    if s == ARGS {
        return arg_key(f, i);
    }
    if s == PHIS {
        return phi_key(f, i);
    }
    if s == STATEMENTS {
        return stmt_key(f, i);
    }
    if s == EXPRESSIONS {
        return expr_key(f, i);
    }
    0
}

// Input k, of phi i.
pub fn input_key(f: &[u8], i: u32, k: u32) -> u64
    requires f_value { registers f.now ≡ true }
    requires i_bound { i < size f.now phis }
    ensures { result ≡ input_key f.now i k }
{
    value_key(phi_word(f, i, 0), input_at(f, k))
}

// Item j of statement i, whose items begin at `first`.
pub fn item_key(f: &[u8], i: u32, first: u32, j: u32) -> u64
    requires f_value { registers f.now ≡ true }
    requires i_bound { (i < size f.now statements) × (j < items f.now i) }
    requires first_value { (first ≡ first_item f.now i) × (first + j < 4294967296) }
    ensures { result ≡ item_at f.now i j }
{
    if j < expr_items(f, i) {
        return 0;
    }
    let k = first + j;
    value_key(item_word(f, k, 0), item_word(f, k, 1))
}
