// The Use nodes that each statement reads, from left to right: one list for all statements, and where each statement's begin.
ghost use Rattle.std.specs.Prelude.{◌≡◌, ◌+◌, ◌≤◌, length};
ghost use Rattle.definition.specs.Owners.{expr_items, first_item};
ghost use Rattle.uses.specs.Uses.{stmt_uses};
ghost use Rattle.uses.specs.Filling.{filling, put, put_all, uses_under};
ghost use Rattle.uses.specs.Orders.{Ready, Ordered};

use mentions::{root_at, root_count};
use records::contents::{EXPRESSIONS, STATEMENTS, expr_word, size_of};
use records::owners::{BIN, LOAD, UN, USE, items_of};

fn write(order: &mut [u32], k: usize, x: u32) -> usize
    ensures { filling order.new result ≡ put (filling order.old k) x }
{
    if k < order.len() {
        order[k] = x;
        return k + 1;
    }
    k
}

// Those of expression x, where it is below b. A child is below its parent, so that the bound falls.
fn write_uses(order: &mut [u32], f: &[u8], b: u32, x: u32, k: usize) -> usize
    ensures { filling order.new result ≡ put_all (filling order.old k) (uses_under f.now b x) }
{
    if x >= b {
        return k;
    }
    let t = expr_word(f, x, 0);
    if t == USE {
        return write(order, k, x);
    }
    if t == BIN {
        let m = write_uses(order, f, x, expr_word(f, x, 3), k);
        return write_uses(order, f, x, expr_word(f, x, 4), m);
    }
    if t == UN {
        return write_uses(order, f, x, expr_word(f, x, 3), k);
    }
    if t == LOAD {
        return write_uses(order, f, x, expr_word(f, x, 2), k);
    }
    k
}

// Those of statement i, whose list items begin at `first`.
fn write_stmt(order: &mut [u32], f: &[u8], i: u32, first: u32, k: usize) -> usize
    requires first_value { first ≡ first_item f.now i }
    requires i_bound { first + expr_items f.now i ≤ 4294967296 }
    ensures { filling order.new result ≡ put_all (filling order.old k) (stmt_uses f.now i) }
{
    let n = root_count(f, i);
    let b = size_of(f, EXPRESSIONS);
    let mut at = k;
    for j in 0..n {
        at = write_uses(order, f, b, root_at(f, i, first, j), at);
    }
    at
}

// All of them. The first item of each statement is carried along.
pub fn order(order: &mut [u32], starts: &mut [u32], f: &[u8])
    requires { Ready f.now order.old starts.old }
    ensures { Ordered f.now (length order.old) (length starts.old) order.new starts.new }
{
    let n = size_of(f, STATEMENTS);
    let mut first: u32 = 0;
    let mut at = 0;
    for i in 0..n {
        starts[i as usize] = at as u32;
        at = write_stmt(order, f, i, first, at);
        first += items_of(f, i) as u32;
    }
    starts[n as usize] = at as u32;
}
