// The table of keys, section by section.
ghost use Rattle.std.specs.Prelude.{◌≡◌, true, map, ◌+◌, ◌≤◌, ◌<◌, length, replicate};
ghost use Rattle.definition.specs.Edition.{phis, statements};
ghost use Rattle.definition.specs.Lists.{gather, range};
ghost use Rattle.definition.specs.Contents.{size};
ghost use Rattle.definition.specs.Owners.{items, phi_inputs, first_input, first_item};
ghost use Rattle.definition.specs.Shape.{owned};
ghost use Rattle.definition.specs.Meaning.{registers};
ghost use Rattle.places.specs.Keys.{input_keys, item_keys, places_of, keyed};
ghost use Rattle.places.specs.Laid.{laid, key_at};

use places::key::{input_key, item_key, key_at};
use places::places_of;
use records::contents::{ARGS, EXPRESSIONS, PHIS, STATEMENTS, size_of};
use records::owners::{items_of, phi_inputs};
use slices::put;

// A section in which each record is one place, from place `from` on.
fn lay_section(keys: &mut [u64], f: &[u8], s: u32, from: usize)
    requires f_value { registers f.now ≡ true }
    requires from_bound { from < 34359738368 }
    ensures { keys.new ≡ laid keys.old from (map (key_at f.now s) (range 0 (size f.now s))) }
{
    let n = size_of(f, s);
    for i in 0..n {
        put(keys, from + i as usize, key_at(f, s, i));
    }
}

// The inputs of phi i, the first of which is `first`.
fn lay_phi(keys: &mut [u64], f: &[u8], i: u32, first: u32, from: usize)
    requires f_value { registers f.now ≡ true }
    requires i_bound { (i < size f.now phis) × (first ≡ first_input f.now i) × (first + phi_inputs f.now i < 4294967296) }
    requires from_bound { from < 34359738368 }
    ensures { keys.new ≡ laid keys.old from (input_keys f.now i) }
{
    let n = phi_inputs(f, i);
    for j in 0..n {
        put(keys, from + j as usize, input_key(f, i, first + j));
    }
}

fn lay_inputs(keys: &mut [u64], f: &[u8], from: usize)
    requires f_value { registers f.now ≡ true }
    requires phis_bound { first_input f.now (size f.now phis) < 4294967296 }
    requires from_bound { from < 17179869184 }
    ensures { keys.new ≡ laid keys.old from (gather (input_keys f.now) (range 0 (size f.now phis))) }
{
    let n = size_of(f, PHIS);
    let mut first: u32 = 0;
    for i in 0..n {
        lay_phi(keys, f, i, first, from + first as usize);
        first += phi_inputs(f, i);
    }
}

// The items of statement i, the first of which is `first`.
fn lay_stmt(keys: &mut [u64], f: &[u8], i: u32, first: u32, from: usize)
    requires f_value { registers f.now ≡ true }
    requires i_bound { (i < size f.now statements) × (first ≡ first_item f.now i) × (first + items f.now i < 4294967296) }
    requires from_bound { from < 34359738368 }
    ensures { keys.new ≡ laid keys.old from (item_keys f.now i) }
{
    let n = items_of(f, i) as u32;
    for j in 0..n {
        put(keys, from + j as usize, item_key(f, i, first, j));
    }
}

fn lay_items(keys: &mut [u64], f: &[u8], from: usize)
    requires f_value { registers f.now ≡ true }
    requires statements_bound { first_item f.now (size f.now statements) < 4294967296 }
    requires from_bound { from < 17179869184 }
    ensures { keys.new ≡ laid keys.old from (gather (item_keys f.now) (range 0 (size f.now statements))) }
{
    let n = size_of(f, STATEMENTS);
    let mut first: u32 = 0;
    for i in 0..n {
        lay_stmt(keys, f, i, first, from + first as usize);
        first += items_of(f, i) as u32;
    }
}

// The key of every place, and zeros behind them.
pub fn keys(keys: &mut [u64], f: &[u8])
    requires f_value { (owned f.now ≡ true) × (registers f.now ≡ true) }
    requires keys_value { keys.old ≡ replicate (length keys.old) 0 }
    requires f_in_bounds { (places_of f.now).total ≤ length keys.old }
    ensures { keys.new ≡ keyed f.now (length keys.old) }
{
    let p = places_of(f);
    lay_section(keys, f, ARGS, 0);
    lay_section(keys, f, PHIS, p.phis);
    lay_inputs(keys, f, p.inputs);
    lay_section(keys, f, STATEMENTS, p.stmts);
    lay_items(keys, f, p.items);
    lay_section(keys, f, EXPRESSIONS, p.exprs);
}
