// Out of SSA: a phi and its inputs are one variable, dead phis too; RSP's make none. A table says of each value, by number, the number of its class's
// root, the least value of it.
#![tactic(auto)]

ghost use Rattle.std.specs.Prelude.{◌≡◌, ◌+◌, ◌≤◌, ◌<◌, eqb, length};
ghost use Rattle.definition.specs.Edition.{Edition, phis};
ghost use Rattle.definition.specs.Contents.{size};
ghost use Rattle.definition.specs.Values.{RSP};
ghost use Rattle.definition.specs.Read.{read};
ghost use Rattle.definition.specs.Classes.{find, classes};
ghost use Rattle.places.specs.Keys.{key_of, keyed};
ghost use Rattle.values.specs.Tables.{number_of, table};
ghost use Rattle.classes.specs.Given.{Given, Standing};
ghost use Rattle.unions.specs.Roots.{roots_of};
ghost use Rattle.classes.specs.Joined.{join_run, join_phi, join_phis, kept, spared};

use defined::value::RSP;
use places::places_of;
use records::contents::{PHIS, size_of};
use records::owners::phi_inputs;
use slices::get;
use ssa::block::{Phi, phi_at};
use unions::{flatten, reset, union};

// The class of a takes up the numbers at n places from k on.
fn join_run(roots: &mut [u32], keys: &[u64], numbers: &[u32], a: u32, k: usize, n: u32)
    requires { (length keys.now ≡ length roots.old) × (k + n ≤ length numbers.now) }
    ensures { roots_of keys.now roots.new
        ≡ join_run keys.now numbers.now (roots_of keys.now roots.old) a k n }
{
    for j in 0..n {
        let b = get(numbers, k + j as usize);
        union(roots, keys, a, b);
    }
}

// The phi is RSP's.
fn of_rsp(phi: Phi) -> bool
    ensures { result ≡ eqb phi.value.reg RSP }
{
    phi.value.reg == RSP
}

// Phi i, which stands at place p, takes up its inputs, which stand from place k on.
fn join_phi(roots: &mut [u32], f: &[u8], keys: &[u64], numbers: &[u32], i: u32, p: usize, k: usize)
    requires { Given f.now keys.now numbers.now (length roots.old) × (i < size f.now phis) × Standing f.now i p k }
    ensures { roots_of keys.now roots.new
        ≡ join_phi f.now keys.now numbers.now (roots_of keys.now roots.old) i }
{
    let phi = phi_at(f, i);
    if of_rsp(phi) {
        return;
    }
    let a = get(numbers, p);
    join_run(roots, keys, numbers, a, k, phi.inputs);
}

// All phis.
fn join_phis(roots: &mut [u32], f: &[u8], keys: &[u64], numbers: &[u32])
    requires { Given f.now keys.now numbers.now (length roots.old) }
    ensures { roots_of keys.now roots.new
        ≡ join_phis f.now keys.now numbers.now (roots_of keys.now roots.old) 0 (size f.now phis) }
{
    let at = places_of(f);
    let n = size_of(f, PHIS);
    let mut p = at.phis;
    let mut k = at.inputs;
    for i in 0..n {
        join_phi(roots, f, keys, numbers, i, p, k);
        p += 1;
        k += phi_inputs(f, i) as usize;
    }
}

// What place i keeps: x at a value's number, nothing at other places.
#[tactic(auto, unfolding(crate::specs::Joined::kept))]
fn keep(keys: &[u64], numbers: &[u32], i: usize, x: u32) -> u32
    ensures { result ≡ kept keys.now numbers.now x i }
{
    if get(keys, i) == 0 || get(numbers, i) as usize != i {
        return 0;
    }
    x
}

// Nothing stands at a place that is not a value's number.
fn spare(roots: &mut [u32], keys: &[u64], numbers: &[u32])
    ensures { roots.new ≡ spared keys.now numbers.now roots.old }
{
    for (i, root) in roots.iter_mut().enumerate() {
        *root = keep(keys, numbers, i, *root);
    }
}

// At each value's number the number of its class's root.
pub fn classes(roots: &mut [u32], f: &[u8], keys: &[u64], numbers: &[u32])
    requires { Given f.now keys.now numbers.now (length roots.old) }
    ensures { (E : Edition) → roots.new
        ≡ table f.now (length roots.old)
        (λ v. number_of (keyed f.now (length roots.old)) (key_of (find (classes (read E f.now)) v))) }
{
    reset(roots);
    join_phis(roots, f, keys, numbers);
    flatten(roots, keys);
    spare(roots, keys, numbers);
}
