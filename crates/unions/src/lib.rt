// Classes of value numbers by links from a number to a lesser one of its class: find with path compression, union to the least.
#![tactic(auto)]

ghost use Rattle.std.specs.Prelude.{◌≡◌, ◌<◌, length};
ghost use Rattle.definition.specs.Lists.{range};
ghost use Rattle.unions.specs.Roots.{under, root_at, roots_of, linked, join};

use slices::{get, put};

// Number i has a lesser key than number j.
fn less(keys: &[u64], i: u32, j: u32) -> bool
    ensures { result ≡ under keys.now i j }
{
    get(keys, i as usize) < get(keys, j as usize)
}

// The root over x.
fn top(roots: &[u32], keys: &[u64], x: u32) -> u32
    ensures { result ≡ root_at keys.now roots.now x }
{
    // The loop follows links to lesser keys, a chain of no known length.
    let mut r = x;
    let mut p = get(roots, x as usize);
    while less(keys, p, r) {
        r = p;
        p = get(roots, r as usize);
    }
    r
}

// What is on the way from x to its root r gets a link to r.
fn shorten(roots: &mut [u32], keys: &[u64], x: u32, r: u32)
    requires { r ≡ root_at keys.now roots.old x }
    ensures { roots_of keys.now roots.new ≡ roots_of keys.now roots.old }
{
    // The loop follows the same links, and writes each behind itself.
    let mut c = x;
    let mut p = get(roots, x as usize);
    while less(keys, p, c) {
        put(roots, c as usize, r);
        c = p;
        p = get(roots, c as usize);
    }
}

// The root of x, and a short way to it.
fn find(roots: &mut [u32], keys: &[u64], x: u32) -> u32
    ensures { (result ≡ root_at keys.now roots.old x)
        × (roots_of keys.now roots.new ≡ roots_of keys.now roots.old) }
{
    let r = top(roots, keys, x);
    shorten(roots, keys, x, r);
    r
}

// Of two roots the greater gets a link to the lesser.
fn link(roots: &mut [u32], keys: &[u64], x: u32, y: u32)
    ensures { roots.new ≡ linked keys.now roots.old x y }
{
    if less(keys, y, x) {
        put(roots, x as usize, y);
        return;
    }
    if less(keys, x, y) {
        put(roots, y as usize, x);
    }
}

// The classes of a and b become one.
pub fn union(roots: &mut [u32], keys: &[u64], a: u32, b: u32)
    requires { length keys.now ≡ length roots.old }
    ensures { roots_of keys.now roots.new ≡ join keys.now (roots_of keys.now roots.old) a b }
{
    let x = find(roots, keys, a);
    let y = find(roots, keys, b);
    link(roots, keys, x, y);
}

// Each number a class of its own.
pub fn reset(roots: &mut [u32])
    requires { length roots.old < 4294967296 }
    ensures { roots.new ≡ range 0 (length roots.old) }
{
    for (i, link) in roots.iter_mut().enumerate() {
        *link = i as u32;
    }
}

// Each number's link goes to its root.
pub fn flatten(roots: &mut [u32], keys: &[u64])
    requires { length roots.old < 4294967296 }
    ensures { roots.new ≡ roots_of keys.now roots.old }
{
    for i in 0..roots.len() {
        let r = top(roots, keys, i as u32);
        roots[i] = r;
    }
}
