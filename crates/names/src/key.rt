// One value named: its entry in the table of values, that of its class, and the next local's number.
ghost use Rattle.std.specs.Prelude.{◌≡◌, ◌&&◌, eqb, set};
ghost use Rattle.defined.specs.Defined.{value_of};
ghost use Rattle.names.specs.Spots.{spot, known, state, met, named};

use defined::value::{RSP, Value};
use slices::{get, put};

// A code has 32 bits; no function has so many locals.
const LOCALS: u32 = 2147483648;

// Is value n version 0 and the root of its own class.
fn is_own(ver: u32, r: u32, n: u32) -> bool
    ensures { result ≡ (eqb ver 0 && eqb r n) }
{
    ver == 0 && r == n
}

// Value n and its class r get the code c.
fn note(names: &mut [u32], seen: &mut [u32], n: u32, r: u32, c: u32)
    ensures { (names.new ≡ set names.old n c) × (seen.new ≡ set seen.old r c) }
{
    put(names, n as usize, c);
    put(seen, r as usize, c);
}

// A class met first as its own version 0 has the register's name, else the next local's.
fn meet(names: &mut [u32], seen: &mut [u32], n: u32, r: u32, ver: u32, next: u32) -> u32
    ensures { state names.new seen.new result ≡ met (state names.old seen.old next) n r ver }
{
    let c = get(seen, r as usize);
    if c != 0 {
        put(names, n as usize, c);
        return next;
    }
    if is_own(ver, r, n) {
        note(names, seen, n, r, 1);
        return next;
    }
    if next < LOCALS {
        note(names, seen, n, r, 2 * next + 1);
        return next + 1;
    }
    next
}

// The value v, which place p names.
pub fn name_key(
    names: &mut [u32],
    seen: &mut [u32],
    numbers: &[u32],
    roots: &[u32],
    away: &[u32],
    p: usize,
    v: Value,
    next: u32,
) -> u32
    ensures { state names.new seen.new result
        ≡ named (known numbers.now roots.now away.now) (state names.old seen.old next) (spot p (value_of v)) }
{
    if v.reg == RSP {
        return next;
    }
    let n = get(numbers, p);
    if get(names, n as usize) != 0 {
        return next;
    }
    if get(away, n as usize) != 0 {
        return next;
    }
    meet(names, seen, n, get(roots, n as usize), v.ver, next)
}
