// Whether each expression holds a Load, from the lowest up: children stand below their parents, so that one loop is enough.
ghost use Rattle.std.specs.Prelude.{◌≡◌, ◌≤◌, length, replicate};
ghost use Rattle.definition.specs.Edition.{expressions};
ghost use Rattle.definition.specs.Contents.{size};
ghost use Rattle.uses.specs.Loads.{load_of, Loads};

use records::contents::{EXPRESSIONS, expr_word, size_of};
use records::owners::{BIN, LOAD, UN};
use slices::get;

// Of expression i, where the table has the answers for those below it and zeros behind.
fn load_of(loads: &[u32], f: &[u8], i: u32) -> u32
    ensures { result ≡ load_of f.now loads.now i }
{
    let t = expr_word(f, i, 0);
    if t == LOAD {
        return 1;
    }
    if t == UN {
        return get(loads, expr_word(f, i, 3) as usize);
    }
    if t != BIN {
        return 0;
    }
    if get(loads, expr_word(f, i, 3) as usize) == 1 {
        return 1;
    }
    get(loads, expr_word(f, i, 4) as usize)
}

pub fn loads(loads: &mut [u32], f: &[u8])
    requires { (loads.old ≡ replicate (length loads.old) 0) × (size f.now expressions ≤ length loads.old) }
    ensures { Loads f.now (length loads.old) loads.new }
{
    let n = size_of(f, EXPRESSIONS);
    for i in 0..n {
        let x = load_of(loads, f, i);
        loads[i as usize] = x;
    }
}
