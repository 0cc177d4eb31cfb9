// No argument and no block start stands twice, none of the arguments is RSP, and the names rise.
ghost use Rattle.std.specs.Prelude.{◌≡◌, not};
ghost use Rattle.definition.specs.Lists.{among, distinct};
ghost use Rattle.definition.specs.Values.{RSP};
ghost use Rattle.definition.specs.Meaning.{arg_regs, starts, rising};
ghost use Rattle.meaning.specs.Keys.{IsNew, AreDistinct};

use defined::value::RSP;
use records::contents::{ARGS, BLOCKS, NAMES, arg_at, block_long, name_long, size_of};

// Key i is none of those before it.
fn key_new<F: Fn(u32) -> u64>(i: u32, key: &F) -> bool
    requires { F.IsAlwaysCallable key.now }
    ensures { IsNew (F.post key.now) i result }
{
    let x = key(i);
    (0..i).all(|j| x != key(j))
}

// None of n keys stands twice, whatever numbers the keys are.
fn keys_distinct<F: Fn(u32) -> u64>(n: u32, key: F) -> bool
    requires { F.IsAlwaysCallable key }
    ensures { AreDistinct (F.post key) n result }
{
    (0..n).all(|i| key_new(i, &key))
}

pub fn args_distinct(f: &[u8]) -> bool
    ensures { result ≡ distinct (arg_regs f.now) }
{
    keys_distinct(size_of(f, ARGS), |i| arg_at(f, i) as u64)
}

pub fn starts_distinct(f: &[u8]) -> bool
    ensures { result ≡ distinct (starts f.now) }
{
    keys_distinct(size_of(f, BLOCKS), |i| block_long(f, i, 0))
}

pub fn args_spare_rsp(f: &[u8]) -> bool
    ensures { result ≡ not (among RSP (arg_regs f.now)) }
{
    (0..size_of(f, ARGS)).all(|i| arg_at(f, i) != RSP)
}

// Each name's address is below that of the next.
pub fn names_rise(f: &[u8]) -> bool
    ensures { result ≡ rising f.now }
{
    let steps = size_of(f, NAMES).saturating_sub(1);
    (0..steps).all(|i| name_long(f, i, 0) < name_long(f, i + 1, 0))
}
