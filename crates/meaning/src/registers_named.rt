// Every register that the file names is one of the sixteen.
ghost use Rattle.std.specs.Prelude.{◌≡◌, true, map, ◌++◌, ◌+◌, ◌<◌};
ghost use Rattle.definition.specs.Edition.{phis, statements, expressions};
ghost use Rattle.definition.specs.Lists.{all, all_below, gather, range};
ghost use Rattle.definition.specs.Contents.{size};
ghost use Rattle.definition.specs.Shape.{owned};
ghost use Rattle.definition.specs.Meaning.{is_register, arg_regs, phi_value, assigned, call_returns, item_values, strict, loose, use_register, registers};
ghost use Rattle.defined.specs.Defined.{item_value};
ghost use Rattle.each.specs.Rules.{named};

use defined::statement::{Statement, Statements};
use defined::value::{assigned_by, item_value, phi_value, returned_by};
use each::{defined_named, is_register, use_named};
use records::contents::{ARGS, EXPRESSIONS, PHIS, STATEMENTS, arg_at, size_of};
use records::owners::value_items;

fn args_named(f: &[u8]) -> bool
    ensures { result ≡ all is_register (arg_regs f.now) }
{
    (0..size_of(f, ARGS)).all(|i| is_register(arg_at(f, i)))
}

fn phis_named(f: &[u8]) -> bool
    ensures { result ≡ all named (map (phi_value f.now) (range 0 (size f.now phis))) }
{
    (0..size_of(f, PHIS)).all(|i| is_register(phi_value(f, i).reg))
}

fn assigns_named(f: &[u8]) -> bool
    ensures { result ≡ all named (gather (assigned f.now) (range 0 (size f.now statements))) }
{
    (0..size_of(f, STATEMENTS)).all(|i| defined_named(assigned_by(f, i)))
}

fn uses_named(f: &[u8]) -> bool
    ensures { result ≡ all_below (size f.now expressions) (use_register f.now) }
{
    (0..size_of(f, EXPRESSIONS)).all(|i| use_named(f, i))
}

fn strict_named(f: &[u8]) -> bool
    ensures { result ≡ all named (strict f.now) }
{
    phis_named(f) && assigns_named(f)
}

// The n items from place `from` on.
fn items_named(f: &[u8], from: u32, n: u32) -> bool
    requires { from + n < 4294967296 }
    ensures { result ≡ all_below n (λ k. named (item_value f.now (from + k))) }
{
    (0..n).all(|k| is_register(item_value(f, from + k).reg))
}

// What a Call or an Other defines.
fn loose_named_at(s: Statement) -> bool
    ensures { result ≡ all named (call_returns s.entry.f.now s.entry.i ++ item_values s.entry.f.now s.entry.i) }
{
    defined_named(returned_by(s.f, s.i)) && items_named(s.f, s.first_value(), value_items(s.f, s.i))
}

fn loose_named(f: &[u8]) -> bool
    requires { owned f.now ≡ true }
    ensures { result ≡ all named (loose f.now) }
{
    Statements::of(f).all(|s| loose_named_at(s))
}

pub fn registers_named(f: &[u8]) -> bool
    requires { owned f.now ≡ true }
    ensures { result ≡ registers f.now }
{
    args_named(f) && strict_named(f) && loose_named(f) && uses_named(f)
}
