// Runs of places that name values, one behind the other.
ghost use Rattle.std.specs.Prelude.{◌≡◌, ℕ, map, ◌-◌};
ghost use Rattle.definition.specs.Lists.{range, at as node_at};
ghost use Rattle.defined.specs.Defined.{value_of};
ghost use Rattle.names.specs.Spots.{Spot, spot, known, state, use_spot};
ghost use Rattle.naming.specs.Walk.{walked, input_spot, item_spot};

use crate::tables::Tables;
use defined::value::{Value, item_value};
use names::key::name_key;
use records::contents::{expr_word, input_at, phi_word};
use slices::get;

// A value that is mentioned, and the place that names it.
#[derive(Clone, Copy)]
pub struct Mention {
    pub place: usize,
    pub value: Value,
}

// Input k, of phi i.
pub fn input_mention(of: &Tables<'_>, i: u32, k: u32) -> Mention
    ensures { spot result.place (value_of result.value) ≡ input_spot of.now.f.now i k }
{
    Mention {
        place: of.at.inputs + k as usize,
        value: Value {
            reg: phi_word(of.f, i, 0),
            ver: input_at(of.f, k),
        },
    }
}

// List item k, which is a value.
pub fn item_mention(of: &Tables<'_>, k: u32) -> Mention
    ensures { spot result.place (value_of result.value) ≡ item_spot of.now.f.now k }
{
    Mention {
        place: of.at.items + k as usize,
        value: item_value(of.f, k),
    }
}

// The node that `order` has at k.
pub fn use_mention(of: &Tables<'_>, k: u32) -> Mention
    ensures { spot result.place (value_of result.value) ≡ use_spot of.now.f.now (node_at of.now.order.now k) }
{
    let n = get(of.order, k as usize);
    Mention {
        place: of.at.exprs + n as usize,
        value: Value {
            reg: expr_word(of.f, n, 1),
            ver: expr_word(of.f, n, 2),
        },
    }
}

// The values of a run, from a up to b.
pub fn name_run<F: Fn(u32) -> Mention>(
    names: &mut [u32],
    seen: &mut [u32],
    of: &Tables<'_>,
    mention: F,
    a: u32,
    b: u32,
    next: u32,
) -> u32
    requires { F.IsAlwaysCallable mention }
    ensures { (g : ℕ → Spot) → ((k : ℕ) (m : _) → F.post mention k m → spot m.place (value_of m.value) ≡ g k)
        → state names.new seen.new result
        ≡ walked (known of.now.numbers.now of.now.roots.now of.now.away.now) (state names.old seen.old next) (map g (range a (b - a))) }
{
    let mut next = next;
    for k in a..b {
        let m = mention(k);
        next = name_key(
            names, seen, of.numbers, of.roots, of.away, m.place, m.value, next,
        );
    }
    next
}
