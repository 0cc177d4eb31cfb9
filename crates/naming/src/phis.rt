// Live phis with their inputs, in order.
ghost use Rattle.std.specs.Prelude.{◌≡◌, ◌+◌, ◌-◌, ◌≤◌, ◌<◌};
ghost use Rattle.definition.specs.Edition.{phis};
ghost use Rattle.definition.specs.Lists.{gather, range};
ghost use Rattle.definition.specs.Contents.{size};
ghost use Rattle.definition.specs.Owners.{phi_inputs, first_input};
ghost use Rattle.names.specs.Spots.{known, state};
ghost use Rattle.naming.specs.Walk.{walked, phi_spots};
ghost use Rattle.naming.specs.Given.{Went, standing};

use crate::position::Walk;
use crate::runs::{input_mention, name_run};
use crate::tables::Tables;
use defined::value::{RSP, phi_value};
use names::key::name_key;
use records::contents::phi_word;
use records::owners::phi_inputs;

// Phi i and its inputs, which begin at a, where it is live and not RSP's.
fn name_phi(names: &mut [u32], seen: &mut [u32], of: &Tables<'_>, i: u32, a: u32, next: u32) -> u32
    requires { (a ≡ first_input of.now.f.now i) × (a + phi_inputs of.now.f.now i < 4294967296) }
    ensures { state names.new seen.new result
        ≡ walked (known of.now.numbers.now of.now.roots.now of.now.away.now) (state names.old seen.old next)
        (phi_spots of.now.f.now i) }
{
    let v = phi_value(of.f, i);
    if v.reg == RSP {
        return next;
    }
    if phi_word(of.f, i, 2) == 1 {
        return next;
    }
    let p = of.at.phis + i as usize;
    let next = name_key(names, seen, of.numbers, of.roots, of.away, p, v, next);
    let b = a + phi_inputs(of.f, i);
    name_run(names, seen, of, |k| input_mention(of, i, k), a, b, next)
}

// The next phis, up to b.
pub fn name_phis(names: &mut [u32], seen: &mut [u32], of: &Tables<'_>, b: u32, w: Walk) -> Walk
    requires { (w.phi ≤ b) × (b ≤ size of.now.f.now phis) × (w ≡ standing of.now.f.now w.phi w.stmt w.next) }
    ensures { Went of.now.f.now (known of.now.numbers.now of.now.roots.now of.now.away.now)
        names.old seen.old names.new seen.new w result b w.stmt
        (gather (phi_spots of.now.f.now) (range w.phi (b - w.phi))) }
{
    let mut input = w.input;
    let mut next = w.next;
    for i in w.phi..b {
        next = name_phi(names, seen, of, i, input, next);
        input += phi_inputs(of.f, i);
    }
    Walk {
        phi: b,
        stmt: w.stmt,
        input: input,
        item: w.item,
        next: next,
    }
}
