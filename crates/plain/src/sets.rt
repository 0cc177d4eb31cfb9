// Which variables an Other sets that somebody reads.
ghost use Rattle.std.specs.Prelude.{◌≡◌, ◌+◌, ◌-◌, ◌<◌};
ghost use Rattle.definition.specs.Edition.{statements};
ghost use Rattle.definition.specs.Contents.{size};
ghost use Rattle.definition.specs.Owners.{expr_items, value_items, first_item};
ghost use Rattle.places.specs.Keys.{places_of};
ghost use Rattle.sums.specs.Ground.{Ground};
ghost use Rattle.plain.specs.declared.sets.Sets.TheVariants.{Nothing};
ghost use Rattle.plain.specs.Asm.{with_name, tables, code_at, sets_from};

use crate::parts::number_of;
use defined::value::RSP;
use places::Places;
use reads::is_read;
use records::contents::item_word;
use records::owners::{expr_items, value_items};
use slices::get;

// A variable, by its register and the code of its name.
#[derive(Clone, Copy)]
pub struct Named {
    pub reg: u32,
    pub code: u32,
}

#[derive(Clone, Copy)]
pub enum Sets {
    Nothing,
    One(Named),
    More,
}

// One more, unless it has no name.
#[tactic(auto, unfolding(crate::specs::Asm::with_name, crate::specs::Asm::with_one))]
fn with_name(s: Sets, reg: u32, code: u32) -> Sets
    ensures { result ≡ with_name s reg code }
{
    if code == 0 {
        return s;
    }
    match s {
        Sets::Nothing => Sets::One(Named { reg, code }),
        Sets::One(_) | Sets::More => Sets::More,
    }
}

// The code of the value at place k of the lists, whose places begin at `base`: 0 where it is RSP's or nobody reads it.
#[tactic(auto, unfolding(crate::specs::Asm::code_at))]
fn code_at(
    f: &[u8],
    numbers: &[u32],
    names: &[u32],
    live: &[u32],
    phi: &[u32],
    base: usize,
    k: u32,
) -> u32
    requires { base < 34359738368 }
    ensures { result ≡ code_at f.now (tables numbers.now names.now live.now phi.now) base k }
{
    if item_word(f, k, 0) == RSP {
        return 0;
    }
    let m = number_of(numbers, base, k);
    if is_read(live, phi, m) {
        get(names, m)
    } else {
        0
    }
}

// Of the values from place `from` on and before place `to`.
fn sets_from(
    f: &[u8],
    numbers: &[u32],
    names: &[u32],
    live: &[u32],
    phi: &[u32],
    base: usize,
    from: u32,
    to: u32,
) -> Sets
    requires { base < 34359738368 }
    ensures { result ≡ sets_from f.now (tables numbers.now names.now live.now phi.now) base from (to - from) Nothing }
{
    let mut s = Sets::Nothing;
    for k in from..to {
        let code = code_at(f, numbers, names, live, phi, base, k);
        s = with_name(s, item_word(f, k, 0), code);
    }
    s
}

// Of the values that statement i defines, its list items beginning at `first`.
pub fn sets_of(
    f: &[u8],
    places: Places,
    numbers: &[u32],
    names: &[u32],
    live: &[u32],
    phi: &[u32],
    i: u32,
    first: u32,
) -> Sets
    requires ground { Ground f.now numbers.now places }
    requires i_bound { (i < size f.now statements) × (first ≡ first_item f.now i) }
    ensures { result ≡ sets_from f.now (tables numbers.now names.now live.now phi.now) (places_of f.now).items
        (first_item f.now i + expr_items f.now i) (value_items f.now i) Nothing }
{
    let from = first + expr_items(f, i);
    let to = from + value_items(f, i);
    sets_from(f, numbers, names, live, phi, places.items, from, to)
}
