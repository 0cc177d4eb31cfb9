// How sections follow each other, and how owners take their parts.
ghost use Rattle.std.specs.Prelude.{◌≡◌, ◌+◌, ◌<◌, eqb, SomeIff};
ghost use Rattle.definition.specs.Contents.{contents, size};
ghost use Rattle.definition.specs.Edition.{blocks, inputs, lists, phis, statements};
ghost use Rattle.definition.specs.Owners.{first_input, first_item, first_phi, first_stmt};
ghost use Rattle.definition.specs.Shape.{adjoin, owned};
ghost use Rattle.records.specs.Editions.{edition_of};
ghost use Rattle.sections.specs.Layout.{bytes_in, AddsUp};

use records::contents::{BLOCKS, INPUTS, LISTS, PHIS, STATEMENTS, offset_of, size_of};
use records::edition::Edition;
use records::owners::{block_phis, block_stmts, items_of, phi_inputs};

// The bytes of n records of w words, or of n bytes where w is 0; none where they leave 64 bits.
#[tactic(auto, unfolding(crate::specs::Layout::bytes_in))]
fn bytes_of(w: u32, n: u32) -> Option<u64>
    ensures { SomeIff result (bytes_in w n < 18446744073709551616) (bytes_in w n) }
{
    if w == 0 {
        Some(u64::from(n))
    } else {
        (u64::from(w) * u64::from(n)).checked_mul(4)
    }
}

// Where they end, if they begin at byte `at`.
fn end_of(at: u64, w: u32, n: u32) -> Option<u64>
    ensures { SomeIff result (at + bytes_in w n < 18446744073709551616) (at + bytes_in w n) }
{
    let bytes = bytes_of(w, n)?;
    at.checked_add(bytes)
}

// Whether the sections follow each other behind the contents, and end with the file.
pub fn adjoin(e: Edition, f: &[u8]) -> bool
    ensures { result ≡ adjoin f.now (contents (edition_of e)) 0 (edition_of e).sections }
{
    let mut at = e.contents();
    for s in 0..e.sections {
        if u64::from(offset_of(f, s)) != at {
            return false;
        }
        let Some(end) = end_of(at, e.words_at(s), size_of(f, s)) else {
            return false;
        };
        at = end;
    }
    at == f.len() as u64
}

// Whether n owners take `whole` parts in all, the i-th as many as `part` says. It ends where the whole is passed.
fn add_up<F: Fn(u32) -> u64>(n: u32, whole: u32, part: F) -> bool
    requires { F.IsAlwaysCallable part }
    ensures { AddsUp (F.post part) n whole result }
{
    let mut left = u64::from(whole);
    for i in 0..n {
        let Some(rest) = left.checked_sub(part(i)) else {
            return false;
        };
        left = rest;
    }
    left == 0
}

// Whether the blocks' phis are those of the file, and so on: what owners take comes out exactly.
fn phis_owned(f: &[u8]) -> bool
    ensures { result ≡ eqb (first_phi f.now (size f.now blocks)) (size f.now phis) }
{
    add_up(
        size_of(f, BLOCKS),
        size_of(f, PHIS),
        |i| u64::from(block_phis(f, i)),
    )
}

fn stmts_owned(f: &[u8]) -> bool
    ensures { result ≡ eqb (first_stmt f.now (size f.now blocks)) (size f.now statements) }
{
    add_up(
        size_of(f, BLOCKS),
        size_of(f, STATEMENTS),
        |i| u64::from(block_stmts(f, i)),
    )
}

fn inputs_owned(f: &[u8]) -> bool
    ensures { result ≡ eqb (first_input f.now (size f.now phis)) (size f.now inputs) }
{
    add_up(
        size_of(f, PHIS),
        size_of(f, INPUTS),
        |i| u64::from(phi_inputs(f, i)),
    )
}

fn items_owned(f: &[u8]) -> bool
    ensures { result ≡ eqb (first_item f.now (size f.now statements)) (size f.now lists) }
{
    add_up(
        size_of(f, STATEMENTS),
        size_of(f, LISTS),
        |i| items_of(f, i),
    )
}

#[tactic(auto, unfolding(definition::specs::Shape::owned))]
pub fn owned(f: &[u8]) -> bool
    ensures { result ≡ owned f.now }
{
    phis_owned(f) && stmts_owned(f) && inputs_owned(f) && items_owned(f)
}
