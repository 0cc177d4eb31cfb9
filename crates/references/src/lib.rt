// Check 5: texts are sound, children are lower than their parents, and every expression has one owner.
#![tactic(auto)]

ghost use Rattle.std.specs.Prelude.{◌≡◌, true, ◌+◌, ◌≤◌, ◌<◌, length};
ghost use Rattle.definition.specs.Edition.{statements, expressions};
ghost use Rattle.definition.specs.Contents.{size};
ghost use Rattle.definition.specs.Lists.{all_below};
ghost use Rattle.definition.specs.Owners.{expr_items, first_item};
ghost use Rattle.definition.specs.Shape.{owned};
ghost use Rattle.definition.specs.References.{children_lower, roots_inside, refused5};
ghost use Rattle.records.specs.Editions.{edition_of};
ghost use Rattle.owned.specs.Tally.{Answered};

use mentions::{child_at, child_count, root_at, root_count};
use owned::owned_once;
use printable::texts_sound;
use records::contents::{EXPRESSIONS, STATEMENTS, size_of};
use records::edition::Edition;
use records::owners::items_of;

fn children_lower(f: &[u8], i: u32) -> bool
    ensures { result ≡ children_lower f.now i }
{
    (0..child_count(f, i)).all(|k| child_at(f, i, k) < i)
}

// Whether the expressions that statement i names are there; its list items begin at `first`.
fn roots_inside(f: &[u8], i: u32, first: u32) -> bool
    requires first_value { first ≡ first_item f.now i }
    requires i_bound { first + expr_items f.now i ≤ 4294967296 }
    ensures { result ≡ roots_inside f.now i }
{
    let expressions = size_of(f, EXPRESSIONS);
    (0..root_count(f, i)).all(|k| root_at(f, i, first, k) < expressions)
}

fn all_children_lower(f: &[u8]) -> bool
    ensures { result ≡ all_below (size f.now expressions) (children_lower f.now) }
{
    (0..size_of(f, EXPRESSIONS)).all(|i| children_lower(f, i))
}

// The first item of each statement is carried along, so that no sum is made twice.
fn all_roots_inside(f: &[u8]) -> bool
    requires { first_item f.now (size f.now statements) < 4294967296 }
    ensures { result ≡ all_below (size f.now statements) (roots_inside f.now) }
{
    let mut first: u32 = 0;
    for i in 0..size_of(f, STATEMENTS) {
        if !roots_inside(f, i, first) {
            return false;
        }
        first += items_of(f, i) as u32;
    }
    true
}

// The caller has seen that what is owned comes out exactly, so that the list items' numbers are small.
pub fn refused5(e: Edition, f: &[u8], owners: &mut [u32]) -> bool
    requires f_value { owned f.now ≡ true }
    requires expressions_in_bounds { size f.now expressions ≤ length owners.old }
    ensures { Answered (refused5 (edition_of e) f.now) result owners.old owners.new }
{
    let once = owned_once(owners, f);
    !(texts_sound(e, f) && all_children_lower(f) && all_roots_inside(f) && once)
}
