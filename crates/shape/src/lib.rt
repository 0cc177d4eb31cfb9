// Check 4: sections, owned counts, and every word in its place.
#![tactic(auto)]

ghost use Rattle.std.specs.Prelude.{true, ◌≡◌};
ghost use Rattle.definition.specs.Contents.{size};
ghost use Rattle.definition.specs.Edition.{blocks, expressions, phis, statements};
ghost use Rattle.definition.specs.Lists.{all_below};
ghost use Rattle.definition.specs.Shape.{owned, block_shaped, expr_shaped, phi_shaped, stmt_shaped, shaped, refused4};
ghost use Rattle.records.specs.Editions.{edition_of};

use fields::{block_shaped, expr_shaped, phi_shaped, stmt_shaped};
use records::contents::{BLOCKS, EXPRESSIONS, PHIS, STATEMENTS, size_of};
use records::edition::Edition;
use records::owners::items_of;
use sections::layout::{adjoin, owned};
use words::word_at;

fn blocks_shaped(f: &[u8]) -> bool
    ensures { result ≡ all_below (size f.now blocks) (block_shaped f.now) }
{
    (0..size_of(f, BLOCKS)).all(|i| block_shaped(f, i))
}

fn phis_shaped(f: &[u8]) -> bool
    ensures { result ≡ all_below (size f.now phis) (phi_shaped f.now) }
{
    (0..size_of(f, PHIS)).all(|i| phi_shaped(f, i))
}

// Every statement. `at` is where its items begin: carried along, so that each item is looked at once.
fn stmts_shaped(f: &[u8]) -> bool
    requires { owned f.now ≡ true }
    ensures { result ≡ all_below (size f.now statements) (stmt_shaped f.now) }
{
    let mut at = 0;
    for i in 0..size_of(f, STATEMENTS) {
        if !stmt_shaped(f, i, at) {
            return false;
        }
        at += items_of(f, i);
    }
    true
}

fn exprs_shaped(f: &[u8]) -> bool
    ensures { result ≡ all_below (size f.now expressions) (expr_shaped f.now) }
{
    (0..size_of(f, EXPRESSIONS)).all(|i| expr_shaped(f, i))
}

// Whether each word is in its place, in a file whose items are all owned.
#[tactic(auto, unfolding(definition::specs::Shape::shaped))]
fn shaped(f: &[u8]) -> bool
    requires { owned f.now ≡ true }
    ensures { result ≡ shaped f.now }
{
    word_at(f, 8) <= 1 && blocks_shaped(f) && phis_shaped(f) && stmts_shaped(f) && exprs_shaped(f)
}

// Check 4: sections, owned counts, or a word out of place. Each is looked at only where the one before is right, so that a file's
// counts are known to lie within it before they are counted up to.
#[tactic(auto, unfolding(definition::specs::Shape::refused4))]
pub fn refused4(e: Edition, f: &[u8]) -> bool
    ensures { result ≡ refused4 (edition_of e) f.now }
{
    !(adjoin(e, f) && owned(f) && shaped(f))
}
