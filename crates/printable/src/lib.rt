// Check 5, texts: each lies inside the text, names and operators are not empty, and every byte of the text is printable.
#![tactic(auto)]

ghost use Rattle.std.specs.Prelude.{◌≡◌, not, ◌&&◌, eqb};
ghost use Rattle.definition.specs.Words.{part};
ghost use Rattle.definition.specs.Contents.{size, text, text_at};
ghost use Rattle.definition.specs.Edition.{expressions, names, statements};
ghost use Rattle.definition.specs.Lists.{all, all_below};
ghost use Rattle.definition.specs.References.{expr_text, in_text, name_sound, printable, stmt_text};
ghost use Rattle.records.specs.Editions.{edition_of};
ghost use Rattle.printable.specs.Texts.{texts_sound};

use records::contents::{EXPRESSIONS, NAMES, STATEMENTS, expr_word, name_word, offset_of, size_of};
use records::edition::Edition;
use records::kinds::{Kind, Tag, kind_at, tag_at};
use records::owners::stmt_field;

// Whether n bytes from `start` on lie inside the text. The sum is of whole numbers.
#[tactic(auto, unfolding(definition::specs::References::in_text))]
fn in_text(e: Edition, f: &[u8], start: u32, n: u32) -> bool
    ensures { result ≡ in_text (edition_of e) f.now start n }
{
    u64::from(start) + u64::from(n) <= u64::from(size_of(f, e.text()))
}

// The same of a text that may not be empty: a name, an operator.
fn in_text_filled(e: Edition, f: &[u8], start: u32, n: u32) -> bool
    ensures { result ≡ (in_text (edition_of e) f.now start n && not (eqb n 0)) }
{
    in_text(e, f, start, n) && n != 0
}

#[tactic(auto, unfolding(definition::specs::References::printable))]
fn is_printable(b: u8) -> bool
    ensures { result ≡ printable b }
{
    (32..=126).contains(&b)
}

// Whether n bytes from `start` on are printable, as far as the file has them.
fn part_printable(f: &[u8], start: usize, n: usize) -> bool
    ensures { result ≡ all printable (part f.now start n) }
{
    f.iter().skip(start).take(n).all(|b| is_printable(*b))
}

fn text_printable(e: Edition, f: &[u8]) -> bool
    ensures { result ≡ all printable (text_at (edition_of e) f.now 0 (size f.now (text (edition_of e)))) }
{
    let s = e.text();
    part_printable(f, offset_of(f, s) as usize, size_of(f, s) as usize)
}

#[tactic(auto, unfolding(definition::specs::References::name_sound))]
fn name_inside(e: Edition, f: &[u8], i: u32) -> bool
    ensures { result ≡ name_sound (edition_of e) f.now i }
{
    in_text_filled(e, f, name_word(f, i, 2), name_word(f, i, 3))
}

// A Call's target, a Branch's condition, an Other's text.
#[tactic(auto, unfolding(definition::specs::References::stmt_text, records::specs::Kinds::kind_of))]
fn stmt_inside(e: Edition, f: &[u8], i: u32) -> bool
    ensures { result ≡ stmt_text (edition_of e) f.now i }
{
    match kind_at(f, i) {
        Some(Kind::Call | Kind::Other) => in_text(e, f, stmt_field(f, i, 0), stmt_field(f, i, 1)),
        Some(Kind::Branch) => in_text(e, f, stmt_field(f, i, 1), stmt_field(f, i, 2)),
        _ => true,
    }
}

// An operator, an Opaque's text.
#[tactic(auto, unfolding(definition::specs::References::expr_text, records::specs::Kinds::tag_of))]
fn expr_inside(e: Edition, f: &[u8], i: u32) -> bool
    ensures { result ≡ expr_text (edition_of e) f.now i }
{
    match tag_at(f, i) {
        Some(Tag::Bin | Tag::Un) => in_text_filled(e, f, expr_word(f, i, 1), expr_word(f, i, 2)),
        Some(Tag::Opaque) => in_text(e, f, expr_word(f, i, 1), expr_word(f, i, 2)),
        _ => true,
    }
}

fn names_inside(e: Edition, f: &[u8]) -> bool
    ensures { result ≡ all_below (size f.now names) (name_sound (edition_of e) f.now) }
{
    (0..size_of(f, NAMES)).all(|i| name_inside(e, f, i))
}

fn stmts_inside(e: Edition, f: &[u8]) -> bool
    ensures { result ≡ all_below (size f.now statements) (stmt_text (edition_of e) f.now) }
{
    (0..size_of(f, STATEMENTS)).all(|i| stmt_inside(e, f, i))
}

fn exprs_inside(e: Edition, f: &[u8]) -> bool
    ensures { result ≡ all_below (size f.now expressions) (expr_text (edition_of e) f.now) }
{
    (0..size_of(f, EXPRESSIONS)).all(|i| expr_inside(e, f, i))
}

#[tactic(auto, unfolding(crate::specs::Texts::texts_sound))]
pub fn texts_sound(e: Edition, f: &[u8]) -> bool
    ensures { result ≡ texts_sound (edition_of e) f.now }
{
    text_printable(e, f) && names_inside(e, f) && stmts_inside(e, f) && exprs_inside(e, f)
}
