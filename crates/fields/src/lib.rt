// Each word of a record in its place, by the record's kind.
#![tactic(auto)]

ghost use Rattle.std.specs.Prelude.{◌≡◌};
ghost use Rattle.definition.specs.Codes.{k_call, k_branch, k_return, k_other};
ghost use Rattle.definition.specs.Owners.{stmt_kind, stmt_field};
ghost use Rattle.definition.specs.Shape.{absent, block_shaped, phi_shaped};
ghost use Rattle.definition.specs.Shape.{fields_shaped, items_shaped, stmt_shaped, expr_shaped};
ghost use Rattle.fields.specs.Fields.{optional, blank_tail, headed, Cut};

use records::contents::{block_word, expr_word, item_word, phi_word, stmt_word};
use records::kinds::{Kind, Tag, kind_at, tag_at};
use records::owners::{expr_items, stmt_field};

// A field that is 0 where the word before it says that nothing is there.
fn absent(there: u32, w: u32) -> bool
    ensures { result ≡ absent there w }
{
    there != 0 || w == 0
}

// A 0/1 word, and two fields that it speaks of.
#[tactic(auto, unfolding(crate::specs::Fields::optional))]
fn optional(there: u32, v: u32, w: u32) -> bool
    ensures { result ≡ optional there v w }
{
    there <= 1 && absent(there, v) && absent(there, w)
}

// A block's taken and fall.
#[tactic(auto, unfolding(definition::specs::Shape::block_shaped, crate::specs::Fields::optional))]
pub fn block_shaped(f: &[u8], i: u32) -> bool
    ensures { result ≡ block_shaped f.now i }
{
    optional(
        block_word(f, i, 2),
        block_word(f, i, 3),
        block_word(f, i, 4),
    ) && optional(
        block_word(f, i, 5),
        block_word(f, i, 6),
        block_word(f, i, 7),
    )
}

// A phi's dead.
#[tactic(auto, unfolding(definition::specs::Shape::phi_shaped))]
pub fn phi_shaped(f: &[u8], i: u32) -> bool
    ensures { result ≡ phi_shaped f.now i }
{
    phi_word(f, i, 2) <= 1
}

// The last four fields of a statement are 0.
#[tactic(auto, unfolding(crate::specs::Fields::blank_tail))]
fn blank_tail(f: &[u8], i: u32) -> bool
    ensures { result ≡ blank_tail (stmt_field f.now i) }
{
    stmt_field(f, i, 3) == 0
        && stmt_field(f, i, 4) == 0
        && stmt_field(f, i, 5) == 0
        && stmt_field(f, i, 6) == 0
}

// The first field is at most a number, and the last four are 0.
#[tactic(auto, unfolding(crate::specs::Fields::headed, crate::specs::Fields::blank_tail))]
fn headed(f: &[u8], i: u32, most: u32) -> bool
    ensures { result ≡ headed most (stmt_field f.now i) }
{
    stmt_field(f, i, 0) <= most && blank_tail(f, i)
}

// The seven fields of a statement of each kind.
#[tactic(auto, unfolding(definition::specs::Shape::fields_shaped, crate::specs::Fields::optional))]
fn call_shaped(f: &[u8], i: u32) -> bool
    ensures { result ≡ fields_shaped k_call (stmt_field f.now i) }
{
    optional(
        stmt_field(f, i, 3),
        stmt_field(f, i, 4),
        stmt_field(f, i, 5),
    )
}

#[tactic(auto, unfolding(definition::specs::Shape::fields_shaped, crate::specs::Fields::optional))]
fn branch_shaped(f: &[u8], i: u32) -> bool
    ensures { result ≡ fields_shaped k_branch (stmt_field f.now i) }
{
    optional(
        stmt_field(f, i, 0),
        stmt_field(f, i, 1),
        stmt_field(f, i, 2),
    ) && optional(
        stmt_field(f, i, 3),
        stmt_field(f, i, 4),
        stmt_field(f, i, 5),
    )
}

#[tactic(auto, unfolding(definition::specs::Shape::fields_shaped, crate::specs::Fields::blank_tail))]
fn return_shaped(f: &[u8], i: u32) -> bool
    ensures { result ≡ fields_shaped k_return (stmt_field f.now i) }
{
    let there = stmt_field(f, i, 0);
    there <= 1 && absent(there, stmt_field(f, i, 1)) && stmt_field(f, i, 2) == 0 && blank_tail(f, i)
}

#[tactic(auto, unfolding(definition::specs::Shape::fields_shaped))]
fn other_shaped(f: &[u8], i: u32) -> bool
    ensures { result ≡ fields_shaped k_other (stmt_field f.now i) }
{
    stmt_field(f, i, 4) == 0 && stmt_field(f, i, 5) == 0 && stmt_field(f, i, 6) == 0
}

// By its kind; no other kind is right.
#[tactic(auto, unfolding(definition::specs::Shape::fields_shaped, crate::specs::Fields::blank_tail, crate::specs::Fields::headed, records::specs::Kinds::kind_of))]
fn fields_shaped(f: &[u8], i: u32) -> bool
    ensures { result ≡ fields_shaped (stmt_kind f.now i) (stmt_field f.now i) }
{
    match kind_at(f, i) {
        Some(Kind::Assign) => blank_tail(f, i),
        Some(Kind::Store) => headed(f, i, 255),
        Some(Kind::Call) => call_shaped(f, i),
        Some(Kind::Branch) => branch_shaped(f, i),
        Some(Kind::Flags) => headed(f, i, 1),
        Some(Kind::Return) => return_shaped(f, i),
        Some(Kind::Other) => other_shaped(f, i),
        None => false,
    }
}

// Whether each item of statement i that is an expression has 0 behind it. Its items begin at `at`, which the caller carries along.
fn items_shaped(f: &[u8], i: u32, at: u64) -> bool
    requires { Cut f.now i at }
    ensures { result ≡ items_shaped f.now i }
{
    let first = at as u32;
    (first..first + expr_items(f, i)).all(|k| item_word(f, k, 1) == 0)
}

// A statement's marks, its fields and its items.
#[tactic(auto, unfolding(definition::specs::Shape::stmt_shaped))]
pub fn stmt_shaped(f: &[u8], i: u32, at: u64) -> bool
    requires { Cut f.now i at }
    ensures { result ≡ stmt_shaped f.now i }
{
    stmt_word(f, i, 2) <= 7 && fields_shaped(f, i) && items_shaped(f, i, at)
}

// The fields of an expression by its tag: its first, and its last two.
#[tactic(auto, unfolding(definition::specs::Shape::expr_shaped, records::specs::Kinds::tag_of))]
pub fn expr_shaped(f: &[u8], i: u32) -> bool
    ensures { result ≡ expr_shaped f.now i }
{
    let c = expr_word(f, i, 3);
    let d = expr_word(f, i, 4);
    match tag_at(f, i) {
        Some(Tag::Bin) => true,
        Some(Tag::Un) => d == 0,
        Some(Tag::Load) => expr_word(f, i, 1) <= 255 && c == 0 && d == 0,
        Some(Tag::Const | Tag::Use | Tag::Opaque) => c == 0 && d == 0,
        None => false,
    }
}
