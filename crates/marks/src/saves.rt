// The prologue's saves of callee-saved registers' entry values to their stack slots.
ghost use Rattle.std.specs.Prelude.{◌≡◌, List, length};
ghost use Rattle.definition.specs.Edition.{Edition};
ghost use Rattle.definition.specs.Contents.{text};
ghost use Rattle.definition.specs.Read.{kind_at, all_trees};
ghost use Rattle.definition.specs.Offsets.{Known, look};
ghost use Rattle.definition.specs.Blocks.{is_save};
ghost use Rattle.values.specs.Tables.{table};
ghost use Rattle.marks.specs.Reading.{saved_at};

use records::contents::{EXPRESSIONS, expr_word, size_of};
use records::owners::{STORE, USE, stmt_field, stmt_kind};
use sums::address::stack_off;
use sums::numbered::Numbered;
use text::registers::Register;

// Whether expression n is a callee-saved register's entry value.
#[tactic(auto, unfolding(crate::specs::Reading::saved_at, crate::specs::Reading::saved_use))]
fn is_saved(f: &[u8], n: u32) -> bool
    ensures { result ≡ saved_at f.now n }
{
    let x = Register {
        number: expr_word(f, n, 1),
    };
    n < size_of(f, EXPRESSIONS)
        && expr_word(f, n, 0) == USE
        && expr_word(f, n, 2) == 0
        && x.callee_saved()
}

// Whether statement i is a save.
pub fn is_save(offs: &[u64], of: &Numbered<'_>, i: u32) -> bool
    ensures { (E : Edition) (k : List Known) → text E ≡ of.now.t → offs.now ≡ table of.now.f.now (length of.now.numbers.now) (look k)
        → result ≡ is_save k (kind_at E of.now.f.now (all_trees E of.now.f.now) i) }
{
    if stmt_kind(of.f, i) != STORE {
        return false;
    }
    if is_saved(of.f, stmt_field(of.f, i, 2)) {
        return stack_off(offs, of, stmt_field(of.f, i, 1)) != 0;
    }
    false
}
