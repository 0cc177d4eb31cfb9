// The offset of an address expression: of a value, or of a value plus or minus a constant.
ghost use Rattle.std.specs.Prelude.{◌≡◌, List, ◌+◌, ◌<◌, length};
ghost use Rattle.definition.specs.Edition.{Edition};
ghost use Rattle.definition.specs.Contents.{text};
ghost use Rattle.definition.specs.Read.{tree_at, all_trees};
ghost use Rattle.definition.specs.Offsets.{Known, look, stack_off};
ghost use Rattle.values.specs.Tables.{table};
ghost use Rattle.sums.specs.Address.{value_at, address_at};

use crate::numbered::Numbered;
use crate::reading::{sum_at, value_at};
use records::contents::{EXPRESSIONS, expr_word, size_of};
use records::owners::{BIN, USE};

// Of an expression of the file, whose place is inside.
fn address_at(tab: &[u64], f: &[u8], t: u32, numbers: &[u32], exprs: usize, n: u32) -> u64
    requires { exprs + n < length numbers.now }
    ensures { result ≡ address_at (value_at tab.now numbers.now exprs) f.now t n }
{
    let g = expr_word(f, n, 0);
    if g == USE {
        return value_at(tab, numbers, exprs, n);
    }
    if g == BIN {
        return sum_at(tab, f, t, numbers, exprs, n);
    }
    0
}

// The offset of expression n, 0 where none is known.
pub fn stack_off(tab: &[u64], of: &Numbered<'_>, n: u32) -> u64
    ensures { (E : Edition) (k : List Known) → text E ≡ of.now.t → tab.now ≡ table of.now.f.now (length of.now.numbers.now) (look k)
        → result ≡ stack_off k (tree_at (all_trees E of.now.f.now) n) }
{
    if n < size_of(of.f, EXPRESSIONS) {
        return address_at(tab, of.f, of.t, of.numbers, of.places.exprs, n);
    }
    0
}
