// Check 7: a sum of a value whose offset is known with a constant that is outside.
ghost use Rattle.std.specs.Prelude.{◌≡◌, List, ◌+◌, ◌<◌, length};
ghost use Rattle.definition.specs.Edition.{Edition};
ghost use Rattle.definition.specs.Contents.{text};
ghost use Rattle.definition.specs.Read.{all_trees};
ghost use Rattle.definition.specs.Offsets.{Known, look, refused7};
ghost use Rattle.values.specs.Tables.{table};
ghost use Rattle.sums.specs.Address.{value_at, outside_at};

use crate::numbered::Numbered;
use crate::reading::{const_at, op_byte, sum_at, used_at};
use crate::sums::is_sign;
use records::contents::{EXPRESSIONS, expr_word, size_of};
use records::owners::BIN;

#[tactic(auto, using(crate::proofs::Nodes::const_lower), unfolding(crate::specs::Address::outside_at))]
fn sum_outside(tab: &[u64], f: &[u8], t: u32, numbers: &[u32], exprs: usize, n: u32) -> bool
    requires { exprs + n < length numbers.now }
    ensures { result ≡ outside_at (value_at tab.now numbers.now exprs) f.now t n }
{
    expr_word(f, n, 0) == BIN
        && is_sign(op_byte(f, t, n))
        && const_at(f, n)
        && used_at(tab, f, numbers, exprs, expr_word(f, n, 3)) != 0
        && sum_at(tab, f, t, numbers, exprs, n) == 0
}

// Whether some expression of the file is such a sum.
pub fn refused7(tab: &[u64], of: &Numbered<'_>) -> bool
    ensures { (E : Edition) (k : List Known) → text E ≡ of.now.t → tab.now ≡ table of.now.f.now (length of.now.numbers.now) (look k)
        → result ≡ refused7 k (all_trees E of.now.f.now) }
{
    let n = size_of(of.f, EXPRESSIONS);
    for i in 0..n {
        if sum_outside(tab, of.f, of.t, of.numbers, of.places.exprs, i) {
            return true;
        }
    }
    false
}
