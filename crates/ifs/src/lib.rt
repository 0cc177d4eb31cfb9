// `structure_ifs` on rows.
#![tactic(auto)]

ghost use Rattle.std.specs.Prelude.{◌≡◌, ◌+◌, ◌-◌, ◌<◌, length};
ghost use Rattle.passes.specs.Regions.{found, label_from, if_goal, formed_if};
ghost use Rattle.passes.specs.Sweeps.{tried, if_tried, swept, if_rows};

use outline::forming::{deep_in, insert_row, raise, turn};
use outline::rows::{COND, Seen, indent_of, judge, kind_of, name_of};
use outline::spans::{note, reached};
use passes::sweeps::{Formed, TooDeep};
use slices::get;

// The row of the label m at depth d - 1, from row i up to n.
fn find_label(rows: &[u64], n: usize, i: usize, m: u64, d: u64) -> Option<usize>
    ensures { result ≡ found n (label_from n m d rows.now i (n - i)) }
{
    for j in i..n {
        match judge(get(rows, j), m, d) {
            Seen::Pass => {}
            Seen::Hit => return Some(j),
            Seen::End => return None,
        }
    }
    None
}

// The label's row of the if at row k, where a region is formed.
#[tactic(auto, unfolding(passes::specs::Regions::if_goal, passes::specs::Regions::if_goal_at, passes::specs::Regions::found, outline::specs::Tests::is_kind))]
fn if_goal(rows: &[u64], spans: &[u64], n: usize, k: usize) -> Option<usize>
    requires { k < n }
    ensures { result ≡ found n (if_goal rows.now spans.now n k) }
{
    let w = get(rows, k);
    if kind_of(w) != COND {
        return None;
    }
    let j = find_label(rows, n, k + 1, name_of(w), indent_of(w))?;
    if j == k + 1 || reached(rows, spans, k + 1, j, k + 1, j) {
        return None;
    }
    Some(j)
}

// Forms the if from the conditional jump at row k to the label at j.
fn form_if(rows: &mut [u64], n: usize, k: usize, j: usize)
    requires { (k < j) × (j < n) × (n < length rows.old) }
    ensures { rows.new ≡ formed_if rows.old n k j }
{
    let w = get(rows, k);
    rows[k] = turn(w, 3);
    raise(rows, k + 1, j);
    insert_row(rows, n, j, 6 + 16 * indent_of(w));
}

// Tries the if at row k: whether a region was formed. No room for its closing brace is as too deep.
#[tactic(auto, unfolding(passes::specs::Sweeps::if_tried, passes::specs::Sweeps::tried_at, passes::specs::Regions::found))]
fn try_if(rows: &mut [u64], spans: &mut [u64], n: usize, k: usize) -> Result<bool, TooDeep>
    requires { k < n }
    ensures { tried result rows.new spans.new ≡ if_tried rows.old spans.old n k }
{
    let Some(j) = if_goal(rows, spans, n, k) else {
        return Ok(false);
    };
    if deep_in(rows, k + 1, j) || rows.len() <= n {
        return Err(TooDeep);
    }
    form_if(rows, n, k, j);
    note(rows, spans, n + 1);
    Ok(true)
}

// Forms every if that can be formed over the first n rows, each row tried in turn.
pub fn structure_ifs(rows: &mut [u64], spans: &mut [u64], n: usize) -> Result<Formed, TooDeep>
    ensures { swept result rows.new spans.new ≡ if_rows rows.old spans.old n }
{
    note(rows, spans, n);
    let mut rest = n;
    let mut regions = 0;
    let mut k = 0;
    // A closing brace is one row more, so the end moves on while rows are tried, which a range does not.
    while k < rest {
        let formed = usize::from(try_if(rows, spans, rest, k)?);
        rest += formed;
        regions += formed;
        k += 1;
    }
    Ok(Formed {
        rows: rest,
        regions,
    })
}
