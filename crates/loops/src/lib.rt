// `structure_do_while` on rows.
#![tactic(auto)]

ghost use Rattle.std.specs.Prelude.{◌≡◌, ◌+◌, ◌-◌, ◌<◌, length};
ghost use Rattle.passes.specs.Regions.{found, back_from, do_goal, formed_do};
ghost use Rattle.passes.specs.Sweeps.{tried, do_tried, swept, do_rows};

use outline::forming::{deep_in, raise, turn, up};
use outline::rows::{LABEL, Seen, indent_of, judge_back, kind_of, name_of};
use outline::spans::{is_outside, note, reached};
use passes::sweeps::{Formed, TooDeep};
use slices::get;

// The row of the last conditional jump to m at depth d, from row i up to n.
fn last_back(rows: &[u64], n: usize, i: usize, m: u64, d: u64) -> Option<usize>
    ensures { result ≡ found n (back_from n m d rows.now i (n - i)) }
{
    let mut last = None;
    for j in i..n {
        match judge_back(get(rows, j), m, d) {
            Seen::Pass => {}
            Seen::Hit => last = Some(j),
            Seen::End => return last,
        }
    }
    last
}

// The back edge's row of the loop at row k, where a region is formed.
#[tactic(auto, unfolding(passes::specs::Regions::do_goal, passes::specs::Regions::do_goal_at, passes::specs::Regions::found, outline::specs::Tests::is_kind))]
fn do_goal(rows: &[u64], spans: &[u64], n: usize, k: usize) -> Option<usize>
    requires { k < n }
    ensures { result ≡ found n (do_goal rows.now spans.now n k) }
{
    let w = get(rows, k);
    if kind_of(w) != LABEL {
        return None;
    }
    let m = name_of(w);
    let j = last_back(rows, n, k + 1, m, indent_of(w) + 1)?;
    if is_outside(get(spans, m as usize), j, j + 1) || reached(rows, spans, k + 1, j, k, j + 1) {
        return None;
    }
    Some(j)
}

// Forms the loop from the label at row k to the back edge at j.
fn form_do(rows: &mut [u64], k: usize, j: usize)
    requires { (k < j) × (j < length rows.old) }
    ensures { rows.new ≡ formed_do rows.old k j }
{
    let w = get(rows, k);
    let b = get(rows, j);
    rows[k] = turn(up(w), 6);
    raise(rows, k + 1, j);
    rows[j] = turn(b, 6);
}

// Tries the loop at row k: whether a region was formed. A row that is not lent is as too deep, which keeps it total.
#[tactic(auto, unfolding(passes::specs::Sweeps::do_tried, passes::specs::Sweeps::tried_at, passes::specs::Regions::found))]
fn try_do(rows: &mut [u64], spans: &mut [u64], n: usize, k: usize) -> Result<bool, TooDeep>
    requires { k < n }
    ensures { tried result rows.new spans.new ≡ do_tried rows.old spans.old n k }
{
    let Some(j) = do_goal(rows, spans, n, k) else {
        return Ok(false);
    };
    if deep_in(rows, k + 1, j) || rows.len() <= j {
        return Err(TooDeep);
    }
    form_do(rows, k, j);
    note(rows, spans, n);
    Ok(true)
}

// Forms every loop that can be formed over the first n rows, each row tried in turn.
pub fn structure_do_while(rows: &mut [u64], spans: &mut [u64], n: usize) -> Result<Formed, TooDeep>
    ensures { swept result rows.new spans.new ≡ do_rows rows.old spans.old n }
{
    note(rows, spans, n);
    let mut regions = 0;
    for k in 0..n {
        regions += usize::from(try_do(rows, spans, n, k)?);
    }
    Ok(Formed { rows: n, regions })
}
