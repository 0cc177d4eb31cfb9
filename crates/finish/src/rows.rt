// A row's lowered line, read off the lowered buffers.
ghost use Rattle.std.specs.Prelude.{◌≡◌};
ghost use Rattle.room.specs.Room.{option_of};
ghost use Rattle.outline.specs.Rows.{indent_of, origin_of};
ghost use Rattle.finish.specs.Finishing.{count_of, address_in, row_address};

use indents::raised;
use outline::rows::{indent_of, kind_of};
use sheet::lines::{first_of, last_of, line_number};

// The kind of a closing row.
pub const CLOSE: u64 = 6;

// The lowered line that the row comes from.
pub fn origin_of(w: u64) -> usize
    ensures { result ≡ origin_of w }
{
    (w / 1099511627776) as usize
}

// How many tokens line i has.
#[tactic(auto, unfolding(crate::specs::Finishing::count_of))]
pub fn count_of(from: &[u64], i: usize) -> usize
    ensures { result ≡ count_of from.now i }
{
    last_of(from, i).saturating_sub(first_of(from, i))
}

// What line i stands at.
fn address_at(from: &[u64], i: usize) -> Option<u64>
    ensures { option_of result ≡ address_in from.now i }
{
    if line_number(from, i, 0) != 1 {
        return None;
    }
    Some(line_number(from, i, 1))
}

// What the row's line stands at.
pub fn row_address(from: &[u64], w: u64) -> Option<u64>
    ensures { option_of result ≡ row_address from.now w }
{
    if kind_of(w) == CLOSE {
        return None;
    }
    address_at(from, origin_of(w))
}

// How deep the row's line stands: its record as lowering left it, raised as often as the row was.
pub fn row_indent(from: &[u64], w: u64, end: u64) -> u64
    ensures { result ≡ indent_of w }
{
    let deep = indent_of(w);
    let i = origin_of(w);
    let low = line_number(from, i, 2);
    if deep < low {
        return deep;
    }
    let has = line_number(from, i, 0);
    let address = line_number(from, i, 1);
    raised(has, address, low, end, deep - low)
}
