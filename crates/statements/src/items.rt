// Runs of list items.
ghost use Rattle.std.specs.Prelude.{◌≡◌};
ghost use Rattle.statements.specs.Items.{expr_run, value_run};

use records::owners::{expr_items, value_items};

// A run of list items, by place.
#[derive(Clone, Copy)]
pub struct Items {
    pub first: u32,
    pub count: u32,
}

// The expressions among the items of statement i, which begin at `first`.
pub fn expr_run(f: &[u8], i: u32, first: u32) -> Items
    ensures { result ≡ expr_run f.now i first }
{
    Items {
        first,
        count: expr_items(f, i),
    }
}

// The values, which stand behind the expressions: at the last place where that one leaves 32 bits, which no file does that check 4 accepts.
pub fn value_run(f: &[u8], i: u32, first: u32) -> Items
    ensures { result ≡ value_run f.now i first }
{
    Items {
        first: first.saturating_add(expr_items(f, i)),
        count: value_items(f, i),
    }
}
