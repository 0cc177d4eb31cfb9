// A row's parts, and the tests that the passes make of one row.
ghost use Rattle.std.specs.Prelude.{◌≡◌};
ghost use Rattle.outline.specs.Rows.{kind_of, indent_of, name_of};
ghost use Rattle.outline.specs.Tests.{is_goto, verdict, back_verdict, too_deep};

// The kinds of rows that the passes look for: numbers, since a row is one word of a lent table, and forming a region adds to its kind.
pub const LABEL: u64 = 1;

pub const COND: u64 = 2;

pub const JUMP: u64 = 3;

pub fn kind_of(w: u64) -> u64
    ensures { result ≡ kind_of w }
{
    w % 16
}

pub fn indent_of(w: u64) -> u64
    ensures { result ≡ indent_of w }
{
    w / 16 % 4096
}

pub fn name_of(w: u64) -> u64
    ensures { result ≡ name_of w }
{
    w / 65536 % 16777216
}

// Whether the row is a goto.
#[tactic(auto, unfolding(crate::specs::Tests::is_goto))]
pub fn is_goto(w: u64) -> bool
    ensures { result ≡ is_goto w }
{
    let k = kind_of(w);
    k == COND || k == JUMP
}

// What a row is to a search along the rows: passed by, what is sought, or where the search ends.
#[derive(Clone, Copy, PartialEq, Eq)]
pub enum Seen {
    Pass,
    Hit,
    End,
}

// What the row is to a scan at depth d for the label m.
#[tactic(auto, unfolding(crate::specs::Tests::verdict, crate::specs::Tests::labels, crate::specs::Tests::stops, crate::specs::Tests::is_kind))]
pub fn judge(w: u64, m: u64, d: u64) -> Seen
    ensures { result ≡ verdict m d w }
{
    let x = indent_of(w);
    if d <= x {
        return Seen::Pass;
    }
    if x + 1 != d || kind_of(w) != LABEL {
        return Seen::End;
    }
    if name_of(w) == m {
        Seen::Hit
    } else {
        Seen::Pass
    }
}

// What the row is to a search at depth d for the back edges to m.
#[tactic(auto, unfolding(crate::specs::Tests::back_verdict, crate::specs::Tests::backs, crate::specs::Tests::stops, crate::specs::Tests::is_kind))]
pub fn judge_back(w: u64, m: u64, d: u64) -> Seen
    ensures { result ≡ back_verdict m d w }
{
    let x = indent_of(w);
    if x < d {
        return if x + 1 != d || kind_of(w) != LABEL {
            Seen::End
        } else {
            Seen::Pass
        };
    }
    if x == d && kind_of(w) == COND && name_of(w) == m {
        Seen::Hit
    } else {
        Seen::Pass
    }
}

// Whether the row, raised, would stand inside more than 254 open braces.
#[tactic(auto, unfolding(crate::specs::Tests::too_deep, crate::specs::Tests::is_kind))]
pub fn too_deep(w: u64) -> bool
    ensures { result ≡ too_deep w }
{
    let most = if kind_of(w) == LABEL { 254 } else { 255 };
    most <= indent_of(w)
}
