// A row for each lowered line, for the passes.
#![tactic(auto)]

pub mod labels;
pub mod lines;

ghost use Rattle.std.specs.Prelude.{◌≡◌, ◌-◌, ◌<◌};
ghost use Rattle.definition.specs.Texts.{txt};
ghost use Rattle.definition.specs.Tokens.{keyword};
ghost use Rattle.definition.specs.Sorts.{first_is};
ghost use Rattle.sheet.specs.Buffers.{tokens_in};
ghost use Rattle.sorts.specs.Sorted.{jump_kind, packed, row_of, lines_in, sorted};

use crate::labels::find_label;
use crate::lines::{goto_target, is_if, is_label};
use outline::rows::{COND, JUMP, LABEL};
use sheet::lines::{first_of, last_of, line_number};

// The kind of all other lines.
const PLAIN: u64 = 4;

// Which of a line's numbers is its indent.
const INDENT: usize = 2;

fn pack(kind: u64, indent: u64, name: usize, origin: usize) -> u64
    ensures { result ≡ packed kind indent name origin }
{
    let low = kind % 16 + 16 * (indent % 4096);
    low + 65536 * ((name % 16777216) as u64) + 1099511627776 * ((origin % 16777216) as u64)
}

// The kind of the goto that stands from place a up to place e.
#[tactic(auto, unfolding(crate::specs::Sorted::jump_kind))]
fn jump_kind(tokens: &[u64], text: &[u8], a: usize, e: usize) -> u64
    ensures { result ≡ jump_kind (first_is (keyword (txt "if")) (tokens_in tokens.now text.now a (e - a))) }
{
    if is_if(tokens, text, a, e) {
        COND
    } else {
        JUMP
    }
}

// The row of line i of n.
fn row(lines: &[u64], tokens: &[u64], text: &[u8], n: usize, i: usize) -> u64
    requires { i < n }
    ensures { result ≡ row_of (lines_in lines.now tokens.now text.now n) i }
{
    let a = first_of(lines, i);
    let e = last_of(lines, i);
    let d = line_number(lines, i, INDENT);
    if is_label(tokens, text, a, e) {
        return pack(LABEL, d, i + 1, i);
    }
    let Some(p) = goto_target(tokens, text, a, e) else {
        return pack(PLAIN, d, 0, i);
    };
    // A label's name is 1 + its line, and 0 is that of none.
    let name = match find_label(lines, tokens, text, n, p) {
        Some(label) => label + 1,
        None => 0,
    };
    pack(jump_kind(tokens, text, a, e), d, name, i)
}

// The rows of the first n lines, as many as there is room for.
pub fn sorts(rows: &mut [u64], lines: &[u64], tokens: &[u64], text: &[u8], n: usize)
    ensures { rows.new
        ≡ sorted lines.now tokens.now text.now n rows.old }
{
    let m = n.min(rows.len());
    for i in 0..m {
        rows[i] = row(lines, tokens, text, n, i);
    }
}
