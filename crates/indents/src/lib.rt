// Finished lines, set deeper.
#![tactic(auto)]

ghost use Rattle.std.specs.Prelude.{◌≡◌, map};
ghost use Rattle.indents.specs.Deeper.{deeper_by, raised_by};

// A finished line as the caller reads it: whether it has an address, the address, its indent, the end of its tokens, 0.
#[derive(Clone, Copy)]
pub struct Line {
    pub has: u64,
    pub address: u64,
    pub indent: u64,
    pub end: u64,
    pub block: u64,
}

// An indent `by` steps deeper, as far as 64 bits go.
#[tactic(auto, unfolding(crate::specs::Deeper::deeper_by))]
fn deeper(indent: u64, by: u64) -> u64
    ensures { result ≡ deeper_by by indent }
{
    indent.checked_add(by).unwrap_or(indent)
}

// Each line of a run `by` steps deeper, as far as 64 bits go.
pub fn raise_lines(run: &mut [Line], by: u64)
    ensures { run.new ≡ map (raised_by by) run.old }
{
    for i in 0..run.len() {
        run[i].indent = deeper(run[i].indent, by);
    }
}

// The indent of one line, `by` steps deeper: the form with plain parameters that others call.
pub fn raised(has: u64, address: u64, indent: u64, end: u64, by: u64) -> u64
    ensures { result ≡ deeper_by by indent }
{
    let mut run = [Line {
        has,
        address,
        indent,
        end,
        block: 0,
    }];
    raise_lines(&mut run, by);
    run[0].indent
}
