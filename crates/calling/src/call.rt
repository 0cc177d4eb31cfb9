// The line of a call: `RESULT = TARGET(ARGS);`.
ghost use Rattle.std.specs.Prelude.{◌≡◌, List, ℕ, length};
ghost use Rattle.definition.specs.Edition.{Edition};
ghost use Rattle.definition.specs.Contents.{text as text_of};
ghost use Rattle.definition.specs.Read.{read};
ghost use Rattle.definition.specs.Lower.{Here, count_set};
ghost use Rattle.room.specs.Room.{room_of, emit_all, seen, sheet_of, write_all, seen_sheet};
ghost use Rattle.reads.specs.Counts.{LiveReads, PhiReads};
ghost use Rattle.lowering.specs.Lowered.{lowered};
ghost use Rattle.calls.specs.Waiting.{pending};
ghost use Rattle.calling.specs.Given.{CallAt};
ghost use Rattle.calling.specs.Written.{call_of};

use crate::args::put_args;
use crate::callee::put_target;
use crate::result::put_result;
use lowering::line::end_stmt;
use pieces::put::put;
use records::owners::is_dead;
use render::kinds::PUNCT;
use render::source::Source;
use room::out::Out;

// Its tokens.
fn put_call(
    tokens: &mut [u64],
    text: &mut [u8],
    out: Out,
    src: &Source<'_>,
    live: &[u32],
    phi: &[u32],
    i: u32,
    item: u32,
    from: u32,
    count: u32,
) -> Out
    requires live_reads { LiveReads src.now.of.f.now (length src.now.of.numbers.now) live.now }
    requires phi_reads { PhiReads src.now.of.f.now (length src.now.of.numbers.now) phi.now }
    requires call_at { CallAt src.now.of.f.now i item }
    ensures { (E : Edition) → text_of E ≡ src.now.of.t → seen (room_of tokens.new text.new result)
        ≡ seen (emit_all (room_of tokens.old text.old out) (call_of E src.now.of.f.now i item from count)) }
{
    let out = put_result(
        tokens,
        text,
        out,
        src.of.f,
        src.of.places,
        src.of.numbers,
        src.names,
        live,
        phi,
        i,
    );
    let out = put_target(tokens, text, out, src, i, item);
    let out = put(tokens, text, out, PUNCT, b"(");
    let out = put_args(tokens, text, out, src, i, item, from, count);
    put(tokens, text, out, PUNCT, b");")
}

// Statement i, a call whose list items begin at `item`, with the pushes from statement `from` on and `count` argument registers set.
pub fn call(
    lines: &mut [u64],
    tokens: &mut [u64],
    text: &mut [u8],
    out: Out,
    src: &Source<'_>,
    live: &[u32],
    phi: &[u32],
    i: u32,
    item: u32,
    from: u32,
    count: u32,
) -> Out
    requires live_reads { LiveReads src.now.of.f.now (length src.now.of.numbers.now) live.now }
    requires phi_reads { PhiReads src.now.of.f.now (length src.now.of.numbers.now) phi.now }
    requires call_at { CallAt src.now.of.f.now i item }
    ensures { (E : Edition) (H : Here) (set : List ℕ) (end : ℕ) → text_of E ≡ src.now.of.t → count ≡ count_set set (read E src.now.of.f.now).args
        → seen_sheet (sheet_of lines.new tokens.new text.new result)
        ≡ seen_sheet (write_all (sheet_of lines.old tokens.old text.old out) (lowered E src.now.of.f.now H (pending E src.now.of.f.now from i) set end i)) }
{
    if is_dead(src.of.f, i) {
        return out;
    }
    let out = put_call(tokens, text, out, src, live, phi, i, item, from, count);
    end_stmt(lines, out, src.of.f, i)
}
