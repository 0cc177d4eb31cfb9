// The values pushed for a call, with `, ` between them.
ghost use Rattle.std.specs.Prelude.{◌≡◌};
ghost use Rattle.definition.specs.Edition.{Edition};
ghost use Rattle.definition.specs.Contents.{text as text_of};
ghost use Rattle.definition.specs.Lower.{comma_list};
ghost use Rattle.room.specs.Room.{room_of, emit_all, seen};
ghost use Rattle.lowering.specs.Lowered.{lowering_of};
ghost use Rattle.lowering.specs.Commas.{trees_of};
ghost use Rattle.calls.specs.Waiting.{pushed_nodes};
ghost use Rattle.calling.specs.Written.{is_push, push_of};

use lowering::list::put_arg;
use records::owners::{STORE, is_pushed, stmt_field, stmt_kind};
use render::source::Source;
use room::out::Out;

// Whether statement i pushes a value: only a Store does.
#[tactic(auto, unfolding(crate::specs::Written::is_push))]
fn is_push(f: &[u8], i: u32) -> bool
    ensures { result ≡ is_push f.now i }
{
    is_pushed(f, i) && stmt_kind(f, i) == STORE
}

// The value that statement i pushes, if it does.
fn put_push(
    tokens: &mut [u64],
    text: &mut [u8],
    out: Out,
    src: &Source<'_>,
    i: u32,
    more: bool,
) -> Out
    ensures { (E : Edition) → text_of E ≡ src.now.of.t → seen (room_of tokens.new text.new result)
        ≡ seen (emit_all (room_of tokens.old text.old out) (push_of E src.now.of.f.now more i)) }
{
    if is_push(src.of.f, i) {
        let x = stmt_field(src.of.f, i, 2);
        return put_arg(tokens, text, out, src, x, more);
    }
    out
}

// The values pushed from statement `from` on and before statement i, the last first.
pub fn put_pushed(
    tokens: &mut [u64],
    text: &mut [u8],
    out: Out,
    src: &Source<'_>,
    from: u32,
    i: u32,
) -> Out
    ensures { (E : Edition) → text_of E ≡ src.now.of.t → seen (room_of tokens.new text.new result)
        ≡ seen (emit_all (room_of tokens.old text.old out) (comma_list (lowering_of E src.now.of.f.now) (trees_of E src.now.of.f.now (pushed_nodes src.now.of.f.now from i)))) }
{
    let mut out = out;
    let mut more = false;
    for j in (from..i).rev() {
        out = put_push(tokens, text, out, src, j, more);
        more |= is_push(src.of.f, j);
    }
    out
}
