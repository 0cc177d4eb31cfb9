// The arguments of a call: of 64 bits those of its list items whose registers were set, of 32 bits the values pushed for it.
ghost use Rattle.std.specs.Prelude.{◌≡◌};
ghost use Rattle.definition.specs.Edition.{Edition};
ghost use Rattle.definition.specs.Contents.{text as text_of};
ghost use Rattle.definition.specs.Owners.{stmt_field};
ghost use Rattle.definition.specs.Lower.{comma_list, is_indirect};
ghost use Rattle.room.specs.Room.{room_of, emit_all, seen};
ghost use Rattle.lowering.specs.Lowered.{lowering_of};
ghost use Rattle.calling.specs.Given.{CallAt};
ghost use Rattle.lowering.specs.Commas.{trees_of};
ghost use Rattle.calling.specs.Written.{target_text, skip, counted, waiting_nodes, arg_nodes};

use crate::pushed::put_pushed;
use calls::direct::is_indirect;
use lowering::list::put_items;
use meaning::meaning::bits_of;
use records::owners::{is_pushed, stmt_field};
use render::source::Source;
use room::out::Out;

// How many of n list items stand before the arguments: the address of a computed call.
#[tactic(auto, unfolding(crate::specs::Written::skip))]
fn skipped(computed: bool, n: u32) -> u32
    ensures { result ≡ skip computed n }
{
    u32::from(computed && n != 0)
}

// Of 64 bits: the first `count`.
fn put_counted(
    tokens: &mut [u64],
    text: &mut [u8],
    out: Out,
    src: &Source<'_>,
    i: u32,
    item: u32,
    count: u32,
) -> Out
    requires { CallAt src.now.of.f.now i item }
    ensures { (E : Edition) → text_of E ≡ src.now.of.t → seen (room_of tokens.new text.new result)
        ≡ seen (emit_all (room_of tokens.old text.old out) (comma_list (lowering_of E src.now.of.f.now)
        (trees_of E src.now.of.f.now (counted src.now.of.f.now (is_indirect (target_text E src.now.of.f.now i)) item (stmt_field src.now.of.f.now i 2) count)))) }
{
    let start = stmt_field(src.of.f, i, 0);
    let len = stmt_field(src.of.f, i, 1);
    let n = stmt_field(src.of.f, i, 2);
    let s = skipped(is_indirect(src.of.f, src.of.t, start, len), n);
    let m = count.min(n - s);
    put_items(tokens, text, out, src, item + s, m)
}

// Of 32 bits: none where the call is itself marked as a push, they go to the next one.
fn put_waiting(
    tokens: &mut [u64],
    text: &mut [u8],
    out: Out,
    src: &Source<'_>,
    from: u32,
    i: u32,
) -> Out
    ensures { (E : Edition) → text_of E ≡ src.now.of.t → seen (room_of tokens.new text.new result)
        ≡ seen (emit_all (room_of tokens.old text.old out) (comma_list (lowering_of E src.now.of.f.now) (trees_of E src.now.of.f.now (waiting_nodes src.now.of.f.now from i)))) }
{
    if is_pushed(src.of.f, i) {
        return out;
    }
    put_pushed(tokens, text, out, src, from, i)
}

// The arguments of call i, whose list items begin at `item`, with the pushes from statement `from` on and `count` argument registers set.
pub fn put_args(
    tokens: &mut [u64],
    text: &mut [u8],
    out: Out,
    src: &Source<'_>,
    i: u32,
    item: u32,
    from: u32,
    count: u32,
) -> Out
    requires { CallAt src.now.of.f.now i item }
    ensures { (E : Edition) → text_of E ≡ src.now.of.t → seen (room_of tokens.new text.new result)
        ≡ seen (emit_all (room_of tokens.old text.old out) (comma_list (lowering_of E src.now.of.f.now) (trees_of E src.now.of.f.now (arg_nodes E src.now.of.f.now i item from count)))) }
{
    if bits_of(src.of.f) == 32 {
        return put_waiting(tokens, text, out, src, from, i);
    }
    put_counted(tokens, text, out, src, i, item, count)
}
