// An expression, alone or between two signs; and expressions with `, ` between them.
ghost use Rattle.std.specs.Prelude.{◌≡◌, map, ℕ, ◌+◌, ◌<◌};
ghost use Rattle.definition.specs.Edition.{Edition};
ghost use Rattle.definition.specs.Contents.{text as text_of, item_word};
ghost use Rattle.definition.specs.Lists.{range};
ghost use Rattle.definition.specs.Read.{tree_at, all_trees};
ghost use Rattle.definition.specs.Lower.{comma_list};
ghost use Rattle.room.specs.Room.{room_of, emit_all, seen};
ghost use Rattle.lowering.specs.Lowered.{lowering_of, expr_of, within_of};
ghost use Rattle.lowering.specs.Commas.{arg_of};

use pieces::put::{put, put_if};
use records::contents::{STATEMENTS, item_word, size_of};
use render::expr::expr;
use render::kinds::PUNCT;
use render::source::Source;
use room::out::Out;

// Expression n. Behind the last statement every value written in place is open.
pub fn put_expr(tokens: &mut [u64], text: &mut [u8], out: Out, src: &Source<'_>, n: u32) -> Out
    ensures { (E : Edition) → text_of E ≡ src.now.of.t → seen (room_of tokens.new text.new result)
        ≡ seen (emit_all (room_of tokens.old text.old out) (expr_of E src.now.of.f.now n)) }
{
    let pos = size_of(src.of.f, STATEMENTS);
    expr(tokens, text, out, src, pos, n, true)
}

// Expression n between two signs.
pub fn put_within(
    tokens: &mut [u64],
    text: &mut [u8],
    out: Out,
    src: &Source<'_>,
    front: &[u8],
    n: u32,
    back: &[u8],
) -> Out
    ensures { (E : Edition) → text_of E ≡ src.now.of.t → seen (room_of tokens.new text.new result)
        ≡ seen (emit_all (room_of tokens.old text.old out) (within_of E src.now.of.f.now front.now n back.now)) }
{
    let out = put(tokens, text, out, PUNCT, front);
    let out = put_expr(tokens, text, out, src, n);
    put(tokens, text, out, PUNCT, back)
}

// Behind others or as the first.
pub fn put_arg(
    tokens: &mut [u64],
    text: &mut [u8],
    out: Out,
    src: &Source<'_>,
    n: u32,
    more: bool,
) -> Out
    ensures { (E : Edition) → text_of E ≡ src.now.of.t → seen (room_of tokens.new text.new result)
        ≡ seen (emit_all (room_of tokens.old text.old out) (arg_of E src.now.of.f.now more n)) }
{
    let out = put_if(tokens, text, out, PUNCT, b", ", more);
    put_expr(tokens, text, out, src, n)
}

// n list items from `first` on.
pub fn put_items(
    tokens: &mut [u64],
    text: &mut [u8],
    out: Out,
    src: &Source<'_>,
    first: u32,
    n: u32,
) -> Out
    requires { first + n < 4294967296 }
    ensures { (E : Edition) → text_of E ≡ src.now.of.t → seen (room_of tokens.new text.new result)
        ≡ seen (emit_all (room_of tokens.old text.old out) (comma_list (lowering_of E src.now.of.f.now) (map (tree_at (all_trees E src.now.of.f.now)) (map (λ (k : ℕ). item_word src.now.of.f.now (first + k) 0) (range 0 n))))) }
{
    let mut out = out;
    for k in 0..n {
        let x = item_word(src.of.f, first + k, 0);
        out = put_arg(tokens, text, out, src, x, 0 < k);
    }
    out
}
