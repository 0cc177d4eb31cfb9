// The variable that a call's result goes to, where somebody reads it.
ghost use Rattle.std.specs.Prelude.{◌≡◌, ◌<◌};
ghost use Rattle.definition.specs.Codes.{k_call};
ghost use Rattle.definition.specs.Edition.{Edition, statements};
ghost use Rattle.definition.specs.Contents.{size};
ghost use Rattle.definition.specs.Owners.{stmt_kind};
ghost use Rattle.room.specs.Room.{room_of, emit_all, seen};
ghost use Rattle.calling.specs.Given.{Results};
ghost use Rattle.calling.specs.Written.{setting_of, result_of};

use meaning::meaning::bits_of;
use pieces::put::put;
use places::Places;
use reads::is_read;
use records::owners::stmt_field;
use render::code::put_code;
use render::kinds::PUNCT;
use room::out::Out;
use slices::get;

// `NAME = `, of a value in register `reg` whose name has this code.
fn put_setting(tokens: &mut [u64], text: &mut [u8], out: Out, bits: u32, reg: u32, code: u32) -> Out
    ensures { seen (room_of tokens.new text.new result)
        ≡ seen (emit_all (room_of tokens.old text.old out) (setting_of bits reg code)) }
{
    let out = put_code(tokens, text, out, bits, reg, code);
    put(tokens, text, out, PUNCT, b" = ")
}

// Where call i returns a value that is read.
pub fn put_result(
    tokens: &mut [u64],
    text: &mut [u8],
    out: Out,
    f: &[u8],
    places: Places,
    numbers: &[u32],
    names: &[u32],
    live: &[u32],
    phi: &[u32],
    i: u32,
) -> Out
    requires results { Results f.now places numbers.now names.now live.now phi.now }
    requires i_value { (stmt_kind f.now i ≡ k_call) × (i < size f.now statements) }
    ensures { (E : Edition) → seen (room_of tokens.new text.new result)
        ≡ seen (emit_all (room_of tokens.old text.old out) (result_of E f.now i)) }
{
    if stmt_field(f, i, 3) != 1 {
        return out;
    }
    let m = get(numbers, places.stmts + i as usize) as usize;
    if is_read(live, phi, m) {
        let reg = stmt_field(f, i, 4);
        return put_setting(tokens, text, out, bits_of(f), reg, get(names, m));
    }
    out
}
