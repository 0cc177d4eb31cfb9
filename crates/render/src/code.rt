// The name that a code says, as a token.
ghost use Rattle.std.specs.Prelude.{◌≡◌};
ghost use Rattle.definition.specs.Lookup.{name_or};
ghost use Rattle.definition.specs.Registers.{reg_name};
ghost use Rattle.definition.specs.Tokens.{tok};
ghost use Rattle.room.specs.Room.{room_of, emit};
ghost use Rattle.names.specs.Codes.{name_text};

use pieces::put::{put_local, put_param, put_reg};
use room::out::Out;

// 0 and 1 are the register's own name, 2 k is `a` k and 2 k + 1 is `v` k.
pub fn put_code(
    tokens: &mut [u64],
    text: &mut [u8],
    out: Out,
    bits: u32,
    reg: u32,
    code: u32,
) -> Out
    ensures { room_of tokens.new text.new result
        ≡ emit (room_of tokens.old text.old out) (tok 1 (name_or (reg_name bits reg) (name_text bits reg code))) }
{
    if code < 2 {
        return put_reg(tokens, text, out, bits, reg);
    }
    if code % 2 == 0 {
        return put_param(tokens, text, out, (code / 2) as u64);
    }
    put_local(tokens, text, out, (code / 2) as u64)
}
