// An offset is a number of 64 bits, 2^63 more than it says, and 0 where none is known. A sum is tested before it is made, so that none wraps.
ghost use Rattle.std.specs.Prelude.{◌≡◌};
ghost use Rattle.sums.specs.Address.{moved, shifted, is_sign, signed_by};

const HALF: u64 = 9223372036854775808;

const LAST: u64 = 18446744073709551615;

const PLUS: u8 = 43;

const MINUS: u8 = 45;

// m more, or m less.
fn moved(more: bool, s: u64, m: u64) -> u64
    ensures { result ≡ moved more s m }
{
    if more {
        if s == 0 {
            return 0;
        }
        if m <= LAST - s {
            return s + m;
        }
        return 0;
    }
    if m < s {
        return s - m;
    }
    0
}

// Plus or minus the constant with the bits c, which is below 0 from 2^63 on.
fn shifted(more: bool, s: u64, c: u64) -> u64
    ensures { result ≡ shifted more s c }
{
    if c < HALF {
        return moved(more, s, c);
    }
    moved(!more, s, LAST - c + 1)
}

#[tactic(auto, unfolding(crate::specs::Address::is_sign))]
pub fn is_sign(op: u8) -> bool
    ensures { result ≡ is_sign op }
{
    op == PLUS || op == MINUS
}

// By the operator's byte.
pub fn signed(s: u64, op: u8, c: u64) -> u64
    ensures { result ≡ signed_by s op c }
{
    if op == PLUS {
        return shifted(true, s, c);
    }
    if op == MINUS {
        return shifted(false, s, c);
    }
    0
}
