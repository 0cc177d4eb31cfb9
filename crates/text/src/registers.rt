// The registers: their names at either width and the preserved set belong to the register itself.
ghost use Rattle.std.specs.Prelude.{◌≡◌};
ghost use Rattle.definition.specs.Registers.{reg_name, callee_saved};
ghost use Rattle.leaf.specs.Leaf.{Leaf};

use leaf::{Wrote, copy_part};

#[derive(Clone, Copy, PartialEq, Eq)]
pub struct Register {
    pub number: u32,
}

impl Register {
    // Three bytes to a name; `r8` and `r9` have two. Past the last register there is no name.
    pub const NAMES64: [u8; 48] = *b"raxrcxrdxrbxrsprbprsirdir8 r9 r10r11r12r13r14r15";

    pub const NAMES32: [u8; 24] = *b"eaxecxedxebxespebpesiedi";

    // The registers that a call preserves.
    pub const CALLEE_SAVED: [u32; 8] = [3, 5, 6, 7, 12, 13, 14, 15];

    pub fn name(self, dst: &mut [u8], bits: u32) -> Wrote
        ensures { Leaf (reg_name bits self.number) dst.old result dst.new }
    {
        let v = self.number;
        let at = 3 * v as usize;
        if bits == 32 && v < 8 {
            return copy_part(dst, &Register::NAMES32, at, 3);
        }
        if v == 8 || v == 9 {
            return copy_part(dst, &Register::NAMES64, at, 2);
        }
        copy_part(dst, &Register::NAMES64, at, 3)
    }

    pub fn callee_saved(self) -> bool
        ensures { result ≡ callee_saved self.number }
    {
        Register::CALLEE_SAVED.contains(&self.number)
    }
}

// The name of register v.
pub fn reg_name(dst: &mut [u8], bits: u32, v: u32) -> Wrote
    ensures { Leaf (reg_name bits v) dst.old result dst.new }
{
    Register { number: v }.name(dst, bits)
}
