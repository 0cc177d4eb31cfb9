// Lent tables emptied: zeros, whatever stood there.
#![tactic(auto)]

ghost use Rattle.std.specs.Prelude.{◌≡◌, length, replicate};

// A number of a table: 0 is what stands where nothing is said.
pub trait Zero: Copy {
    ghost ZERO: { Self };

    const ZERO: Self;

    // Every copy is made, and is the number itself.
    ghost copies: { (x : Self) → Self.is_infallible x × ((y : Self) → Self.is_clone x y → y ≡ x) };
}

impl Zero for u8 {
    ghost ZERO = { 0 };

    const ZERO: u8 = 0;

    ghost copies = { λ x. (tt, λ y e. e) };
}

impl Zero for u32 {
    ghost ZERO = { 0 };

    const ZERO: u32 = 0;

    ghost copies = { λ x. (tt, λ y e. e) };
}

impl Zero for u64 {
    ghost ZERO = { 0 };

    const ZERO: u64 = 0;

    ghost copies = { λ x. (tt, λ y e. e) };
}

pub fn clear<T: Zero>(table: &mut [T])
    ensures { table.new ≡ replicate (length table.old) T.ZERO }
{
    table.fill(T::ZERO);
}
