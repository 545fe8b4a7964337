// The scratch left as it must be: every element of a lent buffer zero.

#![tactic(auto)]

ghost use Rattle.std.specs.Prelude.{◌≡◌, length, replicate};

// A number that buffers are made of: its zero, whose clone is zero too.
pub trait Zero: Copy {
    ghost ZERO: { Self };

    const ZERO: Self;

    ghost cloned: { Self.is_infallible ZERO × ((y : Self) → Self.is_clone ZERO y → y ≡ ZERO) };
}

impl Zero for u8 {
    ghost ZERO = { 0 };

    const ZERO: u8 = 0;

    ghost cloned = { (tt, λ y e. e) };
}

impl Zero for u16 {
    ghost ZERO = { 0 };

    const ZERO: u16 = 0;

    ghost cloned = { (tt, λ y e. e) };
}

// Clears a buffer.
pub fn clear<T: Zero>(buffer: &mut [T])
    ensures { buffer.new ≡ replicate (length buffer.old) T.ZERO }
{
    buffer.fill(T::ZERO);
}
