// The low part of a number of 64 bits: what a list of bytes, of words or of numbers holds of it.
ghost use Rattle.std.specs.Prelude.{◌≡◌, ℕ, ◌%◌, ◌^◌, ◌<◌};
ghost use Rattle.std.proofs.Common.{refl, sym, mod-eq_of_lt};
ghost use Rattle.trial_lines.specs.Writing.{low8, low16, low32, whole};

// `low` is the part of a number, `number` the number that a part is, and `size` what no part reaches.
pub trait LowPart: Copy {
    ghost low: { ℕ → Self };

    ghost number: { Self → ℕ };

    ghost size: { ℕ };

    fn low_part(x: u64) -> Self
        ensures { result ≡ low x };

    // What each `impl` must prove: the part is the remainder.
    ghost remainder: { (x : ℕ) → x < 2 ^ 64 → number (low x) ≡ x % size };
}

impl LowPart for u8 {
    ghost low = { low8 };

    ghost number = { λ x. x };

    ghost size = { 2 ^ 8 };

    ghost remainder = { λ x h. refl };

    fn low_part(x: u64) -> u8 {
        (x % 256) as u8
    }
}

impl LowPart for u16 {
    ghost low = { low16 };

    ghost number = { λ x. x };

    ghost size = { 2 ^ 16 };

    ghost remainder = { λ x h. refl };

    fn low_part(x: u64) -> u16 {
        (x % 65536) as u16
    }
}

impl LowPart for u32 {
    ghost low = { low32 };

    ghost number = { λ x. x };

    ghost size = { 2 ^ 32 };

    ghost remainder = { λ x h. refl };

    fn low_part(x: u64) -> u32 {
        (x % 4294967296) as u32
    }
}

impl LowPart for u64 {
    ghost low = { whole };

    ghost number = { λ x. x };

    ghost size = { 2 ^ 64 };

    ghost remainder = { λ x h. sym (mod-eq_of_lt h) };

    fn low_part(x: u64) -> u64 {
        x
    }
}
