// Values whose bits a strike can flip.

ghost use Rattle.std.specs.Prelude.{◌≡◌, ◌↔◌, ℕ, ◌<◌, IsTrue};
ghost use Rattle.bit_field.specs.Laws.{FlipLaws};

/// A value of some bits, each of which can be flipped. Every impl proves four laws: the number of bits
/// doesn't change; a flip changes its bit and no other; two flips of a bit restore the value; two values
/// with all bits equal are equal.
pub trait Struck {
    /// Each field is below its width.
    ghost IsFit: { Self → Type 0 };

    /// The number of bits.
    ghost bit_count: { Self → ℕ };

    /// Bit k, 0 or 1.
    ghost bit_of: { Self → ℕ → ℕ };

    /// The value with bit k flipped.
    ghost flipped: { Self → ℕ → Self };

    /// The number of bits.
    fn bits(&self) -> u32
        ensures { result ≡ bit_count self.now };

    /// Bit k, counted from 0.
    fn bit(&self, k: u32) -> bool
        requires { k < bit_count self.now }
        ensures { IsTrue result ↔ (bit_of self.now k ≡ 1) };

    /// Flips bit k, counted from 0.
    fn flip(&mut self, k: u32)
        requires { k < bit_count self.old }
        ensures { self.new ≡ flipped self.old k };

    /// Changes nothing; says that the value in hand has each field below its width.
    fn fits(&self)
        ensures { IsFit self.now };

    /// Changes nothing; says that the laws of a flip hold of all values of the type.
    fn laws(&self)
        ensures { FlipLaws IsFit bit_count bit_of flipped };
}
