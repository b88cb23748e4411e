// Reading and flipping one bit of a number: the parts of which the impls of `Struck` are made.

ghost use Rattle.std.specs.Prelude.{◌≡◌, ◌↔◌, ℕ, ◌^◌, ◌<◌, ◌≤◌, IsTrue};
ghost use Rattle.std.specs.List.{All};
ghost use Rattle.std.specs.Int.{bit_at as bit_of_number};
ghost use Rattle.bit_field.specs.Layouts.{flip};

/// Whether bit `k` of the number is 1.
pub fn bit_at(value: u32, k: u32) -> bool
    requires { k < 32 }
    ensures { IsTrue result ↔ (bit_of_number value k ≡ 1) }
{
    (value >> k) & 1 == 1
}

/// Flips bit `k` of a number of `width` bits.
#[tactic(auto, using(crate::proofs::Bits::shifted_below_8))]
pub fn flip_at_u8(byte: &mut u8, width: u32, k: u32)
    requires place { k < width }
    requires width { width ≤ 8 }
    ensures flips { byte.new ≡ flip byte.old k }
    ensures fits { byte.old < 2 ^ width → byte.new < 2 ^ width }
{
    *byte ^= 1 << k;
}

/// Flips bit `k` of a number of `width` bits.
#[tactic(auto, using(crate::proofs::Bits::shifted_below_32))]
pub fn flip_at_u32(word: &mut u32, width: u32, k: u32)
    requires place { k < width }
    requires width { width ≤ 32 }
    ensures flips { word.new ≡ flip word.old k }
    ensures fits { word.old < 2 ^ width → word.new < 2 ^ width }
{
    *word ^= 1 << k;
}

/// Changes nothing; says that bytes are below 2^8.
pub fn bytes_fit(bytes: &[u8])
    ensures { All (λ x. x < 2 ^ 8) bytes.now }
{}

/// Changes nothing; says that words are below 2^32.
pub fn words_fit(words: &[u32])
    ensures { All (λ x. x < 2 ^ 32) words.now }
{}
