// The words for a machine's shape.
ghost use Rattle.std.specs.Prelude.{◌≡◌, ◌⊎◌, IfSome};
ghost use Rattle.bit_field.specs.Shapes.{IsShape};
ghost use Rattle.avf_tool.specs.Words.{known_sets, known_ways, shape_words};

use crate::numbers::number;
use bit_field::Shape;

fn known_sets(n: u64) -> Option<u16>
    ensures is { result ≡ known_sets n }
    ensures fits { IfSome result (λ s. (s ≡ 16) ⊎ (s ≡ 32) ⊎ (s ≡ 64) ⊎ (s ≡ 128)) }
{
    match n {
        16 => Some(16),
        32 => Some(32),
        64 => Some(64),
        128 => Some(128),
        _ => None,
    }
}

fn known_ways(n: u64) -> Option<u8>
    ensures is { result ≡ known_ways n }
    ensures fits { IfSome result (λ w. (w ≡ 1) ⊎ (w ≡ 2) ⊎ (w ≡ 4)) }
{
    match n {
        1 => Some(1),
        2 => Some(2),
        4 => Some(4),
        _ => None,
    }
}

/// The shape that three words name: 1 to 16 MiB of RAM, 16, 32, 64 or 128 sets, and 1, 2 or 4 ways.
pub fn shape(mib: &str, sets: &str, ways: &str) -> Option<Shape>
    ensures is { result ≡ shape_words mib.now sets.now ways.now }
    ensures fits { IfSome result IsShape }
{
    let mib = number(mib, 1, 16)?;
    let sets = known_sets(number(sets, 16, 128)?)?;
    let ways = known_ways(number(ways, 1, 4)?)?;
    Some(Shape {
        mib: mib as u8,
        sets,
        ways,
    })
}
