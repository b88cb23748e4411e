// Lines that differ in one bit of their tags.
ghost use Rattle.std.specs.Prelude.{◌≡◌, ◌^◌, ◌<◌};
ghost use Rattle.bit_field.specs.Shapes.{IsShape, tag_bits};
ghost use Rattle.event_log.specs.Lookups as lookups;

use bit_field::Shape;

/// The line at distance one from a line (a byte address divided by 16) in a bit of its tag: the line of the same set whose tag has
/// that bit changed. A cache that holds the line under a tag with that bit flipped takes it for the other.
pub fn distance_one(shape: &Shape, line: u32, bit: u32) -> u32
    requires shape { IsShape shape.now }
    requires line { line < 2 ^ 28 }
    requires bit { bit < tag_bits shape.now }
    ensures { result ≡ lookups.distance_one shape.now line bit }
{
    let sets = u32::from(shape.sets);
    sets * ((line / sets) ^ (1 << bit)) + line % sets
}
