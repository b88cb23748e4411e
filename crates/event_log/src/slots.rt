// The numbers of line slots.
ghost use Rattle.std.specs.Prelude.{◌≡◌, ◌<◌, ◌≤◌};
ghost use Rattle.bit_field.specs.Shapes.{IsShape, slots};
ghost use Rattle.wb_cache.specs.Contents.{slot_of};

use bit_field::Shape;

/// How many line slots a cache of this shape has.
pub fn slot_count(shape: &Shape) -> u32
    requires { IsShape shape.now }
    ensures value { result ≡ slots shape.now }
    ensures most { result ≤ 512 }
{
    u32::from(shape.sets) * u32::from(shape.ways)
}

/// The number of the line slot of a way of a set.
pub fn slot_number(shape: &Shape, set: u32, way: u32) -> u32
    requires shape { IsShape shape.now }
    requires set { set < shape.now.sets }
    requires way { way < shape.now.ways }
    ensures value { result ≡ slot_of shape.now set way }
    ensures within { result < slots shape.now }
{
    u32::from(shape.ways) * set + way
}
