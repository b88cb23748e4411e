// Which line of a set makes place for another, by the replacement bits.

ghost use Rattle.std.specs.Prelude.{◌≡◌, ◌-◌, ◌*◌, ◌<◌, length};
ghost use Rattle.bit_field.specs.Shapes.{IsShape};
ghost use Rattle.wb_cache.specs.Replacement as spec;

use crate::arrays::Flags;
use bit_field::Shape;

/// The way of a set to which its nodes point.
#[tactic(auto, unfolding(crate::specs::Replacement::replaced))]
pub(crate) fn replaced(nodes: &Flags, shape: &Shape, set: u32) -> u32
    requires shape { IsShape shape.now }
    requires length { length nodes.now ≡ shape.now.sets * (shape.now.ways - 1) }
    requires set { set < shape.now.sets }
    ensures way { result ≡ spec.replaced shape.now nodes.now set }
    ensures within { result < shape.now.ways }
{
    match shape.ways {
        1 => 0,
        2 => u32::from(nodes.is_set(set)),
        _ => {
            if nodes.is_set(3 * set) {
                2 + u32::from(nodes.is_set(3 * set + 2))
            } else {
                u32::from(nodes.is_set(3 * set + 1))
            }
        }
    }
}

/// Turns the nodes above a way of a set that was used away from it.
#[tactic(auto, unfolding(crate::specs::Replacement::used))]
pub(crate) fn use_way(nodes: &mut Flags, shape: &Shape, set: u32, way: u32)
    requires shape { IsShape shape.now }
    requires length { length nodes.old ≡ shape.now.sets * (shape.now.ways - 1) }
    requires set { set < shape.now.sets }
    ensures { nodes.new ≡ spec.used shape.now set way nodes.old }
{
    match shape.ways {
        1 => {}
        2 => nodes.put(set, way == 0),
        _ => {
            nodes.put(3 * set, way < 2);
            if way < 2 {
                nodes.put(3 * set + 1, way == 0);
            } else {
                nodes.put(3 * set + 2, way == 2);
            }
        }
    }
}
