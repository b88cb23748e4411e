// The four byte lanes of a word, and masks of them.

ghost use Rattle.std.specs.Prelude.{◌≡◌, ◌<◌};
ghost use Rattle.bit_field.specs.Lanes as lanes;

use crate::flips::bit_at;

/// Whether a mask of byte lanes names a lane, 0 to 3.
pub fn has_lane(mask: u8, lane: u32) -> bool
    requires { lane < 4 }
    ensures { result ≡ lanes.has_lane mask lane }
{
    bit_at(u32::from(mask), lane)
}

/// The byte of a lane of a word, 0 to 3; lane 0 is the lowest.
pub fn lane_byte(value: u32, lane: u32) -> u8
    requires { lane < 4 }
    ensures { result ≡ lanes.lane_byte value lane }
{
    value.to_le_bytes()[lane as usize]
}
