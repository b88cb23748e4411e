//! A structure in which one bit alone is 1.

/// What a field of the bits `first` to `last` of a structure holds where bit `k` of the structure alone is 1.
pub fn field_of_bit(k: u32, first: u32, last: u32) -> u32 {
    if k >= first && k <= last {
        1u32.wrapping_shl(k - first)
    } else {
        0
    }
}
