// What a strike flips: one bit of one structure of the machine.
//
// - strikes: the trait of the values whose bits can be flipped, and its laws;
// - flips: reading and flipping one bit of a number, for the impls of that trait;
// - lanes: the byte lanes of a word, and masks of them;
// - layouts: the fields of a structure, and which of them holds a bit;
// - places: the structures of the machine and the places in them;
// - shapes: the RAM and the data cache of a machine, and the number of bits of each structure.
//
// Its worked rows are tests of machine_rows.
#![tactic(auto)]

mod flips;
mod lanes;
mod layouts;
mod places;
mod shapes;
mod strikes;

pub use flips::{bit_at, bytes_fit, flip_at_u8, flip_at_u32, words_fit};
pub use lanes::{has_lane, lane_byte};
pub use layouts::{Field, field_at};
pub use places::{Place, Structure, structure_name, structure_named};
pub use shapes::{
    BHT_BITS, BTB_BITS, COUNTER_BITS, EX_MEM_BITS, IB_BITS, ID_EX_BITS, MEM_WB_BITS, PORT_BITS,
    RF_BITS, SB_BITS, Shape, bits_in, bits_of, is_shape, plain_shape, tag_bits,
};
pub use strikes::Struck;
