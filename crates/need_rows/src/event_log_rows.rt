// Rows of event_log: a list of cycles and the numbers of slots, once over.
use bit_field::plain_shape;
use event_log::{CycleList, slot_count, slot_number};
use std::test::Fail;

static CYCLES: [u32; 4] = [13, 23, 33, 43];

#[test]
fn first_cycles(rt: HostRuntime) -> Result<(), Fail> {
    let mut cycles = CycleList::new(rt.alloc());
    for cycle in &CYCLES {
        cycles.push(*cycle)?;
    }
    Ok(())
}

#[test]
fn slots_of_the_plain_shape(rt: HostRuntime) {
    let shape = plain_shape();
    assert!(rt; slot_count(&shape) == 64 && slot_number(&shape, 31, 1) == 63);
}
