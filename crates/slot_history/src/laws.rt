// What the events tell of a slot, beside the machine.
ghost use Rattle.slot_history.specs.HeldBefore.{HeldBeforeLaw};

/// Changes nothing; its contract is the law that what the events of a run tell of a line slot before a cycle is what the slot holds
/// in the machine's state before that cycle.
pub fn held_law()
    ensures { HeldBeforeLaw }
{}
