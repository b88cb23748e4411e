// The law of parity.
ghost use Rattle.due_parity.specs.StruckCycles.{EachObeysParity};

/// Changes nothing; its contract is the law of parity, of every state of the machine. From the state with one bit of the register file or
/// of the cache's data flipped, each cycle is seen as it would be without the flip, and the flip stays the only difference, until a cycle
/// reads the bit's group; where a cycle makes the group anew before that, the states are equal from then on.
pub fn parity_law()
    ensures { EachObeysParity }
{}
