// The law that un-ACE is harmless.
ghost use Rattle.ace_law.specs.UnAceLaw.{UnAceIsHarmless};

/// Changes nothing; its contract is the law that where a rule holds of a bit in a cycle of a recorded run, the run that goes on from the
/// state with that bit flipped has the recorded output and end, within the bound.
///
/// After the un-ACE bits of Mukherjee et al. (MICRO 2003) and the lifetimes of Biswas et al. (ISCA 2005); the proof goes by the flush of
/// Burch and Dill (CAV 1994).
pub fn un_ace_law()
    ensures { UnAceIsHarmless }
{}
