// The rules by which bits are un-ACE, and the law that what they call un-ACE is harmless.
//
// Nothing is computed here: the rules stand in specs (PipelineRules, MemoryRules, Classes), over the cycles of a recorded run (Moments), and
// the contract of one empty function carries the law.
#![tactic(auto)]

mod laws;

pub use laws::un_ace_law;
