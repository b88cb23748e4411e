// The laws of struck bits of clean lines.
ghost use Rattle.clean_lines.specs.CleanLaw.{CleanLaw};

/// Changes nothing; its contract is the law of struck bits of clean lines. From a state with one data bit flipped in a valid clean line
/// each cycle is seen as it would be without the flip, and the bit stays the only difference, until an event of the cache reads its byte,
/// writes it (the states are equal from then on), writes beside it (the line is dirty from then on) or fills the slot (equal from then
/// on). The same holds of a tag bit, up to a fill of the slot, as long as no event is of the slot's line or of the line at distance one.
///
/// After the lifetimes of data and the distance-one analysis of tags of Biswas et al. (ISCA 2005).
pub fn clean_lines_law()
    ensures { CleanLaw }
{}
