// What next concerns a cached byte: the lifetime of data in a cache between fill, read, write and evict, after Biswas et al. (ISCA 2005).
//
// - changes: the writes and fills of a line slot;
// - life: the lists of a whole run, and what is asked of them.
//
// Its worked rows are tests of need_rows.
#![tactic(auto)]

mod changes;
mod life;

pub use event_log::Next;
pub use life::{Life, data_life};
