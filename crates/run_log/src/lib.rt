// The recorded run: the machine runs an image from reset to its end, and what it showed on the way is kept.
//
// `recording` makes the run; the record itself is `run_record`'s.
//
// Its worked rows are tests of run_rows.
#![tactic(auto)]

mod recording;

pub use recording::{RecordError, record, record_shaped};
pub use run_record::{LONGEST_RUN, Recorded};
