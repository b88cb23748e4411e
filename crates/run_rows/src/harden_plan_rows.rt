// Rows of harden_plan: that the text comes with ample memory. The plans are worked out by hand from the report of a run of three
// instructions.
use crate::runs::three_counts;
use ace_class::Counts;
use harden_plan::{best, plan_text};
use std::alloc::Global;
use std::test::Fail;

/// How many bits may be protected, and the best plan in words.
struct Row(u32, &'static str);

static ROWS: [Row; 4] = [
    Row(0, "bits 0\nace 0\nof 468\n"),
    Row(146, "bits 146\nace 267\nof 468\nnpc\nexmem\nmemwb\n"),
    Row(262, "bits 262\nace 372\nof 468\nnpc\nidex\nexmem\n"),
    Row(
        12711,
        "bits 555\nace 468\nof 468\nnpc\nib\nidex\nexmem\nmemwb\n",
    ),
];

fn is_so(alloc: Global, counts: &Counts, row: &Row) -> Result<bool, Fail> {
    Ok(plan_text(alloc, &best(counts, row.0), counts)?.as_str() == row.1)
}

#[test]
fn plans_within_so_many_bits(rt: HostRuntime) -> Result<(), Fail> {
    let counts = three_counts();
    for row in &ROWS {
        assert!(rt; is_so(rt.alloc(), &counts, row)?);
    }
    Ok(())
}
