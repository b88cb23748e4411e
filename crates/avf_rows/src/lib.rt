// Worked rows of the whole tool: words and files, and the status and texts that they give. There is nothing else here.
#![tactic(auto)]

#[cfg(test)]
mod check_rows;
#[cfg(test)]
mod cycle_rows;
#[cfg(test)]
mod fate_rows;
#[cfg(test)]
mod fault_rows;
#[cfg(test)]
mod faults;
#[cfg(test)]
mod flip_rows;
#[cfg(test)]
mod generated_rows;
#[cfg(test)]
mod image_rows;
#[cfg(test)]
mod images;
#[cfg(test)]
mod plan_rows;
#[cfg(test)]
mod query_rows;
#[cfg(test)]
mod report_rows;
#[cfg(test)]
mod rows;
#[cfg(test)]
mod source_rows;
#[cfg(test)]
mod subjects;
#[cfg(test)]
mod turn_rows;
#[cfg(test)]
mod word_rows;
