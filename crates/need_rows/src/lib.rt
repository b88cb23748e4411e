//! Worked rows of need, of masks and of lifetimes: small programs and logs by hand, and what is answered of them. There is nothing else
//! here.
#![tactic(auto)]

#[cfg(test)]
mod change_list_rows;
#[cfg(test)]
mod dead_class_rows;
#[cfg(test)]
mod eval_mask_rows;
#[cfg(test)]
mod event_log_rows;
#[cfg(test)]
mod line_life_rows;
#[cfg(test)]
mod need_pass_rows;
#[cfg(test)]
mod runs;
#[cfg(test)]
mod slot_history_rows;
#[cfg(test)]
mod tag_dist_rows;
