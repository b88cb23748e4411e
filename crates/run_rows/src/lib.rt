//! Worked rows of recorded runs, of runs with flipped bits, and of what is told of a run: reports, plans, campaigns and maps. There is
//! nothing else here.
#![tactic(auto)]

#[cfg(test)]
mod avf_report_rows;
#[cfg(test)]
mod class_map_rows;
#[cfg(test)]
mod flip_replay_rows;
#[cfg(test)]
mod harden_plan_rows;
#[cfg(test)]
mod run_log_rows;
#[cfg(test)]
mod runs;
#[cfg(test)]
mod strike_campaign_rows;
