//! Worked examples of the whole program, as tests: `opc_run` over a host in memory.
//!
//! `files` makes layouts of rectangles and kernel files, `drawing` layouts of any shapes and references, `hosts` what a
//! host holds of them, and `runs` runs a line of words over them and compares the status and what was said. Each other
//! module has the rows of one subject, with numbers that were found by hand.
#![tactic(auto)]

#[cfg(test)]
mod assist_rows;
#[cfg(test)]
mod condition_rows;
#[cfg(test)]
mod cut_rows;
#[cfg(test)]
mod device_rows;
#[cfg(test)]
mod drawing;
#[cfg(test)]
mod failure_rows;
#[cfg(test)]
mod fault_rows;
pub mod files;
#[cfg(test)]
mod host_rows;
pub mod hosts;
#[cfg(test)]
mod kernel_rows;
#[cfg(test)]
mod layout_rows;
#[cfg(test)]
mod limit_rows;
#[cfg(test)]
mod line_rows;
#[cfg(test)]
mod order_rows;
#[cfg(test)]
mod outputs;
#[cfg(test)]
mod placement_rows;
#[cfg(test)]
mod polygon_rows;
#[cfg(test)]
mod print_rows;
#[cfg(test)]
mod probe_rows;
#[cfg(test)]
mod refusal_rows;
#[cfg(test)]
mod rules;
#[cfg(test)]
mod runs;
#[cfg(test)]
mod shape_rows;
#[cfg(test)]
mod sharing_rows;
#[cfg(test)]
mod table_rows;
#[cfg(test)]
mod tool_layout;
#[cfg(test)]
mod tool_rows;
#[cfg(test)]
mod trial_input_rows;
#[cfg(test)]
mod trial_rows;
#[cfg(test)]
mod word_rows;
