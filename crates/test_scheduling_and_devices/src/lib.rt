//! Tests of the scheduler and of lanes, by tables, and of what no stored case of the program shows: devices that fail
//! in mid-stream or take a byte at a time, files for which there is no memory, the gate, and the lines that tell how
//! far a run is.
#![tactic(auto)]

#[cfg(test)]
mod beside_jobs;
#[cfg(test)]
mod device_tests;
#[cfg(test)]
mod gate_tests;
#[cfg(test)]
mod handing_over;
#[cfg(test)]
mod log_tests;
#[cfg(test)]
mod orders;
#[cfg(test)]
mod plays;
#[cfg(test)]
mod progress_tests;
#[cfg(test)]
mod schedulers;
#[cfg(test)]
mod test_world;
