//! The tests of the devices, in memory and of the system, of the pages of a file in memory, and of a new file.
#![tactic(auto)]

#[cfg(test)]
mod device_tests;
#[cfg(test)]
mod frame_tests;
#[cfg(test)]
mod made;
#[cfg(test)]
mod new_file_tests;
