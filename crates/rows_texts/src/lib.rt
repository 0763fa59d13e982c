//! The tests of scripts, words, items of the log and texts, and of the sources, the file and the log that a run opens.
#![tactic(auto)]

#[cfg(test)]
mod expect;
#[cfg(test)]
mod item_tests;
#[cfg(test)]
mod log_tests;
#[cfg(test)]
mod opening_tests;
#[cfg(test)]
mod script_tests;
#[cfg(test)]
mod source_tests;
#[cfg(test)]
mod text_tests;
#[cfg(test)]
mod word_tests;
