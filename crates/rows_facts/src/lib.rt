//! The tests of a check's parts: its maps and their errors, the facts of pages, how they are matched, and a scan.
#![tactic(auto)]

#[cfg(test)]
mod made;
#[cfg(test)]
mod merge_tests;
#[cfg(test)]
mod owner_tests;
#[cfg(test)]
mod page_tests;
#[cfg(test)]
mod read_tests;
#[cfg(test)]
mod rule_tests;
#[cfg(test)]
mod scan_tests;
#[cfg(test)]
mod together_tests;
