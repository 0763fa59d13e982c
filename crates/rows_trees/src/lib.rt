//! The worked rows of the pages that objects own: the page test, rows and keys, trees and their links, and `page`.
#![tactic(auto)]

#[cfg(test)]
mod fault_tests;
#[cfg(test)]
mod link_tests;
#[cfg(test)]
mod page_rule_tests;
#[cfg(test)]
mod page_tests;
#[cfg(test)]
mod part_tests;
#[cfg(test)]
mod tree_tests;
#[cfg(test)]
mod trees;
#[cfg(test)]
mod width_tests;
