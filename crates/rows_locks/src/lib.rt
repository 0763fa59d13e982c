//! The tests of what a statement is planned over: the lock table, and on a view in memory a heap whose rows are
//! counted and found by their key, and that gets one more, tables that come and go, what a statement changes and takes,
//! and how it is planned.
#![tactic(auto)]

#[cfg(test)]
mod alloc_tests;
#[cfg(test)]
mod changes;
#[cfg(test)]
mod count_tests;
#[cfg(test)]
mod give_back_tests;
#[cfg(test)]
mod insert_tests;
#[cfg(test)]
mod lock_tests;
#[cfg(test)]
mod made;
#[cfg(test)]
mod net_tests;
#[cfg(test)]
mod page_cases;
#[cfg(test)]
mod page_refusals;
#[cfg(test)]
mod page_tests;
#[cfg(test)]
mod plan_tests;
#[cfg(test)]
mod select_tests;
#[cfg(test)]
mod table_limits;
#[cfg(test)]
mod table_refusals;
#[cfg(test)]
mod table_tests;
