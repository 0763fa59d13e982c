//! The tests of pages and their parts: headers, map bits and PFS bytes, rows, slots, the catalog, IAM pages, heap
//! pages, and the pages of a new file.
#![tactic(auto)]

#[cfg(test)]
mod catalog_tests;
#[cfg(test)]
mod header_tests;
#[cfg(test)]
mod heap_tests;
#[cfg(test)]
mod made;
#[cfg(test)]
mod new_page_tests;
#[cfg(test)]
mod place_tests;
#[cfg(test)]
mod row_tests;
#[cfg(test)]
mod slot_tests;
