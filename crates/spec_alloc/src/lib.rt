//! The words in which a statement finds, takes and gives back pages and extents, beside the words of plans. All of them
//! stand in `specs/`. They are this project's own.
#![tactic(auto)]
