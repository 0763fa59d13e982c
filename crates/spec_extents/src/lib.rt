//! The words in which the crates above speak of one extent: what it shows of itself, when that is good, of which
//! kind it is, and how a statement changes it. All of them stand in `specs/`.
#![tactic(auto)]
