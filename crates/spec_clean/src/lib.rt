//! The words in which the crates above speak of a file in which a check finds nothing wrong: its parts, each with the
//! resource that guards what it reads. All of them stand in `specs/`.
#![tactic(auto)]
