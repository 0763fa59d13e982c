//! The words in which the crates above speak of steps that statements make on an image: which bits, bytes and pages
//! change at most, what stands there then, and what is left to other objects. All of them stand in `specs/`.
#![tactic(auto)]
