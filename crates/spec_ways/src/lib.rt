//! The words in which the crates above speak of the way towards a key in a clustered table's tree, and of rows
//! put there and taken: all of them stand in `specs/`.
#![tactic(auto)]
