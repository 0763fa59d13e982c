//! The words in which a statement is planned, and, in `specs/`, what they mean: a view that moves as the
//! statement writes, the pages that it reaches, what it takes, and the net changes between the view as it was and as
//! it is. They are this project's own.
#![tactic(auto)]
