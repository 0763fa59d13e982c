//! All statements of a script, in `specs/`: CREATE HEAP and DROP in the words of plans, and the one table that says what
//! becomes of each. They are this project's own.
#![tactic(auto)]
