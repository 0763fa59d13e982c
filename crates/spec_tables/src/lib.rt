//! The words in which a check speaks of the objects of a file: the pages that it sees of an object, the
//! line that counts them, and the whole report (all are this project's own).
#![tactic(auto)]
