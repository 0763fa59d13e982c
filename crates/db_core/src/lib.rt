//! Sessions that take turns over one file and one log. The core keeps all pages and a plain list of
//! items; each turn is one of the turns of `spec_run` (the session's rules are this project's own).
#![tactic(auto)]

mod advance;
mod back;
mod begin;
mod bytes;
mod checks;
mod db;
mod holders;
mod out;
mod plans;
mod reading;
mod replay;
mod session;
mod stage;
mod starts;
mod state;
mod statement_view;
mod steps;
mod turns;

pub use db::Core;
pub use out::TurnOut;
