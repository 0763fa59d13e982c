//! Statements are planned: their words carried out on the view of a transaction, and what they change and take found
//! there.
#![tactic(auto)]

mod limits;
mod part;
mod planned;
mod refusals;
mod statements;

pub use limits::planned_bytes;
pub use part::{Part, part_of};
pub use planned::{Plan, PlanAt};
pub use statements::plan;
