//! Plans: checked statements with what their names mean, found once per statement. No call takes memory.
#![tactic(auto)]

mod column;
mod plan;
mod target;
mod terms;

pub use column::PlannedColumn;
pub use plan::{Plan, check_insert, plan_delete, plan_select, plan_update};
pub use target::Target;
