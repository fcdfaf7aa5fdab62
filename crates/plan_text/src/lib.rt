//! What a run is asked to profile, and how: the plan, and the words that name a method. Admission looks the methods up.
#![tactic(auto)]

mod lines;
mod numbers;
mod plan;
mod roots;

pub use lines::{answer_is_one, read_plan, silent};
pub use numbers::number_of;
pub use plan::{Action, LineCause, Plan, PlanError, RootName, plan_of_root};
pub use roots::name_slashed;
