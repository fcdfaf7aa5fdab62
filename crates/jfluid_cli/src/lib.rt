//! The command jfluid: from its words to a status, over any files and streams.
#![tactic(auto)]

mod causes;
mod devices;
mod images;
mod input;
mod kept;
mod loading;
mod making;
mod plans;
mod refusal;
mod reporting;
mod running;
mod status;
mod top;
mod words;

pub use devices::Devices;
pub use kept::Kept;
pub use status::exit_status;
pub use top::jfluid;
