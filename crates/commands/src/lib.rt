//! What a caller tells a command and is told by it: the words of a command, what is to be done and
//! which files are opened for it; how a run ends, its status, the line that tells a fault, and the
//! texts that a command replies.
#![tactic(auto)]

mod command;
mod cone;
mod fault;
mod files;
mod held;
pub mod laws;
mod licence;
pub mod line_laws;
mod lines;
mod naming;
mod numbers;
mod reply;
mod status;
mod weights;
mod words;

pub use command::{Command, Files, Task, command_in};
pub use files::Paths;
pub use licence::licence_line;
pub use naming::paths;
pub use numbers::number_of;
pub use reply::{Reply, fault_reply, refused_reply, step_reply};
pub use status::{LogRefusal, Status};
pub use weights::weights_of;
