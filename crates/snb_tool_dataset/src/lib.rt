//! The commands that read a dataset and run no plan: `check`, `read`, `walk`, `validate` and `expect`. What answers
//! their reads is handed in.
#![tactic(auto)]

mod check_command;
mod expect_command;
mod read_command;
mod validate_command;
mod walk_command;

pub use check_command::check;
pub use expect_command::expect;
pub use read_command::read;
pub use validate_command::validate;
pub use walk_command::walk;
