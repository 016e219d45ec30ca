//! The run of the program: words, source and script in, replies and a status out, over any files, source and sink.
#![tactic(auto)]

mod answers;
mod judging;
mod replies;
mod running;
mod script;
mod status;
mod top;

pub use status::{Status, Stop};
pub use top::slint_run;
