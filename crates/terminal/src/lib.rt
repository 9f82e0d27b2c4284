//! A host at which a person sits: it prompts, gives the session one line at a time, and shows each reply as people read it.
//!
//! It stands on `real_host` for the file, the input and the output, and on `people` for what is shown. Every line that a person types reaches the
//! session as it was typed, but for those that ask for help; before a line that shows a view the session is asked for its structures, of which
//! nobody sees the reply. So the store is that of `mkshell`, and what is proved of a run holds of this one.
#![tactic(auto)]

mod line;
mod screen;
mod showing;
mod terminal;
mod verb;

pub use terminal::Terminal;
