//! The top call: from the words of the program and the bytes of its input to the bytes that it says and its status.
//!
//! It reads the words, attaches the file, opens its store or makes one, greets, and serves lines with a session; or it looks at a
//! store as a whole, makes one by the lines of a sample, says the stream of one, or makes one of a stream. Its contract is the promise of the whole program: each status says which
//! bytes were said, and what a crash at any moment would have left.
#![tactic(auto)]

mod answering;
mod checking;
mod ending;
mod fault;
mod laws;
mod loading;
mod own_lines;
mod refusing;
mod rooms;
mod running;
mod sampling;
mod saving;
mod serving;
mod status;

pub use fault::FileFault;
pub use laws::runs_are_answered;
pub use refusing::refuse;
pub use rooms::Rooms;
pub use running::{run, serve_file};
pub use serving::serve;
pub use status::Status;
