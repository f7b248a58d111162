//! Files and streams of the commands: the line that a command prints, the file that it writes, and the files that it must not overwrite.
#![tactic(auto)]

mod line;
mod out_file;
mod overwriting;
mod saying;
mod watching;

pub use line::Line;
pub use out_file::OutFile;
pub use overwriting::{is_same, leads_to};
pub use saying::{
    TAKEN, put_executable, put_file, put_out, say, say_memory, say_port, say_unwritten, say_usage,
    tell, unread,
};
pub use watching::Watching;
