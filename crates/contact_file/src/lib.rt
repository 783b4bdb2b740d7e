// Contact files: a line names a call, with the numbers that it is handed. A program without a station plays one.
#![tactic(auto)]

mod playing;

pub use contact_lines::{
    Execution, Fault, Line, SIZE_LIMIT, Trouble, read_line_without_station as read_line,
};
pub use playing::play;
