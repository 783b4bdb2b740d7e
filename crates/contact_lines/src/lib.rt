// Contact files: a line names a call, with what it is handed.
#![tactic(auto)]

mod lines;

pub use lines::{
    Execution, Fault, Line, PacketPass, SIZE_LIMIT, Trouble, read_line, read_line_without_station,
};
