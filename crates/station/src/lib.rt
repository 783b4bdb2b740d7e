// The station: it loads a script, runs it on boards and on packets, and keeps its globals from one pass to the next.
//
// An allowance and a stack go side by side through every pass, as the machine takes them: both are handed to each call anew, and whether
// the one is long enough for the other is what a pass tests.
#![tactic(auto)]

mod globals;
mod held;
mod known;
mod loading;
mod packets;
mod passing;
mod tables;

pub use globals::Globals;
pub use held::Station;
pub use packets::PacketAnswer;
