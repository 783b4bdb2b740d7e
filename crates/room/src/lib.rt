// How much room a draft takes at most.
#![tactic(auto)]

ghost use Rattle.room.specs.Bound.{DraftsHaveRoom, LoopsHaveRoom};

use script::limits::{MAX_FUNCTIONS, MAX_LOCALS, MAX_NODES};

/// The cells that the draft of any accepted script takes at most: 19 for each node, two for each local and four for each function, and the
/// opening's five.
pub const DRAFT_ROOM: usize = 19 * MAX_NODES + (2 * MAX_LOCALS + 4) * MAX_FUNCTIONS + 5;

/// That room suffices. It does nothing: its contract is the theorem.
pub fn drafts_have_room()
    ensures { DraftsHaveRoom }
{}

/// There are never more open loops than a script may have nodes. It does nothing: its contract is the theorem.
pub fn loops_have_room()
    ensures { LoopsHaveRoom }
{}
