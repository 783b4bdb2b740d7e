// Lists of calls: made one after another on a new station, each with its entry beside it.
#![tactic(auto)]

ghost use Rattle.std.specs.Prelude.{◌≡◌, [], map, min, length};
ghost use Rattle.agreement.specs.Agreement.{stack_words};
ghost use Rattle.history.specs.Calls.{pass as pass_call, plain_pass, packet_pass};
ghost use Rattle.station.specs.Held.{Follows};
ghost use Rattle.station.specs.Passed.{said_of};
ghost use Rattle.station.specs.Packets.{said_packet, length_of, readings_in};
ghost use Rattle.calls.specs.Stacks.{Beyond};

use answer::{Answer, Refusal};
use board::Board;
use history::Said;
use machine::Allowance;
use script::{Function, Node};
use station::{Globals, PacketAnswer, Station};

/// A call with all that it is handed.
#[derive(Drop)]
pub enum Call<B: Board> {
    /// Loads the script in three tables; an accepted load fills each function's entry position in.
    Load {
        functions: Vec<Function>,
        globals: Vec<u8>,
        nodes: Vec<Node>,
    },
    /// Runs the loaded script on a board. It is handed the first `words` words of the stack, or all of a shorter one.
    Pass {
        allowed: Allowance,
        words: usize,
        board: B,
    },
    /// Runs the loaded script on an input packet, likewise, and completes an output packet of `length` bytes, 0 where there is none,
    /// as a packet pass answers it.
    Packet {
        allowed: Allowance,
        words: usize,
        input: Vec<u8>,
        output: Vec<u8>,
        apid: u16,
        count: u16,
        length: usize,
    },
    /// Sets all globals to 0.
    Clear,
}

/// A call, and its entry: what it said, and the globals after it. The readings are on its board, or in its output packet.
#[derive(Drop)]
pub struct Line<B: Board> {
    pub call: Call<B>,
    pub said: Said,
    pub globals: Globals,
    /// How many words of code are loaded after the call.
    pub code: usize,
}

// a pass that is handed the first `words` words of a stack, or all of a shorter one
fn hand_pass<B: Board>(
    station: &mut Station,
    allowed: Allowance,
    words: usize,
    stack: &mut [i32],
    board: &mut B,
) -> Result<Answer, Refusal>
    ensures does { Follows station.old (pass_call (plain_pass allowed (min words (length stack.old)) (B.means board.old))) (said_of result) (B.means board.new).readings station.new }
    ensures beyond { Beyond (stack_words allowed.depth) stack.old stack.new }
    ensures lent { B.lent board.new ≡ B.lent board.old }
{
    let long = words.min(stack.len());
    station.pass(allowed, &mut stack[..long], board)
}
