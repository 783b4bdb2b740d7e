// From tables to code: the check, and then the writer, in memory of a fixed size.
#![tactic(auto)]

ghost use Rattle.std.specs.Prelude.{◌≡◌, map};
ghost use Rattle.compiler.specs.Compiled.{compiled, Holds, position_of};

use answer::Refusal;
use draft::cells::{Cell, Place, Word};
use room::DRAFT_ROOM;
use rules::CODE_LIMIT;
use script::limits::{MAX_FUNCTIONS, MAX_NODES};
use script::{Function, Node, Script};
use statements::LoopLabel;
use writer::write_script;

/// Working memory for the longest draft that there can be, and the code that was written last, at the far end of its tables. Nothing is on a
/// heap, and the words are a table of their own, since the machine takes them alone.
#[derive(Drop)]
pub struct Compiler {
    cells: [Cell; DRAFT_ROOM],
    loops: [LoopLabel; MAX_NODES],
    starts: [usize; MAX_NODES],
    pub entries: [usize; MAX_FUNCTIONS],
    pub words: [i32; CODE_LIMIT],
    pub marks: [usize; CODE_LIMIT],
}

// Lengths up to the end become positions.
fn turn_round(entries: &mut [usize], whole: usize)
    ensures { entries.new ≡ map (position_of whole) entries.old }
{
    for entry in entries.iter_mut() {
        *entry = whole.saturating_sub(*entry);
    }
}

impl Compiler {
    /// Memory that holds no code.
    pub fn new() -> Compiler {
        let cell = Cell {
            word: Word::Number(0),
            mark: 0,
            label: false,
        };
        let label = LoopLabel {
            node: 0,
            out: Place::Behind(0),
        };
        Compiler {
            cells: [cell; DRAFT_ROOM],
            loops: [label; MAX_NODES],
            starts: [0; MAX_NODES],
            entries: [0; MAX_FUNCTIONS],
            words: [0; CODE_LIMIT],
            marks: [0; CODE_LIMIT],
        }
    }

    /// Checks the tables and writes their code; answers where it starts in `words` and `marks`.
    pub fn compile(
        &mut self,
        functions: &[Function],
        globals: &[u8],
        nodes: &[Node],
    ) -> Result<usize, Refusal>
        ensures answer { result ≡ compiled functions.now globals.now nodes.now }
        ensures code { Holds functions.now globals.now nodes.now self.new.words self.new.marks self.new.entries }
    {
        let script = Script::of(functions, globals, nodes)?;
        let start = write_script(
            script,
            &mut self.cells,
            &mut self.loops,
            &mut self.starts,
            &mut self.entries,
            &mut self.words,
            &mut self.marks,
        )?;
        turn_round(&mut self.entries, CODE_LIMIT - start);
        Ok(start)
    }
}
