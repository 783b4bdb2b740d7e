// The memory of a station, and what is done with it at once.
ghost use Rattle.std.specs.Prelude.{◌≡◌, [], drop};
ghost use Rattle.history.specs.declared.Said.TheVariants.{Done};
ghost use Rattle.history.specs.Calls.{clear as clear_call};
ghost use Rattle.history.specs.History.{start as start_state};
ghost use Rattle.station.specs.Held.{code_of, marks_of, Agrees, Follows, Cleared};

use crate::globals::Globals;
use rules::CODE_LIMIT;

/// What is loaded: code with its marks, at the far end of tables of fixed length, and the script's globals.
/// Words and marks are two tables, since the machine takes the words alone.
#[derive(Drop)]
pub struct Station {
    pub(crate) code: [i32; CODE_LIMIT],
    /// For each word of code the node that it was written for.
    pub(crate) marks: [u16; CODE_LIMIT],
    /// Where the code starts in its table.
    pub(crate) start: usize,
    /// How many inputs main takes; none where nothing is loaded.
    pub(crate) inputs: Option<usize>,
    pub(crate) globals: Globals,
}

// what stands in a table from some place on, nothing past its end: where the code starts is within its table, but that is proved of it
// once, by what a station means, and not kept beside it
fn far_end<T>(table: &[T], from: usize) -> &[T]
    ensures { result.now ≡ drop from table.now }
{
    table.get(from..).unwrap_or(&[])
}

impl Station {
    /// A station with nothing loaded, and no globals.
    pub fn new() -> Station
        ensures { Agrees start_state result }
    {
        Station {
            code: [0; CODE_LIMIT],
            marks: [0; CODE_LIMIT],
            start: CODE_LIMIT,
            inputs: None,
            globals: Globals::zeros(0),
        }
    }

    /// The globals as they are.
    pub fn globals(&self) -> Globals
        ensures { result ≡ self.now.globals }
    {
        self.globals
    }

    /// The words of the code that is loaded.
    pub fn code(&self) -> &[i32]
        ensures { result.now ≡ code_of self.now }
    {
        far_end(&self.code, self.start)
    }

    /// The mark of each word of the code.
    pub(crate) fn marks(&self) -> &[u16]
        ensures { result.now ≡ marks_of self.now }
    {
        far_end(&self.marks, self.start)
    }

    /// Sets all globals to 0.
    #[tactic(auto, using(crate::proofs::Agreeing::cleared_does))]
    pub fn clear(&mut self)
        ensures left { Cleared self.old self.new }
        ensures does { Follows self.old clear_call Done [] self.new }
    {
        self.globals.clear();
    }
}
