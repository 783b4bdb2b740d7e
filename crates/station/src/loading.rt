// A load: the tables of a script become code in the station's memory.
ghost use Rattle.std.specs.Prelude.{◌≡◌, [], MatchResult};
ghost use Rattle.script.specs.Fault.{answer_of};
ghost use Rattle.history.specs.Calls.{load as load_call, tables, load_refusal};
ghost use Rattle.station.specs.Held.{Follows};
ghost use Rattle.station.specs.Passed.{LoadedFrom, done_of};

use crate::globals::Globals;
use crate::held::Station;
use crate::known::know_constants;
use crate::tables::{fill_entries, main_inputs, narrow_marks};
use answer::Refusal;
use compiler::Compiler;
use script::limits::words_of;
use script::{Function, Node};

impl Station {
    /// Checks the tables of a script and takes over its code, with all globals 0. An accepted load fills in where each function
    /// enters; a refused one changes nothing.
    pub fn load(
        &mut self,
        functions: &mut [Function],
        globals: &[u8],
        nodes: &[Node],
    ) -> Result<(), Refusal>
        ensures answer { result ≡ answer_of (load_refusal (tables functions.entry.now globals.now nodes.now)) }
        ensures left { MatchResult result
            (λ _. LoadedFrom (tables functions.entry.now globals.now nodes.now) self.new functions.exit.now)
            (λ _. (self.new ≡ self.old) × (functions.exit.now ≡ functions.entry.now)) }
        ensures does { Follows self.old (load_call (tables functions.entry.now globals.now nodes.now)) (done_of result) [] self.new }
    {
        let mut compiler = Compiler::new();
        let start = compiler.compile(functions, globals, nodes)?;
        know_constants(nodes);
        self.code = compiler.words;
        self.marks = narrow_marks(compiler.marks);
        self.start = start;
        self.inputs = Some(main_inputs(functions));
        self.globals = Globals::zeros(words_of(globals));
        fill_entries(functions, &compiler.entries);
        Ok(())
    }
}
