// The code of a whole script: its functions from the last to the first, the opening before them, and then the words.
//
// The tables that the writer is lent (cells, open loops, starts, entries, words, marks) go down one by one, each to those that use it: a
// struct of loans would say of each field what the clauses say of each table, and its fields would be lent on one by one all the same.
#![tactic(auto)]

ghost use Rattle.std.specs.Prelude.{◌≡◌, ◌+◌, ◌-◌, ◌*◌, ◌^◌, ◌<◌, ◌≤◌, [], length};
ghost use Rattle.rules.specs.Limits.{code_limit};
ghost use Rattle.script.specs.Limits.{max_functions, max_nodes};
ghost use Rattle.script.specs.Scope.{function_at};
ghost use Rattle.scheme.specs.Scheme.{zeros_code, script_code};
ghost use Rattle.draft.specs.Draft as D;
ghost use Rattle.draft.specs.Drafted.{code_of, room_of, IsSameTable};
ghost use Rattle.phrases.specs.Turns.{Turns};
ghost use Rattle.statements.specs.Learns.{Knows, Learns, KnowsEntries, LearnsEntries, IsAsBefore};
ghost use Rattle.room.specs.Bound.{function_room, functions_room, draft_room};
ghost use Rattle.writer.specs.Program.{tree_of, Suits, AllSuit, entered_code, code_from, PlacedOr, answered, WordsIn, MarksIn};

use answer::{NO_PLACE, Reason, Refusal};
use draft::Draft;
use draft::cells::Cell;
use resolving::resolve;
use rules::Instruction;
use script::Script;
use stack::Stack;
use statements::{LoopLabel, put_statement};

// The mark of what has no node of its own: marks go outside, where that number stands for none.
const NO_NODE: usize = NO_PLACE as usize;

// A 0 for each further local.
#[tactic(auto, using(phrases::proofs::Steps::drafting, crate::proofs::FunctionLaws::codes))]
fn put_zeros(draft: &mut Draft, count: u16)
    requires room { 2 * count ≤ room_of draft.old }
    ensures code { Turns (code_of draft.old) (code_of draft.new) (zeros_code count) }
    ensures room { room_of draft.old ≤ room_of draft.new + 2 * count }
    ensures table { IsSameTable draft.old draft.new }
{
    for _i in 0..count {
        draft.put_constant(0, NO_NODE);
    }
}

// A function with its entry. `entries` has for each function how many words there are from its entry to the end of the code.
#[tactic(auto, using(phrases::proofs::Steps::drafting, crate::proofs::FunctionLaws::ends))]
fn put_function(
    script: Script,
    number: usize,
    draft: &mut Draft,
    loops: &mut Stack<'_, LoopLabel>,
    starts: &mut [usize],
    entries: &mut [usize],
)
    requires number { number < length script.functions.now }
    requires suits { Suits script (length loops.old.slots.now - loops.old.used) number }
    requires open { loops.old.used ≤ length loops.old.slots.now }
    requires room { function_room script.nodes.now (function_at script.functions.now number) ≤ room_of draft.old }
    requires starts { length script.nodes.now ≤ length starts.old }
    requires entries { number < length entries.old }
    ensures code { Turns (code_of draft.old) (code_of draft.new) (entered_code script.entry number) }
    ensures room { room_of draft.old ≤ room_of draft.new + function_room script.entry.nodes.now (function_at script.entry.functions.now number) }
    ensures table { IsSameTable draft.old draft.new }
    ensures loops { IsAsBefore loops.old loops.new }
    ensures starts { Learns (code_of draft.old) starts.old starts.new (entered_code script.entry number) }
    ensures entries { LearnsEntries (code_of draft.old) entries.old entries.new (entered_code script.entry number) }
{
    let function = script.functions[number];
    let total = function.parameters + function.locals;
    draft.put_return(total, NO_NODE);
    draft.put_constant(0, NO_NODE);
    put_statement(
        script,
        usize::from(function.body),
        total,
        draft,
        loops,
        starts,
    );
    put_zeros(draft, function.locals);
    draft.flag();
    entries[number] = draft.len();
}

// The functions, from the last to the first, in front of no code.
#[tactic(auto, using(crate::proofs::FunctionLaws::steps))]
fn put_functions(
    script: Script,
    draft: &mut Draft,
    loops: &mut Stack<'_, LoopLabel>,
    starts: &mut [usize],
    entries: &mut [usize],
)
    requires suits { AllSuit script (length loops.old.slots.now - loops.old.used) }
    requires open { loops.old.used ≤ length loops.old.slots.now }
    requires empty { code_of draft.old ≡ [] }
    requires room { functions_room script.nodes.now script.functions.now ≤ room_of draft.old }
    requires starts { length script.nodes.now ≤ length starts.old }
    requires entries { length script.functions.now ≤ length entries.old }
    requires no_loops { Knows starts.old [] }
    requires no_functions { KnowsEntries entries.old [] }
    ensures code { code_of draft.new ≡ D.draft (code_from script.entry 0) }
    ensures room { room_of draft.old ≤ room_of draft.new + functions_room script.entry.nodes.now script.entry.functions.now }
    ensures table { IsSameTable draft.old draft.new }
    ensures loops { IsAsBefore loops.old loops.new }
    ensures starts { Knows starts.new (code_from script.entry 0) }
    ensures entries { KnowsEntries entries.new (code_from script.entry 0) }
{
    for number in (0..script.functions.len()).rev() {
        put_function(script, number, draft, loops, starts, entries);
    }
}

/// The code of a script, at the far end of the tables of words and marks: where it starts, or nothing if it is too long for them.
#[tactic(auto, using(phrases::proofs::Steps::drafting, crate::proofs::FunctionLaws::codes))]
pub fn write_code(
    script: Script,
    cells: &mut [Cell],
    loops: &mut Stack<'_, LoopLabel>,
    starts: &mut [usize],
    entries: &mut [usize],
    words: &mut [i32],
    marks: &mut [usize],
) -> Option<usize>
    requires suits { AllSuit script (length loops.old.slots.now - loops.old.used) }
    requires open { loops.old.used ≤ length loops.old.slots.now }
    requires few { length cells.old < 2 ^ 31 }
    requires room { functions_room script.nodes.now script.functions.now + 5 ≤ length cells.old }
    requires starts { length script.nodes.now ≤ length starts.old }
    requires entries { length script.functions.now ≤ length entries.old }
    requires no_loops { Knows starts.old [] }
    requires no_functions { KnowsEntries entries.old [] }
    requires marks { length marks.old ≡ length words.old }
    ensures placed { PlacedOr words.new marks.new result (script_code (tree_of script.entry)) }
    ensures entries { KnowsEntries entries.new (script_code (tree_of script.entry)) }
{
    let mut draft = Draft::over(cells);
    put_functions(script, &mut draft, loops, starts, entries);
    draft.put_one(Instruction::Stop, NO_NODE);
    draft.put_call(script.functions[0].parameters, 0, NO_NODE);
    draft.put_one(Instruction::LdArgs, NO_NODE);
    let start = words.len().checked_sub(draft.len())?;
    resolve(
        draft.code(),
        starts,
        entries,
        &mut words[start..],
        &mut marks[start..],
    );
    Some(start)
}

/// The code of accepted tables, at the far end of the tables of words and marks: where it starts, or the refusal where it is too long. The
/// other tables are lent for the while; `entries` then has for each function how many words there are from its entry to the end.
pub fn write_script(
    script: Script,
    cells: &mut [Cell],
    loops: &mut [LoopLabel],
    starts: &mut [usize],
    entries: &mut [usize],
    words: &mut [i32],
    marks: &mut [usize],
) -> Result<usize, Refusal>
    requires cells { length cells.old ≡ draft_room }
    requires loops { length loops.old ≡ max_nodes }
    requires starts { length starts.old ≡ max_nodes }
    requires entries { length entries.old ≡ max_functions }
    requires words { length words.old ≡ code_limit }
    requires marks { length marks.old ≡ code_limit }
    ensures answer { result ≡ answered (tree_of script.entry) }
    ensures words { WordsIn words.new (tree_of script.entry) }
    ensures marks { MarksIn marks.new (tree_of script.entry) }
    ensures entries { KnowsEntries entries.new (script_code (tree_of script.entry)) }
{
    starts.fill(0);
    entries.fill(0);
    let mut open = Stack::over(loops);
    write_code(script, cells, &mut open, starts, entries, words, marks).ok_or(Refusal::of(
        Reason::CodeLength,
    ))
}
