// The code of a statement, written in front of a draft. The start of a loop is known only when the whole loop is written: until then it is on
// the stack of open loops, and jumps to it name the loop.
#![tactic(auto)]

ghost use Rattle.std.specs.Prelude.{◌+◌, ◌<◌, ◌≤◌, length};
ghost use Rattle.meaning.specs.Tables.{stmt_at};
ghost use Rattle.scheme.specs.Scheme.{stmt_code};
ghost use Rattle.draft.specs.Drafted.{code_of, room_of, IsSameTable};
ghost use Rattle.phrases.specs.Turns.{Turns};
ghost use Rattle.reading.specs.Nodes.{IsStatement, whiles};
ghost use Rattle.reading.specs.Room.{stmt_room};
ghost use Rattle.statements.specs.Learns.{Learns, IsAsBefore};

use draft::Draft;
use draft::cells::{Place, Word};
use expressions::{put_arguments, put_expression};
use reading::{Statement, statement_at};
use rules::Instruction;
use script::Script;
use stack::Stack;

/// A loop that is being written: its node, and where its test jumps out. Open loops are in lent memory, as all that the writer keeps.
#[derive(Clone, Copy, PartialEq, Eq, Debug)]
pub struct LoopLabel {
    pub node: usize,
    pub out: Place,
}

/// A statement of a function that has `total` parameters and locals. `starts` has for each loop's node how many words there are from its
/// start to the end of the code.
#[tactic(auto, using(phrases::proofs::Steps::drafting, crate::proofs::StmtLaws::codes, crate::proofs::StmtLaws::ends))]
pub fn put_statement(
    script: Script,
    n: usize,
    total: u16,
    draft: &mut Draft,
    loops: &mut Stack<'_, LoopLabel>,
    starts: &mut [usize],
)
    requires node { n < length script.nodes.now }
    requires sort { IsStatement script.nodes.now n }
    requires room { stmt_room (stmt_at script.nodes.now n) ≤ room_of draft.old }
    requires open { loops.old.used + whiles (stmt_at script.nodes.now n) ≤ length loops.old.slots.now }
    requires starts { length script.nodes.now ≤ length starts.old }
    ensures code { Turns (code_of draft.old) (code_of draft.new) (stmt_code script.entry.globals.now total (stmt_at script.entry.nodes.now n)) }
    ensures room { room_of draft.old ≤ room_of draft.new + stmt_room (stmt_at script.entry.nodes.now n) }
    ensures table { IsSameTable draft.old draft.new }
    ensures loops { IsAsBefore loops.old loops.new }
    ensures starts { Learns (code_of draft.old) starts.old starts.new (stmt_code script.entry.globals.now total (stmt_at script.entry.nodes.now n)) }
{
    match statement_at(script.functions, script.nodes, n) {
        Statement::Nothing => {}
        Statement::Then(a, b) => {
            put_statement(script, b, total, draft, loops, starts);
            put_statement(script, a, total, draft, loops, starts);
        }
        Statement::Evaluate(a) => {
            draft.put_two(Instruction::IncSp, Word::Number(-1), n);
            put_expression(script, a, draft);
        }
        Statement::If(a, b, c) => {
            let exit = draft.put_way();
            put_statement(script, c, total, draft, loops, starts);
            let to = draft.put_label();
            draft.put_exit(exit, n);
            put_statement(script, b, total, draft, loops, starts);
            draft.put_jump(Instruction::IfZero, to, n);
            put_expression(script, a, draft);
        }
        Statement::While(a, b) => {
            let out = draft.put_label();
            // There is room for it: the contract asks for that.
            let _ = loops.push(LoopLabel { node: n, out });
            draft.put_goto(Place::Loop(n), n);
            put_statement(script, b, total, draft, loops, starts);
            let Some(open) = loops.pop() else {
                unreachable!()
            };
            draft.put_jump(Instruction::IfZero, open.out, open.node);
            put_expression(script, a, draft);
            draft.flag();
            starts[open.node] = draft.len();
        }
        Statement::Return(a) => {
            draft.put_return(total, n);
            put_expression(script, a, draft);
        }
        Statement::Replace(m, f, count, list) => {
            draft.put_replacing(count, total, f, m);
            put_arguments(script, list, draft);
        }
    }
}
