// The code of an expression, and of a list of arguments, written in front of a draft.
#![tactic(auto)]

ghost use Rattle.std.specs.Prelude.{◌≡◌, ◌+◌, ◌<◌, ◌≤◌, length};
ghost use Rattle.script.specs.Limits.{max_words};
ghost use Rattle.meaning.specs.Meaning.{first_word};
ghost use Rattle.meaning.specs.Tables.{expr_at, args_at};
ghost use Rattle.scheme.specs.Scheme.{operator_code, expr_code, args_code};
ghost use Rattle.draft.specs.Drafted.{code_of, room_of, IsSameTable};
ghost use Rattle.phrases.specs.Turns.{Turns};
ghost use Rattle.reading.specs.Nodes.{IsExpression, IsList, operator_read};
ghost use Rattle.reading.specs.Room.{expr_room, args_room};

use draft::Draft;
use phrases::address::{put_element, put_local, put_number};
use phrases::ways::{put_and, put_or};
use reading::{Arguments, Expression, Operator, arguments_at, expression_at};
use rules::Instruction;
use script::Script;
use script::limits::words_of;

/// An operator, its operands on the stack.
#[tactic(auto, using(phrases::proofs::Steps::drafting))]
pub fn put_operator(draft: &mut Draft, operator: Operator, mark: usize)
    requires room { 4 ≤ room_of draft.old }
    ensures code { Turns (code_of draft.old) (code_of draft.new) (operator_code (operator_read operator) mark) }
    ensures room { room_of draft.old ≤ room_of draft.new + 4 }
    ensures table { IsSameTable draft.old draft.new }
{
    match operator {
        Operator::Add => draft.put_one(Instruction::Add, mark),
        Operator::Sub => draft.put_one(Instruction::Sub, mark),
        Operator::Mul => draft.put_one(Instruction::Mul, mark),
        Operator::Div => draft.put_one(Instruction::Div, mark),
        Operator::Rem => draft.put_one(Instruction::Mod, mark),
        Operator::Equal => draft.put_one(Instruction::Eq, mark),
        Operator::Unequal => {
            draft.put_not(mark);
            draft.put_one(Instruction::Eq, mark);
        }
        Operator::Less => draft.put_one(Instruction::Lt, mark),
        Operator::NotLess => {
            draft.put_not(mark);
            draft.put_one(Instruction::Lt, mark);
        }
        Operator::Greater => {
            draft.put_one(Instruction::Lt, mark);
            draft.put_one(Instruction::Swap, mark);
        }
        Operator::NotGreater => {
            draft.put_not(mark);
            draft.put_one(Instruction::Lt, mark);
            draft.put_one(Instruction::Swap, mark);
        }
    }
}

// The word at which a global begins: they lie end to end.
#[tactic(auto, using(crate::proofs::Words::first_sum))]
fn first_word(script: Script, g: usize) -> usize
    requires { g ≤ length script.globals.now }
    ensures value { result ≡ first_word script.entry.globals.now g }
    ensures few { result ≤ max_words }
{
    words_of(&script.globals[..g])
}

/// An expression, which leaves its value on the stack.
#[cycle(put_arguments_put_expression)]
#[tactic(auto, using(phrases::proofs::Steps::drafting, crate::proofs::Trees::codes))]
pub fn put_expression(script: Script, n: usize, draft: &mut Draft)
    requires node { n < length script.nodes.now }
    requires sort { IsExpression script.nodes.now n }
    requires room { expr_room (expr_at script.nodes.now n) ≤ room_of draft.old }
    ensures code { Turns (code_of draft.old) (code_of draft.new) (expr_code script.entry.globals.now (expr_at script.entry.nodes.now n)) }
    ensures room { room_of draft.old ≤ room_of draft.new + expr_room (expr_at script.entry.nodes.now n) }
    ensures table { IsSameTable draft.old draft.new }
{
    match expression_at(script, n) {
        Expression::Constant(v) => draft.put_constant(v, n),
        Expression::Local(k) => {
            draft.put_one(Instruction::Ldi, n);
            put_local(draft, k, n);
        }
        Expression::Global(g) => {
            draft.put_one(Instruction::Ldi, n);
            put_number(draft, first_word(script, g), n);
        }
        Expression::Element(g, len, b) => {
            draft.put_one(Instruction::Ldi, n);
            put_element(draft, usize::from(len), first_word(script, g), n);
            put_expression(script, b, draft);
        }
        Expression::SetLocal(k, b) => {
            draft.put_one(Instruction::Sti, n);
            put_expression(script, b, draft);
            put_local(draft, k, n);
        }
        Expression::SetGlobal(g, b) => {
            draft.put_one(Instruction::Sti, n);
            put_expression(script, b, draft);
            put_number(draft, first_word(script, g), n);
        }
        Expression::SetElement(g, len, b, c) => {
            draft.put_one(Instruction::Sti, n);
            put_expression(script, c, draft);
            put_element(draft, usize::from(len), first_word(script, g), n);
            put_expression(script, b, draft);
        }
        Expression::Not(a) => {
            draft.put_not(n);
            put_expression(script, a, draft);
        }
        Expression::Print(a) => {
            draft.put_one(Instruction::Printi, n);
            put_expression(script, a, draft);
        }
        Expression::Binary(operator, a, b) => {
            put_operator(draft, operator, n);
            put_expression(script, b, draft);
            put_expression(script, a, draft);
        }
        // && and || differ in the way out and in the jump to it: an arm for both would tell them apart twice.
        Expression::And(a, b) => {
            let out = put_and(draft, n);
            put_expression(script, b, draft);
            draft.put_jump(Instruction::IfZero, out.to, out.mark);
            put_expression(script, a, draft);
        }
        Expression::Or(a, b) => {
            let out = put_or(draft, n);
            put_expression(script, b, draft);
            draft.put_jump(Instruction::IfNzro, out.to, out.mark);
            put_expression(script, a, draft);
        }
        Expression::Call(f, count, list) => {
            draft.put_call(count, f, n);
            put_arguments(script, list, draft);
        }
    }
}

/// A list of arguments, which leaves its values, the last on top.
#[cycle(put_arguments_put_expression)]
#[tactic(auto, using(phrases::proofs::Steps::drafting, crate::proofs::Trees::codes))]
pub fn put_arguments(script: Script, n: usize, draft: &mut Draft)
    requires node { n < length script.nodes.now }
    requires sort { IsList script.nodes.now n }
    requires room { args_room (args_at script.nodes.now n) ≤ room_of draft.old }
    ensures code { Turns (code_of draft.old) (code_of draft.new) (args_code script.entry.globals.now (args_at script.entry.nodes.now n)) }
    ensures room { room_of draft.old ≤ room_of draft.new + args_room (args_at script.entry.nodes.now n) }
    ensures table { IsSameTable draft.old draft.new }
{
    match arguments_at(script.nodes, n) {
        Arguments::Empty => {}
        Arguments::Also(a, b) => {
            put_arguments(script, b, draft);
            put_expression(script, a, draft);
        }
    }
}
