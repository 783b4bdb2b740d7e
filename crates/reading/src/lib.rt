// A node of accepted tables, read once: what it is, the numbers that it names, and its children by their numbers.
#![tactic(auto)]

ghost use Rattle.std.specs.Prelude.{◌≡◌, ℕ, ◌<◌, List, length, pos, unsigned_abs};
ghost use Rattle.script.specs.Kinds.{operators};
ghost use Rattle.script.specs.Shaped.{Children};
ghost use Rattle.script.specs.Sound.{Sound};
ghost use Rattle.meaning.specs.Tables.{operator, expr_at, args_at, stmt_at};
ghost use Rattle.reading.specs.Nodes.{IsExpression, IsList, IsStatement, operator_read, expr_read, ExprParts, args_read, ArgsParts, stmt_read, StmtParts, whiles};
ghost use Rattle.reading.specs.Room.{expr_room, args_room, stmt_room};

use script::kinds::Kind;
use script::{Function, Node, Script};

/// An operator of two numbers.
#[derive(Clone, Copy, PartialEq, Eq, Debug)]
pub enum Operator {
    Add,
    Sub,
    Mul,
    Div,
    Rem,
    Equal,
    Unequal,
    Less,
    NotLess,
    Greater,
    NotGreater,
}

/// A node that is an expression. A global comes with its length where that is tested, a call with how many arguments it has.
#[derive(Clone, Copy, PartialEq, Eq, Debug)]
pub enum Expression {
    Constant(i32),
    Local(i32),
    Global(usize),
    Element(usize, u8, usize),
    SetLocal(i32, usize),
    SetGlobal(usize, usize),
    SetElement(usize, u8, usize, usize),
    Not(usize),
    Print(usize),
    Binary(Operator, usize, usize),
    And(usize, usize),
    Or(usize, usize),
    Call(usize, u16, usize),
}

/// A node that is a list of arguments.
#[derive(Clone, Copy, PartialEq, Eq, Debug)]
pub enum Arguments {
    Empty,
    Also(usize, usize),
}

/// A node that is a statement. A returned call replaces its caller, and comes with its own node.
#[derive(Clone, Copy, PartialEq, Eq, Debug)]
pub enum Statement {
    Nothing,
    Then(usize, usize),
    Evaluate(usize),
    If(usize, usize, usize),
    While(usize, usize),
    Return(usize),
    Replace(usize, usize, u16, usize),
}

// The numbers in a node's fields, without their signs: one that names something has none.
fn numbers_in(node: &Node) -> (usize, usize, usize)
    ensures a { result.0 ≡ unsigned_abs node.now.a }
    ensures b { result.1 ≡ unsigned_abs node.now.b }
    ensures c { result.2 ≡ unsigned_abs node.now.c }
{
    (
        node.a.unsigned_abs() as usize,
        node.b.unsigned_abs() as usize,
        node.c.unsigned_abs() as usize,
    )
}

impl Operator {
    // The operator with that number.
    fn of(number: usize) -> Operator
        requires { number < operators }
        ensures { operator_read result ≡ operator (pos number) }
    {
        match number {
            0 => Operator::Add,
            1 => Operator::Sub,
            2 => Operator::Mul,
            3 => Operator::Div,
            4 => Operator::Rem,
            5 => Operator::Equal,
            6 => Operator::Unequal,
            7 => Operator::Less,
            8 => Operator::NotLess,
            9 => Operator::Greater,
            10 => Operator::NotGreater,
            _ => unreachable!(),
        }
    }
}

/// The expression at a node.
pub fn expression_at(script: Script, n: usize) -> Expression
    requires within { n < length script.nodes.now }
    requires sort { IsExpression script.nodes.now n }
    ensures tree { expr_at script.entry.nodes.now n ≡ expr_read script.entry.nodes.now n result }
    ensures room { expr_room (expr_at script.entry.nodes.now n) ≡ expr_room (expr_read script.entry.nodes.now n result) }
    ensures parts { ExprParts script.entry.functions.now script.entry.globals.now script.entry.nodes.now n result }
{
    let node = &script.nodes[n];
    let (a, b, c) = numbers_in(node);
    match script.kind(n) {
        Kind::Constant => Expression::Constant(node.a),
        Kind::Local => Expression::Local(node.a),
        Kind::Global => Expression::Global(a),
        Kind::Element => Expression::Element(a, script.globals[a], b),
        Kind::SetLocal => Expression::SetLocal(node.a, b),
        Kind::SetGlobal => Expression::SetGlobal(a, b),
        Kind::SetElement => Expression::SetElement(a, script.globals[a], b, c),
        Kind::Not => Expression::Not(a),
        Kind::Print => Expression::Print(a),
        Kind::Binary => Expression::Binary(Operator::of(c), a, b),
        Kind::And => Expression::And(a, b),
        Kind::Or => Expression::Or(a, b),
        Kind::Call => Expression::Call(a, script.functions[a].parameters, b),
        _ => unreachable!(),
    }
}

/// The list of arguments at a node. It reads no other table than the nodes, so it asks nothing of the others.
pub fn arguments_at(nodes: &[Node], n: usize) -> Arguments
    requires children { Children nodes.now }
    requires within { n < length nodes.now }
    requires sort { IsList nodes.now n }
    ensures tree { args_at nodes.now n ≡ args_read nodes.now n result }
    ensures room { args_room (args_at nodes.now n) ≡ args_room (args_read nodes.now n result) }
    ensures parts { ArgsParts nodes.now n result }
{
    let node = &nodes[n];
    let (a, b, _) = numbers_in(node);
    match node.kind() {
        Ok(Kind::NoArguments) => Arguments::Empty,
        Ok(Kind::Argument) => Arguments::Also(a, b),
        _ => unreachable!(),
    }
}

/// The statement at a node. It takes two tables and no `Script`: it reads nothing of the globals, so it asks for none.
pub fn statement_at(functions: &[Function], nodes: &[Node], n: usize) -> Statement
    requires sound { (gs : List ℕ) × Sound functions.now gs nodes.now }
    requires within { n < length nodes.now }
    requires sort { IsStatement nodes.now n }
    ensures tree { stmt_at nodes.now n ≡ stmt_read nodes.now n result }
    ensures room { stmt_room (stmt_at nodes.now n) ≡ stmt_room (stmt_read nodes.now n result) }
    ensures nest { whiles (stmt_at nodes.now n) ≡ whiles (stmt_read nodes.now n result) }
    ensures parts { StmtParts functions.now nodes.now n result }
{
    let node = &nodes[n];
    let (a, b, c) = numbers_in(node);
    match node.kind() {
        Ok(Kind::Nothing) => Statement::Nothing,
        Ok(Kind::Sequence) => Statement::Then(a, b),
        Ok(Kind::Evaluate) => Statement::Evaluate(a),
        Ok(Kind::If) => Statement::If(a, b, c),
        Ok(Kind::While) => Statement::While(a, b),
        Ok(Kind::Return) if matches!(nodes[a].kind(), Ok(Kind::Call)) => {
            let (f, list, _) = numbers_in(&nodes[a]);
            Statement::Replace(a, f, functions[f].parameters, list)
        }
        Ok(Kind::Return) => Statement::Return(a),
        _ => unreachable!(),
    }
}
