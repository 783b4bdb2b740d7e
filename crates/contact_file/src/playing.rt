// Plays a contact file: makes each call that a line names, and prints what came of it.
use anyhow::anyhow;
use board::TableBoard;
use compiler::Compiler;
use contact_lines::{Execution, Fault, Line, read_line_without_station};
use machine::execute;
use rules::CODE_LIMIT;
use script::{Function, Node};
use std::alloc::{AllocError, Global};
use std::fmt::{self, Display};
use std::io::{BufRead, BufReader};

// what was collected for the next execute
#[derive(Drop)]
struct Loose {
    code: Vec<i32>,
    words: Vec<i32>,
}

impl Loose {
    fn new(heap: Global) -> Loose {
        Loose {
            code: Vec::new(heap),
            words: Vec::new(heap),
        }
    }
}

// the tables that were collected for the next load
#[derive(Drop)]
struct Tables {
    functions: Vec<Function>,
    globals: Vec<u8>,
    nodes: Vec<Node>,
}

impl Tables {
    fn new(heap: Global) -> Tables {
        Tables {
            functions: Vec::new(heap),
            globals: Vec::new(heap),
            nodes: Vec::new(heap),
        }
    }
}

// a stack of so many words, zeros but for the starting words at its front
fn stack_of(heap: Global, size: usize, words: &[i32]) -> Result<Vec<i32>, AllocError> {
    let mut stack = Vec::with_capacity(heap, size)?;
    // no more of them than fit: a stack that is too short for them is refused, and costs its own size
    stack.extend_from_slice(words.get(..size).unwrap_or(words))?;
    stack.resize(size, 0)?;
    Ok(stack)
}

// numbers, shown behind their count
#[derive(Drop)]
struct Counted<'a, T>(&'a [T]);

impl<T: Display> Display for Counted<'_, T> {
    fn fmt<W: fmt::Write>(&self, f: &mut fmt::Formatter<W>) -> fmt::Result {
        write!(f, "{}", self.0.len())?;
        for number in self.0 {
            write!(f, " {number}")?;
        }
        Ok(())
    }
}

fn print_execution(rt: &HostRuntime, said: &impl Display, readings: &[i32]) -> anyhow::Result<()> {
    println!(rt; "execute {said} readings {}", Counted(readings))?;
    Ok(())
}

fn run_code(rt: &HostRuntime, loose: &Loose, asked: &Execution) -> anyhow::Result<()> {
    let heap = rt.alloc();
    let words = loose.words.as_slice();
    let mut stack = stack_of(heap, asked.stack, words)?;
    let mut page = stack_of(heap, asked.page, &[])?;
    let mut board = TableBoard::over(asked.inputs.as_slice(), page.as_mut_slice());
    match execute(
        asked.allowed,
        loose.code.as_slice(),
        stack.as_mut_slice(),
        words.len(),
        &mut board,
    ) {
        Ok(answer) => print_execution(rt, &answer, board.readings()),
        Err(refusal) => print_execution(rt, &refusal, board.readings()),
    }
}

fn load_tables(rt: &HostRuntime, compiler: &mut Compiler, tables: &Tables) -> anyhow::Result<()> {
    let functions = tables.functions.as_slice();
    match compiler.compile(
        functions,
        tables.globals.as_slice(),
        tables.nodes.as_slice(),
    ) {
        Ok(start) => {
            // The start is within the table and the functions are as many as entries at most; what is printed rests on neither.
            let words = CODE_LIMIT.saturating_sub(start);
            let entries = compiler
                .entries
                .get(..functions.len())
                .unwrap_or(&compiler.entries);
            println!(rt; "load ok words {words} entries {}", Counted(entries))?;
        }
        Err(refusal) => println!(rt; "load {refusal}")?,
    }
    Ok(())
}

// what is wrong, with the number of the line
fn at_line<'a>(heap: Global, number: usize, fault: Fault<'a>) -> anyhow::Result<()> {
    Err(anyhow!(format!(in heap; "line {number}: {fault}")?))
}

/// Plays the contact file on standard input. A line that cannot be read ends it.
pub fn play(rt: &HostRuntime) -> anyhow::Result<()> {
    let heap = rt.alloc();
    let mut loose = Loose::new(heap);
    let mut tables = Tables::new(heap);
    let mut compiler = Compiler::new();
    for (i, line) in BufReader::new(heap, rt.stdin())?.lines(heap).enumerate() {
        let text = line?;
        match read_line_without_station(heap, text.as_str()) {
            Ok(Line::Comment) => rt.println(text.as_str())?,
            Ok(Line::Blank) => {}
            Ok(Line::Code(more)) => loose.code.extend_from_slice(more.as_slice())?,
            Ok(Line::Words(more)) => loose.words.extend_from_slice(more.as_slice())?,
            Ok(Line::Execute(asked)) => {
                run_code(rt, &loose, &asked)?;
                loose = Loose::new(heap);
            }
            Ok(Line::Function(function)) => tables.functions.push(function)?,
            Ok(Line::Global(length)) => tables.globals.push(length)?,
            Ok(Line::Node(node)) => tables.nodes.push(node)?,
            Ok(Line::Load) => {
                load_tables(rt, &mut compiler, &tables)?;
                tables = Tables::new(heap);
            }
            // the reader refuses a station's calls
            Ok(Line::Pass(_) | Line::Packet(_) | Line::Clear) => unreachable!(),
            Err(fault) => return at_line(heap, i + 1, fault),
        }
    }
    Ok(())
}
