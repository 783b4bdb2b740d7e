// Reads tables of scripts, and prints for each what the check answers.
//
// A line `function P L B`, `global N` or `node K A B C` adds a record to the tables, and the same after
// `set I` takes the place of record I. Numbers left out are 0. A line `check` checks the tables as they
// stand, `new` empties them, and a line `# text` is printed as it is.
#![tactic(auto)]

use script::{Function, Node, check};
use std::alloc::Global;
use std::io;
use std::str::SplitWhitespace;

/// One record of a script's tables.
#[derive(Clone, Copy, PartialEq, Eq, Debug)]
enum Record {
    Function(Function),
    Global(u8),
    Node(Node),
}

/// The tables as they stand. A contact file's program has such tables too; a library for the two would be longer than both.
#[derive(Drop)]
struct Tables {
    functions: Vec<Function>,
    globals: Vec<u8>,
    nodes: Vec<Node>,
}

impl Tables {
    fn new(heap: Global) -> Tables {
        Tables {
            functions: Vec::new(heap),
            globals: Vec::new(heap),
            nodes: Vec::new(heap),
        }
    }

    fn add(&mut self, record: Record) -> io::Result<()> {
        match record {
            Record::Function(function) => self.functions.push(function)?,
            Record::Global(global) => self.globals.push(global)?,
            Record::Node(node) => self.nodes.push(node)?,
        }
        Ok(())
    }

    fn set(&mut self, i: usize, record: Record) {
        match record {
            Record::Function(function) => replace(self.functions.as_mut_slice(), i, function),
            Record::Global(global) => replace(self.globals.as_mut_slice(), i, global),
            Record::Node(node) => replace(self.nodes.as_mut_slice(), i, node),
        }
    }
}

fn replace<T: Copy>(records: &mut [T], i: usize, record: T) {
    if let Some(old) = records.get_mut(i) {
        *old = record;
    }
}

/// The next of a line's words as a number; 0 where there is none.
fn number(words: &mut SplitWhitespace) -> i32 {
    words
        .next()
        .and_then(|word| word.parse::<i32>().ok())
        .unwrap_or(0)
}

// Two widths, a line each: one function for both would be handed the greatest number as well, and be no shorter.

/// The next number of a line where it fits a byte, else 255.
fn byte(words: &mut SplitWhitespace) -> u8 {
    u8::try_from(number(words)).unwrap_or(u8::MAX)
}

/// The next number of a line where it fits two bytes, else 65535.
fn half(words: &mut SplitWhitespace) -> u16 {
    u16::try_from(number(words)).unwrap_or(u16::MAX)
}

/// The record that a word begins, read from the words after it.
fn read_record(word: &str, words: &mut SplitWhitespace) -> Option<Record> {
    match word {
        "function" => Some(Record::Function(Function {
            parameters: half(words),
            locals: half(words),
            body: half(words),
            entry: 0,
        })),
        "global" => Some(Record::Global(byte(words))),
        "node" => Some(Record::Node(Node {
            kind: byte(words),
            a: number(words),
            b: number(words),
            c: number(words),
        })),
        _ => None,
    }
}

fn main(rt: HostRuntime) -> io::Result<()> {
    let heap = rt.alloc();
    let mut tables = Tables::new(heap);
    for line in rt.lines(heap) {
        let line = line?;
        let text = line.as_str();
        let mut words = text.split_whitespace();
        match words.next() {
            None => {}
            Some("#") => println!(rt; "{text}")?,
            Some("new") => tables = Tables::new(heap),
            Some("check") => match check(
                tables.functions.as_slice(),
                tables.globals.as_slice(),
                tables.nodes.as_slice(),
            ) {
                Ok(()) => println!(rt; "accepted")?,
                Err(refusal) => println!(rt; "{refusal}")?,
            },
            Some("set") => {
                let place = usize::try_from(number(&mut words));
                let word = words.next().unwrap_or("");
                if let (Ok(i), Some(record)) = (place, read_record(word, &mut words)) {
                    tables.set(i, record);
                }
            }
            Some(word) => {
                if let Some(record) = read_record(word, &mut words) {
                    tables.add(record)?;
                }
            }
        }
    }
    Ok(())
}
