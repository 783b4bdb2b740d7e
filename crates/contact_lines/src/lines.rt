// One line of a contact file, read.
ghost use Rattle.std.specs.Prelude.{◌≤◌, IfOk};
ghost use Rattle.contact_lines.specs.Limited.{size_limit, Runnable, Packable, Limited, IsStationless};

use machine::Allowance;
use script::{Function, Node};
use std::alloc::{AllocError, AllocFailed, Global};
use std::fmt;
use std::str::{FromStr, SplitWhitespace};

/// The most words of a stack, words of a page and bytes of an output that a line may ask for.
pub const SIZE_LIMIT: u32 = 1_000_000;

/// What a line asks for.
#[derive(Drop)]
pub enum Line {
    /// To be printed as it is.
    Comment,
    Blank,
    /// More words of loose code.
    Code(Vec<i32>),
    /// More starting words.
    Words(Vec<i32>),
    Execute(Execution),
    /// One more function of the tables.
    Function(Function),
    /// One more global, of this length.
    Global(u8),
    /// One more node of the tables.
    Node(Node),
    /// The tables are complete.
    Load,
    Pass(Execution),
    Packet(PacketPass),
    Clear,
}

/// What a script, or loose code, is run with.
#[derive(Drop)]
pub struct Execution {
    pub allowed: Allowance,
    /// How many words the stack has. Those above the starting words, if there are any, begin as zeros.
    pub stack: usize,
    /// How many readings the board has room for.
    pub page: usize,
    pub inputs: Vec<i32>,
}

/// What a script is run with on a packet.
#[derive(Drop)]
pub struct PacketPass {
    pub allowed: Allowance,
    /// How many words the stack has.
    pub stack: usize,
    /// How many bytes there are for the output packet.
    pub output: usize,
    /// The output's application number.
    pub apid: u16,
    /// The output's sequence count.
    pub count: u16,
    /// The bytes of the input packet.
    pub input: Vec<u8>,
}

/// Why a line cannot be read, and the word of it that is at fault, if one is. The word is no part of the trouble: those
/// who tell troubles apart compare them without it.
#[derive(Clone, Copy, Drop)]
pub struct Fault<'a> {
    pub trouble: Trouble,
    pub word: Option<&'a str>,
}

#[derive(Clone, Copy, PartialEq, Eq, Debug)]
pub enum Trouble {
    /// The line begins with no known word.
    UnknownWord,
    /// The line begins with the word of a station's call, for a program that has no station.
    NotServed,
    /// A number that the line should have is not there, or a packet's bytes.
    Missing,
    /// What should be a number is none, or does not fit where it stands.
    Number,
    /// A stack or a page over the limit.
    Size,
    /// An output over the limit.
    OutputSize,
    /// What should be bytes is not two hexadecimal digits for each.
    Bytes,
    /// A word behind the last that the line can have.
    TooMany,
    /// There is no memory for what the line holds.
    Memory,
}

impl<'a> Fault<'a> {
    // a fault that no word of the line is to blame for
    fn of(trouble: Trouble) -> Fault<'a> {
        Fault {
            trouble,
            word: None,
        }
    }

    fn at(trouble: Trouble, word: &'a str) -> Fault<'a> {
        Fault {
            trouble,
            word: Some(word),
        }
    }
}

impl<'a> From<AllocError> for Fault<'a> {
    fn from(_e: AllocError) -> Fault<'a> {
        Fault::of(Trouble::Memory)
    }
}

impl<'a, T: Drop> From<AllocFailed<T>> for Fault<'a> {
    fn from(_e: AllocFailed<T>) -> Fault<'a> {
        Fault::of(Trouble::Memory)
    }
}

impl fmt::Display for Fault<'_> {
    fn fmt<W: fmt::Write>(&self, f: &mut fmt::Formatter<W>) -> fmt::Result {
        // a missing number and missing memory show no word
        let word = self.word.unwrap_or("");
        match self.trouble {
            Trouble::UnknownWord => write!(f, "no line begins with '{word}'"),
            Trouble::NotServed => write!(
                f,
                "'{word}' is for a station, which this program does not have yet"
            ),
            Trouble::Missing => write!(f, "a number is missing"),
            Trouble::Number => write!(f, "'{word}' is no number that fits here"),
            Trouble::Size => write!(f, "'{word}' is more than {SIZE_LIMIT} words"),
            Trouble::OutputSize => write!(f, "'{word}' is more than {SIZE_LIMIT}"),
            Trouble::Bytes => write!(f, "'{word}' is no bytes in hexadecimal"),
            Trouble::TooMany => write!(f, "'{word}' is one word too many"),
            Trouble::Memory => write!(f, "no memory is left"),
        }
    }
}

// the number that a word writes, in the range of its type
fn number<'a, T: FromStr>(word: &'a str) -> Result<T, Fault<'a>>
where
    T::Err: Drop,
{
    word.parse().map_err(|_| Fault::at(Trouble::Number, word))
}

// the bytes that a word writes in hexadecimal; `-` writes none
fn bytes<'a>(heap: Global, word: &'a str) -> Result<Vec<u8>, Fault<'a>> {
    let mut list = Vec::new(heap);
    if word == "-" {
        return Ok(list);
    }
    for digits in word.as_bytes().chunks(2) {
        let byte = byte_of(digits).ok_or(Fault::at(Trouble::Bytes, word))?;
        list.push(byte)?;
    }
    Ok(list)
}

// one byte, of two hexadecimal digits; the last of a word may lack its second
fn byte_of(digits: &[u8]) -> Option<u8> {
    let [high, low] = digits else {
        return None;
    };
    let high = char::from(*high).to_digit(16)?;
    let low = char::from(*low).to_digit(16)?;
    Some((high * 16 + low) as u8)
}

// the words of a line that are still to be read
#[derive(Drop)]
struct Words<'a> {
    left: SplitWhitespace<'a>,
}

impl<'a> Words<'a> {
    fn of(text: &'a str) -> Words<'a> {
        Words {
            left: text.split_whitespace(),
        }
    }

    fn word(&mut self) -> Result<&'a str, Fault<'a>> {
        self.left.next().ok_or(Fault::of(Trouble::Missing))
    }

    fn number<T: FromStr>(&mut self) -> Result<T, Fault<'a>>
    where
        T::Err: Drop,
    {
        number(self.word()?)
    }

    // a number within the limit; `over` is what is wrong with a greater one
    fn size(&mut self, over: Trouble) -> Result<usize, Fault<'a>>
        ensures { IfOk result (λ n. n ≤ size_limit) }
    {
        let word = self.word()?;
        let n: u32 = number(word)?;
        if n > SIZE_LIMIT {
            return Err(Fault::at(over, word));
        }
        Ok(n as usize)
    }

    fn allowance(&mut self) -> Result<Allowance, Fault<'a>> {
        Ok(Allowance {
            turns: self.number()?,
            depth: self.number()?,
        })
    }

    // a field of a node, which may be left out
    fn field(&mut self) -> Result<i32, Fault<'a>> {
        match self.left.next() {
            Some(word) => number(word),
            None => Ok(0),
        }
    }

    // all the numbers that are left
    fn numbers(self, heap: Global) -> Result<Vec<i32>, Fault<'a>> {
        let mut list = Vec::new(heap);
        for word in self.left {
            list.push(number(word)?)?;
        }
        Ok(list)
    }

    // no word is left
    fn end(mut self) -> Result<(), Fault<'a>> {
        match self.left.next() {
            Some(word) => Err(Fault::at(Trouble::TooMany, word)),
            None => Ok(()),
        }
    }
}

fn read_execution<'a>(heap: Global, mut words: Words<'a>) -> Result<Execution, Fault<'a>>
    ensures { IfOk result Runnable }
{
    Ok(Execution {
        allowed: words.allowance()?,
        stack: words.size(Trouble::Size)?,
        page: words.size(Trouble::Size)?,
        inputs: words.numbers(heap)?,
    })
}

fn read_packet<'a>(heap: Global, mut words: Words<'a>) -> Result<PacketPass, Fault<'a>>
    ensures { IfOk result Packable }
{
    let pass = PacketPass {
        allowed: words.allowance()?,
        stack: words.size(Trouble::Size)?,
        output: words.size(Trouble::OutputSize)?,
        apid: words.number()?,
        count: words.number()?,
        input: bytes(heap, words.word()?)?,
    };
    words.end()?;
    Ok(pass)
}

fn read_function<'a>(mut words: Words<'a>) -> Result<Function, Fault<'a>> {
    let function = Function {
        parameters: words.number()?,
        locals: words.number()?,
        body: words.number()?,
        entry: 0,
    };
    words.end()?;
    Ok(function)
}

fn read_global<'a>(mut words: Words<'a>) -> Result<u8, Fault<'a>> {
    let length = words.number()?;
    words.end()?;
    Ok(length)
}

fn read_node<'a>(mut words: Words<'a>) -> Result<Node, Fault<'a>> {
    let node = Node {
        kind: words.number()?,
        a: words.field()?,
        b: words.field()?,
        c: words.field()?,
    };
    words.end()?;
    Ok(node)
}

// What a line says whose first word is that of no station's call.
fn read_stationless<'a>(
    heap: Global,
    word: &'a str,
    mut words: Words<'a>,
) -> Result<Line, Fault<'a>>
    ensures limited { IfOk result Limited }
    ensures served { IfOk result IsStationless }
{
    match word {
        "code" => Ok(Line::Code(words.numbers(heap)?)),
        "words" => Ok(Line::Words(words.numbers(heap)?)),
        "execute" => Ok(Line::Execute(read_execution(heap, words)?)),
        "function" => Ok(Line::Function(read_function(words)?)),
        "global" => Ok(Line::Global(read_global(words)?)),
        "node" => Ok(Line::Node(read_node(words)?)),
        "load" => {
            words.end()?;
            Ok(Line::Load)
        }
        "pass" | "packet" | "clear" => Err(Fault::at(Trouble::NotServed, word)),
        _ => Err(Fault::at(Trouble::UnknownWord, word)),
    }
}

/// Reads one line for a program that has no station: whatever else a line says that begins with the word of a
/// station's call, it is not served.
pub fn read_line_without_station<'a>(heap: Global, text: &'a str) -> Result<Line, Fault<'a>>
    ensures limited { IfOk result Limited }
    ensures served { IfOk result IsStationless }
{
    if text.starts_with('#') {
        return Ok(Line::Comment);
    }
    let mut words = Words::of(text);
    match words.left.next() {
        None => Ok(Line::Blank),
        Some(word) => read_stationless(heap, word, words),
    }
}

/// Reads one line. Whatever it says, its sizes are within the limit.
pub fn read_line<'a>(heap: Global, text: &'a str) -> Result<Line, Fault<'a>>
    ensures { IfOk result Limited }
{
    // before its words are looked for: a comment may be one long word
    if text.starts_with('#') {
        return Ok(Line::Comment);
    }
    let mut words = Words::of(text);
    match words.left.next() {
        None => Ok(Line::Blank),
        Some("pass") => Ok(Line::Pass(read_execution(heap, words)?)),
        Some("packet") => Ok(Line::Packet(read_packet(heap, words)?)),
        Some("clear") => {
            words.end()?;
            Ok(Line::Clear)
        }
        Some(word) => read_stationless(heap, word, words),
    }
}
