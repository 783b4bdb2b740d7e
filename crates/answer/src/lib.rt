// What the calls answer: how a run ended, or why a call was refused, each with its place.
#![tactic(auto)]

ghost use Rattle.std.specs.Prelude.{◌≡◌};
ghost use Rattle.answer.specs.Numbers.{ending_number, reason_number, place_number, refused, refused_at};

use std::fmt;

/// The number by which no place is known outside: what a refusal or an ending names when there is no particular one.
pub const NO_PLACE: u32 = 65_535;

/// How a run ended.
#[derive(Clone, Copy, PartialEq, Eq, Debug)]
pub enum Ending {
    /// STOP was reached, or main returned.
    Finished = 0,
    /// A division or a remainder by 0.
    DivisorZero = 1,
    /// An index outside its global, an address outside the words in use.
    IndexOutside = 2,
    /// A print on a board that has as many readings as its page.
    PageFull = 3,
    /// A call or a jump back with no turn left.
    NoTurnLeft = 4,
    /// A call that would go deeper than allowed.
    TooDeep = 5,
    /// A number that is no instruction's.
    UnknownInstruction = 6,
    /// A position outside the code, or an operand that the code lacks.
    OutsideCode = 7,
    /// No room on the stack for what an instruction puts there.
    StackFull = 8,
    /// Fewer words on the stack than an instruction takes.
    TooFewWords = 9,
    /// A return where nothing was called.
    NoCaller = 10,
    /// A negative count of words in a call or a return.
    NegativeCount = 11,
}

impl Ending {
    /// The number by which an ending is known outside, 0 to 11.
    pub fn number(self) -> u8
        ensures { result ≡ ending_number self }
    {
        self as u8
    }
}

/// What a run answers.
#[derive(Clone, Copy, PartialEq, Eq, Debug)]
pub struct Answer {
    pub ending: Ending,
    /// Where the run ended: a position in loose code, which may lie outside it; a node of a script, or `NO_PLACE`. It is no option, since
    /// a position may be any word.
    pub place: i32,
    /// The value of a finished run, else 0: the answer goes out with a value whatever the ending.
    pub value: i32,
    /// Turns spent.
    pub turns: u32,
    /// The greatest depth entered.
    pub depth: u32,
}

/// Why a call was refused.
#[derive(Clone, Copy, PartialEq, Eq, Debug)]
pub enum Reason {
    /// A table, a count or a body's number outside its limits.
    Limits = 20,
    /// A kind, a number or a sort that does not fit where it stands.
    Shape = 21,
    /// A node that is not used exactly once.
    Uses = 22,
    /// A wrong count of arguments, or a local that its function lacks.
    Scope = 23,
    /// Expressions that nest too deep.
    Nesting = 24,
    /// Code that is too long.
    CodeLength = 25,
    /// No script is loaded.
    NothingLoaded = 30,
    /// Turns or depth outside what may be allowed.
    Allowance = 31,
    /// A stack that is too short for the depth allowed.
    StackLength = 32,
    /// Another number of inputs than main takes.
    InputCount = 33,
    /// Loose code, or a stack, that is too long, or more starting words than stack.
    Sizes = 34,
    /// A packet of another length than one with 1 to 8 counts.
    PacketLength = 40,
    /// A length field that does not tell the packet's length.
    LengthField = 41,
    /// A version, a type or a secondary header flag that is not 0.
    HeaderFlags = 42,
    /// An output without room for a header.
    OutputLength = 43,
    /// An application number or a sequence count that an output packet cannot have.
    OutputHeader = 44,
}

impl Reason {
    /// The number by which a reason is known outside, 20 to 44.
    pub fn number(self) -> u8
        ensures { result ≡ reason_number self }
    {
        self as u8
    }
}

/// A refusal: its reason, and the node at fault, if one is.
#[derive(Clone, Copy, PartialEq, Eq, Debug)]
pub struct Refusal {
    pub reason: Reason,
    pub place: Option<u32>,
}

impl Refusal {
    /// A refusal that names no place.
    pub fn of(reason: Reason) -> Refusal
        ensures { result ≡ refused reason }
    {
        Refusal {
            reason,
            place: None,
        }
    }

    /// A refusal for what is wrong with a node.
    pub fn at(reason: Reason, node: u32) -> Refusal
        ensures { result ≡ refused_at reason node }
    {
        Refusal {
            reason,
            place: Some(node),
        }
    }

    /// The number by which the place is known outside: the node's, or `NO_PLACE`.
    pub fn place_number(self) -> u32
        ensures { result ≡ place_number self.place }
    {
        self.place.unwrap_or(NO_PLACE)
    }
}

impl fmt::Display for Answer {
    fn fmt<W: fmt::Write>(&self, f: &mut fmt::Formatter<W>) -> fmt::Result {
        let ending = self.ending.number();
        let Answer {
            ending: _,
            place,
            value,
            turns,
            depth,
        } = *self;
        write!(
            f,
            "ended {ending} {place} value {value} turns {turns} depth {depth}"
        )
    }
}

impl fmt::Display for Refusal {
    fn fmt<W: fmt::Write>(&self, f: &mut fmt::Formatter<W>) -> fmt::Result {
        let reason = self.reason.number();
        let place = self.place_number();
        write!(f, "refused {reason} {place}")
    }
}
