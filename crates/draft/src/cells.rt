// The cells of a draft, one for each word of code that is being written, and what they begin with.
ghost use Rattle.std.specs.Prelude.{◌≡◌, ◌≤◌, length, drop, slice_index_or};
ghost use Rattle.std.specs.List.{prefix_len};
ghost use Rattle.draft.specs.Cells.{no_cell, flagged, unlabelled, head_of_word, head_of, return_of_word, return_of, dead_cells};
ghost use Rattle.draft.specs.Operations.{opposite, conditional};

use rules::Instruction;

/// Where a jump goes.
#[derive(Clone, Copy, PartialEq, Eq, Debug)]
pub enum Place {
    /// So many words before the end of the code.
    Behind(usize),
    /// The start of the while with that node, which is known when the whole while is written.
    Loop(usize),
}

/// What one word of the code will be.
#[derive(Clone, Copy, PartialEq, Eq, Debug)]
pub enum Word {
    /// An instruction's number.
    Opcode(Instruction),
    Number(i32),
    /// How many words a call or a return is about.
    Count(u16),
    /// Where a jump goes.
    To(Place),
    /// Where a function enters.
    Entry(usize),
}

/// One word, its mark, and whether a label stands before it.
#[derive(Clone, Copy, PartialEq, Eq, Debug)]
pub struct Cell {
    pub word: Word,
    pub mark: usize,
    pub label: bool,
}

/// What a conditional jump asks of the top of the stack.
#[derive(Clone, Copy, PartialEq, Eq, Debug)]
pub enum Condition {
    Zero,
    Nonzero,
}

impl Condition {
    /// The other condition.
    pub fn opposite(self) -> Condition
        ensures { result ≡ opposite self }
    {
        match self {
            Condition::Zero => Condition::Nonzero,
            Condition::Nonzero => Condition::Zero,
        }
    }

    /// The instruction that jumps so.
    pub fn instruction(self) -> Instruction
        ensures { result ≡ conditional self }
    {
        match self {
            Condition::Zero => Instruction::IfZero,
            Condition::Nonzero => Instruction::IfNzro,
        }
    }
}

/// What code begins with, as far as what is put before it depends on that. Jumps have their place and
/// their mark, and nothing that is labelled counts.
#[derive(Clone, Copy, PartialEq, Eq, Debug)]
pub enum Head {
    /// ADD or SUB.
    Adds,
    /// MUL or DIV.
    Scales,
    /// EQ, with its mark.
    Equals(usize),
    Negates,
    Pops,
    Jumps(Condition, Place, usize),
    Goes(Place),
    Other,
}

// What code begins with, given its first word with its mark, and its second word.
fn head_of_word(word: Word, mark: usize, next: Word) -> Head
    ensures { result ≡ head_of_word word mark next }
{
    match (word, next) {
        (Word::Opcode(Instruction::Add | Instruction::Sub), _) => Head::Adds,
        (Word::Opcode(Instruction::Mul | Instruction::Div), _) => Head::Scales,
        (Word::Opcode(Instruction::Eq), _) => Head::Equals(mark),
        (Word::Opcode(Instruction::Not), _) => Head::Negates,
        (Word::Opcode(Instruction::IncSp), Word::Number(_)) => Head::Pops,
        (Word::Opcode(Instruction::Goto), Word::To(place)) => Head::Goes(place),
        (Word::Opcode(Instruction::IfZero), Word::To(place)) => {
            Head::Jumps(Condition::Zero, place, mark)
        }
        (Word::Opcode(Instruction::IfNzro), Word::To(place)) => {
            Head::Jumps(Condition::Nonzero, place, mark)
        }
        _ => Head::Other,
    }
}

// The operand of RET, if these are its two words.
fn return_of_word(word: Word, next: Word) -> Option<u16>
    ensures { result ≡ return_of_word word next }
{
    match (word, next) {
        (Word::Opcode(Instruction::Ret), Word::Count(count)) => Some(count),
        _ => None,
    }
}

// What stands past the end of code: the definition's own cell for none.
const END: Cell = Cell {
    word: Word::Count(0),
    mark: 0,
    label: true,
};

// The cell at a place of code.
fn cell_at(code: &[Cell], at: usize) -> Cell
    ensures { result ≡ slice_index_or code.now at no_cell }
{
    code.get(at).copied().unwrap_or(END)
}

/// What code begins with.
pub fn head_in(code: &[Cell]) -> Head
    ensures { result ≡ head_of code.now }
{
    let first = cell_at(code, 0);
    if first.label {
        return Head::Other;
    }
    head_of_word(first.word, first.mark, cell_at(code, 1).word)
}

/// The operand of RET, labelled or not, if code begins with one.
pub fn return_in(code: &[Cell]) -> Option<u16>
    ensures { result ≡ return_of code.now }
{
    return_of_word(cell_at(code, 0).word, cell_at(code, 1).word)
}

// How many cells stand before the first label.
fn unlabelled_in(code: &[Cell]) -> usize
    ensures count { result ≡ prefix_len unlabelled code.now }
    ensures within { result ≤ length code.now }
{
    code.iter().take_while(|cell| !cell.label).count()
}

/// How many cells nothing reaches: those before the first label.
#[tactic(auto, using(crate::proofs::Steps::prefix_dead))]
pub fn dead_in(code: &[Cell]) -> usize
    ensures code { drop result code.now ≡ dead_cells code.now }
    ensures within { result ≤ length code.now }
{
    unlabelled_in(code)
}

/// Sets a label before code.
pub fn flag_first(code: &mut [Cell])
    ensures { code.new ≡ flagged code.old }
{
    if let Some(first) = code.first_mut() {
        first.label = true;
    }
}
