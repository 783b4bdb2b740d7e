// What is put in front of the code of a draft. None of it can fail for room: the caller has it.
ghost use Rattle.std.specs.Prelude.{◌≡◌, ◌+◌, ◌≤◌, ◌∷◌, length};
ghost use Rattle.meaning.specs.Words.{is_zero, flag};
ghost use Rattle.draft.specs.Cells.{cell, dead_cells};
ghost use Rattle.draft.specs.Drafted.{code_of, room_of, IsSameTable, PositionsStay};
ghost use Rattle.draft.specs.Operations.{place_mark, jump_put, reaches, goto_put, not_put, constant, planned, plan_of, off, constant_put, target_of, labelled_cells, exit_of, left_cells, returned, exit_put, called, replaced};

use crate::Draft;
use crate::cells::{Condition, Head, Place, Word};
use rules::Instruction;

// What becomes of a constant before the code.
#[derive(Clone, Copy)]
pub(crate) enum Plan {
    Write,
    /// It vanishes, with so many words.
    Skip(usize),
    /// It becomes NOT, with EQ, whose mark this is.
    Negate(usize),
    /// It takes NOT in, and looks again.
    Again,
    /// It becomes GOTO, with the conditional jump.
    Jump(Place, usize),
}

/// How code gets past other code to what follows: by a return, or by a jump.
#[derive(Clone, Copy, PartialEq, Eq, Debug)]
pub enum Exit {
    Return(u16),
    Go(Place),
}

impl Place {
    // The mark of a jump there: a jump to a loop carries the loop's.
    fn mark_of(self, mark: usize) -> usize
        ensures { result ≡ place_mark self mark }
    {
        match self {
            Place::Behind(_) => mark,
            Place::Loop(node) => node,
        }
    }

    // Whether it is where the last `size` words begin.
    fn reaches(self, size: usize) -> bool
        ensures { result ≡ reaches self size }
    {
        match self {
            Place::Behind(n) => n == size,
            Place::Loop(_) => false,
        }
    }
}

// NOT of a constant.
fn negated(value: i32) -> i32
    ensures { result ≡ flag (is_zero value) }
{
    i32::from(value == 0)
}

fn plan_for(head: Head, zero: bool, one: bool) -> Plan
    ensures { result ≡ planned head zero one }
{
    match head {
        Head::Adds if zero => Plan::Skip(1),
        Head::Scales if one => Plan::Skip(1),
        Head::Equals(mark) if zero => Plan::Negate(mark),
        Head::Adds | Head::Scales | Head::Equals(_) => Plan::Write,
        Head::Negates => Plan::Again,
        Head::Pops => Plan::Skip(2),
        Head::Jumps(Condition::Zero, place, mark) if zero => Plan::Jump(place, mark),
        Head::Jumps(Condition::Nonzero, place, mark) if !zero => Plan::Jump(place, mark),
        Head::Jumps(..) => Plan::Skip(2),
        Head::Goes(_) | Head::Other => Plan::Write,
    }
}

impl Draft<'_> {
    /// An instruction without operands.
    pub fn put_one(&mut self, instruction: Instruction, mark: usize)
        requires room { 1 ≤ room_of self.old }
        ensures code { code_of self.new ≡ cell (Word.Opcode instruction) mark ∷ code_of self.old }
        ensures room { room_of self.new + 1 ≡ room_of self.old }
        ensures table { IsSameTable self.old self.new }
    {
        self.lay(Word::Opcode(instruction), mark);
    }

    /// An instruction with one operand.
    pub fn put_two(&mut self, instruction: Instruction, operand: Word, mark: usize)
        requires room { 2 ≤ room_of self.old }
        ensures code { code_of self.new ≡ cell (Word.Opcode instruction) mark ∷ (cell operand mark ∷ code_of self.old) }
        ensures room { room_of self.new + 2 ≡ room_of self.old }
        ensures table { IsSameTable self.old self.new }
    {
        self.lay(operand, mark);
        self.lay(Word::Opcode(instruction), mark);
    }

    /// CALL, with the count of arguments and the function.
    pub fn put_call(&mut self, count: u16, function: usize, mark: usize)
        requires room { 3 ≤ room_of self.old }
        ensures code { code_of self.new ≡ called count function mark (code_of self.old) }
        ensures room { room_of self.new + 3 ≡ room_of self.old }
        ensures table { IsSameTable self.old self.new }
    {
        self.lay(Word::Entry(function), mark);
        self.put_two(Instruction::Call, Word::Count(count), mark);
    }

    /// TCALL, after which what nothing reaches is dropped.
    pub fn put_replacing(&mut self, count: u16, total: u16, function: usize, mark: usize)
        requires room { 4 ≤ room_of self.old }
        ensures code { code_of self.new ≡ replaced count total function mark (dead_cells (code_of self.old)) }
        ensures room { room_of self.old ≤ room_of self.new + 4 }
        ensures table { IsSameTable self.old self.new }
    {
        self.drop_dead();
        self.lay(Word::Entry(function), mark);
        self.lay(Word::Count(total), mark);
        self.put_two(Instruction::Tcall, Word::Count(count), mark);
    }

    /// A jump, or a conditional one, to the place: a jump to a loop carries the loop's mark.
    pub fn put_jump(&mut self, instruction: Instruction, place: Place, mark: usize)
        requires room { 2 ≤ room_of self.old }
        ensures code { code_of self.new ≡ jump_put instruction place mark (code_of self.old) }
        ensures room { room_of self.new + 2 ≡ room_of self.old }
        ensures table { IsSameTable self.old self.new }
    {
        self.put_two(instruction, Word::To(place), place.mark_of(mark));
    }

    /// GOTO: what nothing reaches then is dropped, and a jump to what comes next is not written.
    pub fn put_goto(&mut self, place: Place, mark: usize)
        requires room { 2 ≤ room_of self.old }
        ensures code { code_of self.new ≡ goto_put place mark (code_of self.old) }
        ensures room { room_of self.old ≤ room_of self.new + 2 }
        ensures table { IsSameTable self.old self.new }
    {
        self.drop_dead();
        if !place.reaches(self.len()) {
            self.put_jump(Instruction::Goto, place, mark);
        }
    }

    /// NOT, which turns a conditional jump that follows.
    pub fn put_not(&mut self, mark: usize)
        requires room { 2 ≤ room_of self.old }
        ensures code { code_of self.new ≡ not_put mark (code_of self.old) }
        ensures room { room_of self.old ≤ room_of self.new + 2 }
        ensures table { IsSameTable self.old self.new }
    {
        match self.head() {
            Head::Jumps(condition, place, own_mark) => {
                self.drop_first(2);
                self.put_jump(condition.opposite().instruction(), place, own_mark);
            }
            _ => self.put_one(Instruction::Not, mark),
        }
    }

    /// CSTI, whatever follows.
    pub fn put_csti(&mut self, value: i32, mark: usize)
        requires room { 2 ≤ room_of self.old }
        ensures code { code_of self.new ≡ constant value mark (code_of self.old) }
        ensures room { room_of self.new + 2 ≡ room_of self.old }
        ensures table { IsSameTable self.old self.new }
    {
        self.put_two(Instruction::Csti, Word::Number(value), mark);
    }

    // What becomes of a constant before the code.
    fn plan(&self, value: i32) -> Plan
        ensures plan { result ≡ plan_of value (code_of self.now) }
        ensures within { off result ≤ length (code_of self.now) }
    {
        plan_for(self.head(), value == 0, value == 1)
    }

    /// A constant, shortened by what the code begins with.
    #[tactic(auto, using(crate::proofs::Steps::constant_plan))]
    pub fn put_constant(&mut self, value: i32, mark: usize)
        requires room { 2 ≤ room_of self.old }
        ensures code { code_of self.new ≡ constant_put value mark (code_of self.old) }
        ensures room { room_of self.old ≤ room_of self.new + 2 }
        ensures table { IsSameTable self.old self.new }
    {
        match self.plan(value) {
            Plan::Write => self.put_csti(value, mark),
            Plan::Skip(count) => self.drop_first(count),
            Plan::Negate(own_mark) => {
                self.drop_first(1);
                self.put_not(own_mark);
            }
            Plan::Again => {
                self.drop_first(1);
                self.put_constant(negated(value), mark);
            }
            Plan::Jump(place, own_mark) => {
                self.drop_first(2);
                self.put_goto(place, own_mark);
            }
        }
    }

    /// Where a jump to the code goes: the code is labelled unless it begins with GOTO.
    pub fn put_label(&mut self) -> Place
        ensures code { code_of self.new ≡ labelled_cells (code_of self.old) }
        ensures room { room_of self.new ≡ room_of self.old }
        ensures table { IsSameTable self.old self.new }
        ensures to { result ≡ target_of (code_of self.old) }
    {
        if let Head::Goes(place) = self.head() {
            return place;
        }
        self.flag();
        Place::Behind(self.len())
    }

    /// How code that will come before the code gets there: the code is labelled unless it begins with GOTO or RET.
    pub fn put_way(&mut self) -> Exit
        ensures code { code_of self.new ≡ left_cells (code_of self.old) }
        ensures room { room_of self.new ≡ room_of self.old }
        ensures table { IsSameTable self.old self.new }
        ensures to { result ≡ exit_of (code_of self.old) }
    {
        match self.first_return() {
            Some(count) => Exit::Return(count),
            None => Exit::Go(self.put_label()),
        }
    }

    /// RET, after which what nothing reaches is dropped.
    pub fn put_return(&mut self, count: u16, mark: usize)
        requires room { 2 ≤ room_of self.old }
        ensures code { code_of self.new ≡ returned count mark (dead_cells (code_of self.old)) }
        ensures room { room_of self.old ≤ room_of self.new + 2 }
        ensures table { IsSameTable self.old self.new }
    {
        self.drop_dead(); // Nothing gets past a return.
        self.put_two(Instruction::Ret, Word::Count(count), mark);
    }

    /// The jump that `put_way` answered.
    pub fn put_exit(&mut self, exit: Exit, mark: usize)
        requires room { 2 ≤ room_of self.old }
        ensures code { code_of self.new ≡ exit_put exit mark (code_of self.old) }
        ensures room { room_of self.old ≤ room_of self.new + 2 }
        ensures table { IsSameTable self.old self.new }
    {
        match exit {
            Exit::Return(count) => self.put_return(count, mark),
            Exit::Go(place) => self.put_goto(place, mark),
        }
    }
}

/// A draft that has a position for each word has one after every operation, since each keeps the table. It does nothing: its contract is the
/// theorem.
pub fn positions_stay()
    ensures { PositionsStay }
{}
