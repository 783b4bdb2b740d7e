// A pass: the loaded code runs once on a board.
ghost use Rattle.std.specs.Prelude.{◌≡◌, ◌+◌, ◌*◌, ◌≤◌, false, length, take, pos, Some, None, MatchResult, slice_index_or, unsigned_abs};
ghost use Rattle.answer.specs.Numbers.{no_place};
ghost use Rattle.board.specs.Meaning.{Framed};
ghost use Rattle.rules.specs.Limits.{code_limit};
ghost use Rattle.script.specs.Limits.{max_words};
ghost use Rattle.machine.specs.Execute.{passes, starting, Ran, Executed};
ghost use Rattle.agreement.specs.Agreement.{stack_words, marked as by_marks};
ghost use Rattle.history.specs.Calls.{pass as pass_call, plain_pass, outside, pass_refusal};
ghost use Rattle.history.specs.History.{kept_by};
ghost use Rattle.station.specs.Held.{globals_of, laid, marks_of, Kept, Follows};
ghost use Rattle.station.specs.Passed.{Passed, said_of};

use crate::globals::lay;
use crate::held::Station;
use crate::known::{know_inputs, know_words};
use answer::{Answer, Ending, NO_PLACE, Reason, Refusal};
use board::Board;
use machine::{Allowance, execute};
use script::limits::MAX_WORDS;

/// The words of stack that a call takes at most.
const FRAME_WORDS: usize = 60;

// the words of stack that a pass may touch
fn stack_words(depth: u32) -> usize
    ensures { result ≡ stack_words depth }
{
    MAX_WORDS + FRAME_WORDS * depth as usize
}

// Runs code on a stack, with the globals at its front.
// What `lent` and `beside` say is what a board says of each print. They stand in each function over a board, since they speak of its
// type's own members: one relation would take those as arguments, and be no shorter.
fn run<B: Board>(
    allowed: Allowance,
    code: &[i32],
    globals: &[i32],
    stack: &mut [i32],
    board: &mut B,
) -> Result<Answer, Refusal>
    requires allowed { outside allowed ≡ false }
    requires code { length code.now ≤ code_limit }
    requires globals { length globals.now ≤ max_words }
    requires stack { length stack.old ≡ stack_words allowed.depth }
    ensures ran { MatchResult result
        (λ a. Ran (record { code = code.entry.now; deepest = allowed.depth })
        (starting (laid globals.now stack.old) (length globals.now) (B.means board.old) allowed.turns)
        a stack.new (B.means board.new))
        (λ _. ⊥) }
    ensures lent { B.lent board.new ≡ B.lent board.old }
    ensures beside { Framed (B.means board.old).readings (B.means board.new).readings (B.beside board.old) (B.beside board.new) }
{
    lay(stack, globals);
    execute(allowed, code, stack, globals.len(), board)
}

// the place of an answer: the mark of the position at which its run ended, none past the end
fn mark_at(marks: &[u16], position: i32) -> i32
    ensures { result ≡ pos (slice_index_or marks.now (unsigned_abs position) no_place) }
{
    let mark = marks.get(position.unsigned_abs() as usize).copied();
    i32::from(mark.unwrap_or(NO_PLACE as u16))
}

// an answer by positions, told by marks
fn marked(marks: &[u16], ended: Answer) -> Answer
    ensures { result ≡ by_marks marks.now ended }
{
    Answer {
        place: mark_at(marks, ended.place),
        ..ended
    }
}

impl Station {
    // refuses what a pass refuses
    fn check(&self, allowed: Allowance, stack: usize, inputs: usize) -> Result<(), Refusal>
        ensures { result ≡ passes (pass_refusal self.now.inputs allowed stack inputs) }
    {
        let main = self.inputs.ok_or(Refusal::of(Reason::NothingLoaded))?;
        allowed.check()?;
        if stack < stack_words(allowed.depth) {
            return Err(Refusal::of(Reason::StackLength));
        }
        if inputs != main {
            return Err(Refusal::of(Reason::InputCount));
        }
        Ok(())
    }

    // writes the globals back from the front of a stack, if the run finished
    fn write_back(&mut self, ending: Ending, stack: &[i32])
        requires { length (globals_of self.old.globals) ≤ length stack.now }
        ensures kept { Kept self.old self.new }
        ensures globals { globals_of self.new.globals ≡ kept_by ending (take (length (globals_of self.old.globals)) stack.now) (globals_of self.old.globals) }
    {
        if ending == Ending::Finished {
            self.globals.keep(stack);
        }
    }

    /// Runs the loaded code once on a board, from position 0, with the globals as its starting words at the stack's front. The
    /// globals are written back only if it finishes.
    pub fn pass<B: Board>(
        &mut self,
        allowed: Allowance,
        stack: &mut [i32],
        board: &mut B,
    ) -> Result<Answer, Refusal>
        ensures tells { Executed (pass_refusal self.old.inputs allowed (length stack.old) (length (B.means board.old).inputs)) result
            ((self.new ≡ self.old) × (stack.new ≡ stack.old) × (board.new ≡ board.old))
            (λ a. Passed self.old self.new allowed stack.old stack.new (B.means board.old) (B.means board.new) a) }
        ensures does { Follows self.old (pass_call (plain_pass allowed (length stack.old) (B.means board.old))) (said_of result) (B.means board.new).readings self.new }
        ensures lent { B.lent board.new ≡ B.lent board.old }
        ensures beside { Framed (B.means board.old).readings (B.means board.new).readings (B.beside board.old) (B.beside board.new) }
    {
        self.check(allowed, stack.len(), board.count())?;
        know_words(self.globals.as_slice());
        know_inputs(board);
        let room = stack_words(allowed.depth);
        let ended = run(
            allowed,
            self.code(),
            self.globals.as_slice(),
            &mut stack[..room],
            board,
        )?;
        self.write_back(ended.ending, stack);
        Ok(marked(self.marks(), ended))
    }
}
