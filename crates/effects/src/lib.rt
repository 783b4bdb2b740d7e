// What an instruction that may go does to the stack, the board and the registers.
//
// That the words in use are no more than the stack has room for stands in each contract, and is no invariant of the
// store: `resize` asks nothing of its callers, and an invariant would ask it of them. `lent`, `beside` and `inputs` stand
// apart, here and for steps and runs: callers cite each alone, and one relation over what they speak of has six
// arguments, which is no shorter.
#![tactic(auto)]

ghost use Rattle.std.specs.Prelude.{◌≡◌, ◌+◌, ◌-◌, ◌<◌, ◌≤◌, true, false, length, replicate, pos, ◌+ℤ◌, ◌-ℤ◌, int_rem, slice_set, unsigned_abs};
ghost use Rattle.std.proofs.Math.Seq.{paste};
ghost use Rattle.board.specs.Meaning.{Framed};
ghost use Rattle.rules.specs.Limits.{depth_limit, stack_limit};
ghost use Rattle.rules.specs.Rules.{among as among_first, is_zero as zero_word, up, down, rule, Ready};
ghost use Rattle.effects.specs.Effects.{state, performed, Tells, quotient as cut_quotient};
ghost use Rattle.effects.specs.Seen.{InCode, Within, Sees};
ghost use Rattle.effects.specs.Effects.{past as past_of, jumped as jumped_to, branched as branched_to, entered as entered_at, replaced as replaced_by, returned as returned_to};

use answer::Ending;
use board::Board;
use rules::{Instruction, Registers, View, lowered, raised};
use stack::Stack;

// the registers behind an instruction and its operands
fn past(r: Registers, operands: usize) -> Registers
    requires in_code { InCode r }
    requires operands { operands < 4 }
    ensures { result ≡ past_of r operands }
{
    Registers {
        position: r.position + operands as i32 + 1,
        ..r
    }
}

fn jumped(r: Registers, p: i32) -> Registers
    ensures { result ≡ jumped_to r p }
{
    Registers {
        position: p,
        turns: if p <= r.position {
            r.turns.saturating_sub(1)
        } else {
            r.turns
        },
        ..r
    }
}

fn branched(r: Registers, p: i32, taken: bool) -> Registers
    requires { InCode r }
    ensures { result ≡ branched_to r p taken }
{
    if taken { jumped(r, p) } else { past(r, 1) }
}

// where a call goes on after its return
fn after_call(r: Registers) -> i32
    requires { InCode r }
    ensures { result ≡ r.position +ℤ pos 3 }
{
    r.position + 3
}

fn entered(r: Registers, p: i32, from: usize) -> Registers
    requires { (from ≤ stack_limit) × (r.depth < depth_limit) }
    ensures { result ≡ entered_at r p from }
{
    let depth = r.depth + 1;
    Registers {
        position: p,
        base: from as i32 + 2,
        turns: r.turns.saturating_sub(1),
        depth,
        deepest: r.deepest.max(depth),
    }
}

fn replaced(r: Registers, p: i32) -> Registers
    ensures { result ≡ replaced_by r p }
{
    Registers {
        position: p,
        turns: r.turns.saturating_sub(1),
        ..r
    }
}

fn returned(r: Registers, p: i32, base: i32) -> Registers
    ensures { result ≡ returned_to r p base }
{
    Registers {
        position: p,
        base,
        depth: r.depth.saturating_sub(1),
        ..r
    }
}

// The next five are a line each, so that a division or a cast is proved once for all arms.
fn quotient(a: i32, b: i32) -> i32
    requires { zero_word b ≡ false }
    ensures { result ≡ cut_quotient a b }
{
    a.wrapping_div(b)
}

fn remainder(a: i32, b: i32) -> i32
    requires { zero_word b ≡ false }
    ensures { result ≡ int_rem a b }
{
    a.wrapping_rem(b)
}

// the index of the top word, −1 where there is none
fn top_index(used: usize) -> i32
    requires { used ≤ stack_limit }
    ensures { result ≡ pos used -ℤ pos 1 }
{
    used as i32 - 1
}

fn size(m: i32) -> usize
    ensures { result ≡ unsigned_abs m }
{
    m.unsigned_abs() as usize
}

/// The index that a number among the first `n` is.
pub fn index(a: i32, n: usize) -> usize
    requires { among_first a n ≡ true }
    ensures is { result ≡ unsigned_abs a }
    ensures within { result < n }
{
    a as usize
}

// INCSP: zeros on top, or words off it
fn raise(stack: &mut Stack<i32>, x: i32)
    requires { (down x ≤ stack.old.used) × ((stack.old.used ≤ length stack.old.slots.now) × (up x ≤ length stack.old.slots.now - stack.old.used)) }
    ensures slots { stack.new.slots.now ≡ paste stack.old.slots.now stack.old.used (replicate (up x) (pos 0)) (up x) }
    ensures length { length stack.new.slots.now ≡ length stack.old.slots.now }
    ensures used { stack.new.used ≡ stack.old.used + up x - down x }
    ensures lender { stack.new.slots.ghost_name ≡ stack.old.slots.ghost_name }
{
    if x < 0 {
        let used = stack.used;
        stack.resize(used - lowered(x));
    } else {
        stack.grow(raised(x), 0);
    }
}

// writes the board's inputs over as many slots
fn copy_inputs<B: Board>(slots: &mut [i32], board: &B)
    requires { length slots.old ≡ length (B.means board.now).inputs }
    ensures { slots.new ≡ (B.means board.now).inputs }
{
    for (n, slot) in slots.iter_mut().enumerate() {
        *slot = board.input(n).unwrap_or(0);
    }
}

// LDARGS: the inputs on top, the last of them uppermost
fn load_args<B: Board>(stack: &mut Stack<i32>, board: &B, count: usize)
    requires count { count ≡ length (B.means board.now).inputs }
    requires used { stack.old.used ≤ length stack.old.slots.now }
    requires room { count ≤ length stack.old.slots.now - stack.old.used }
    ensures slots { stack.new.slots.now ≡ paste stack.old.slots.now stack.old.used (B.means board.now).inputs count }
    ensures length { length stack.new.slots.now ≡ length stack.old.slots.now }
    ensures used { stack.new.used ≡ stack.old.used + count }
    ensures lender { stack.new.slots.ghost_name ≡ stack.old.slots.ghost_name }
{
    let used = stack.used;
    copy_inputs(&mut stack.slots[used..used + count], board);
    stack.resize(used + count);
}

// puts a word on top, in slot `at`, and goes on behind an instruction without operands
fn put(stack: &mut Stack<i32>, at: usize, word: i32, r: Registers) -> Registers
    requires in_code { InCode r }
    requires room { at < length stack.old.slots.now }
    ensures registers { result ≡ past_of r 0 }
    ensures slots { stack.new.slots.now ≡ slice_set stack.old.slots.now at word }
    ensures used { stack.new.used ≡ at + 1 }
    ensures lender { stack.new.slots.ghost_name ≡ stack.old.slots.ghost_name }
{
    stack.settle(at, word);
    past(r, 0)
}

/// Carries out an instruction that may go, and answers the registers after it. Only a full page may
/// still end the run, and then nothing has changed.
#[tactic(auto, using(std::proofs::lemmas::Int::wraps), unfolding(rules::specs::Rules::framed))]
pub fn perform<B: Board>(
    o: Instruction,
    v: View,
    stack: &mut Stack<i32>,
    board: &mut B,
) -> Result<Registers, Ending>
    requires within { Within v }
    requires sees { Sees v stack.old.slots.now stack.old.used (B.means board.old) }
    requires ready { Ready (rule o v) v }
    ensures tells { Tells
        (performed o v (state stack.old.slots.now stack.old.used (B.means board.old) v.registers))
        result (state stack.old.slots.now stack.old.used (B.means board.old) v.registers)
        (λ r2. state stack.new.slots.now stack.new.used (B.means board.new) r2) }
    ensures within { stack.new.used ≤ length stack.new.slots.now }
    ensures length { length stack.new.slots.now ≡ length stack.old.slots.now }
    ensures lender { stack.new.slots.ghost_name ≡ stack.old.slots.ghost_name }
    ensures lent { B.lent board.new ≡ B.lent board.old }
    ensures beside { Framed (B.means board.old).readings (B.means board.new).readings (B.beside board.old) (B.beside board.new) }
    ensures inputs { (B.means board.new).inputs ≡ (B.means board.old).inputs }
{
    match o {
        Instruction::Csti => {
            stack.settle(v.used, v.x);
            Ok(past(v.registers, 1))
        }
        Instruction::Add => Ok(put(stack, v.used - 2, v.second.wrapping_add(v.top), v.registers)),
        Instruction::Sub => Ok(put(stack, v.used - 2, v.second.wrapping_sub(v.top), v.registers)),
        Instruction::Mul => Ok(put(stack, v.used - 2, v.second.wrapping_mul(v.top), v.registers)),
        Instruction::Div => Ok(put(stack, v.used - 2, quotient(v.second, v.top), v.registers)),
        Instruction::Mod => Ok(put(stack, v.used - 2, remainder(v.second, v.top), v.registers)),
        Instruction::Eq => Ok(put(stack, v.used - 2, i32::from(v.second == v.top), v.registers)),
        Instruction::Lt => Ok(put(stack, v.used - 2, i32::from(v.second < v.top), v.registers)),
        Instruction::Not => Ok(put(stack, v.used - 1, i32::from(v.top == 0), v.registers)),
        Instruction::Dup => Ok(put(stack, v.used, v.top, v.registers)),
        Instruction::Swap => {
            stack.replace(v.used - 2, v.top);
            stack.replace(v.used - 1, v.second);
            Ok(past(v.registers, 0))
        }
        Instruction::Ldi => {
            let word = stack.slots[index(v.top, v.used)];
            Ok(put(stack, v.used - 1, word, v.registers))
        }
        Instruction::Sti => {
            stack.replace(index(v.second, v.used), v.top);
            Ok(put(stack, v.used - 2, v.top, v.registers))
        }
        Instruction::GetBp => Ok(put(stack, v.used, v.registers.base, v.registers)),
        Instruction::GetSp => Ok(put(stack, v.used, top_index(v.used), v.registers)),
        Instruction::IncSp => {
            raise(stack, v.x);
            Ok(past(v.registers, 1))
        }
        Instruction::Goto => Ok(jumped(v.registers, v.x)),
        Instruction::IfZero => {
            stack.resize(v.used - 1);
            Ok(branched(v.registers, v.x, v.top == 0))
        }
        Instruction::IfNzro => {
            stack.resize(v.used - 1);
            Ok(branched(v.registers, v.x, v.top != 0))
        }
        Instruction::Call => {
            let arguments = size(v.x);
            stack.open(arguments, after_call(v.registers), v.registers.base);
            Ok(entered(v.registers, v.y, v.used - arguments))
        }
        Instruction::Tcall => {
            stack.close(size(v.x), size(v.y));
            Ok(replaced(v.registers, v.z))
        }
        Instruction::Ret => {
            let locals = size(v.x);
            let position = stack.slots[v.used - (locals + 3)];
            let base = stack.slots[v.used - (locals + 2)];
            stack.settle(v.used - (locals + 3), v.top);
            Ok(returned(v.registers, position, base))
        }
        Instruction::Printi => {
            board.print(v.top).map_err(|_| Ending::PageFull)?;
            Ok(past(v.registers, 0))
        }
        Instruction::LdArgs => {
            load_args(stack, board, v.inputs);
            Ok(past(v.registers, 0))
        }
        Instruction::Stop => unreachable!(),
    }
}
