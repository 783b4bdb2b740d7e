// The short ways out of && and ||: they go with a conditional jump that follows, or push the value that the first operand decides.
ghost use Rattle.std.specs.Prelude.{◌≡◌, ◌+◌, ◌≤◌};
ghost use Rattle.scheme.specs.Writing.{short_way, and_way, or_way};
ghost use Rattle.draft.specs.Drafted.{code_of, room_of, IsSameTable};
ghost use Rattle.phrases.specs.Turns.{Finds, decided, way_out};

use draft::Draft;
use draft::cells::{Condition, Head, Place};

/// Where the short way out jumps, and that jump's mark.
#[derive(Clone, Copy, PartialEq, Eq, Debug)]
pub struct Way {
    pub to: Place,
    pub mark: usize,
}

// The value of && or || where the first operand alone decides it, by being so: told case by case, as a condition has no number.
fn decided(condition: Condition) -> i32
    ensures { result ≡ decided condition }
{
    match condition {
        Condition::Zero => 0,
        Condition::Nonzero => 1,
    }
}

// The short way out pushes the value and goes on to what follows.
#[tactic(auto, using(crate::proofs::Steps::drafting))]
fn put_short(draft: &mut Draft, value: i32, mark: usize) -> Way
    requires room { 4 ≤ room_of draft.old }
    ensures code { Finds (code_of draft.old) result.to result.mark (code_of draft.new) (short_way value mark) }
    ensures room { room_of draft.old ≤ room_of draft.new + 4 }
    ensures table { IsSameTable draft.old draft.new }
{
    let exit = draft.put_way();
    draft.put_constant(value, mark);
    let to = draft.put_label();
    draft.put_exit(exit, mark);
    Way { to, mark }
}

// The short way out where the first operand decides by being so.
#[tactic(auto, using(crate::proofs::Steps::drafting))]
fn put_way_out(draft: &mut Draft, decides: Condition, mark: usize) -> Way
    requires room { 4 ≤ room_of draft.old }
    ensures code { Finds (code_of draft.old) result.to result.mark (code_of draft.new) (way_out decides mark) }
    ensures room { room_of draft.old ≤ room_of draft.new + 4 }
    ensures table { IsSameTable draft.old draft.new }
{
    match draft.head() {
        Head::Jumps(condition, to, mark) if condition == decides => Way { to, mark },
        Head::Jumps(condition, place, own_mark) => {
            draft.drop_first(2);
            let to = draft.put_label();
            draft.put_jump(condition.instruction(), place, own_mark);
            Way { to, mark }
        }
        _ => put_short(draft, decided(decides), mark),
    }
}

/// The short way out of &&.
pub fn put_and(draft: &mut Draft, mark: usize) -> Way
    requires room { 4 ≤ room_of draft.old }
    ensures code { Finds (code_of draft.old) result.to result.mark (code_of draft.new) (and_way mark) }
    ensures room { room_of draft.old ≤ room_of draft.new + 4 }
    ensures table { IsSameTable draft.old draft.new }
{
    put_way_out(draft, Condition::Zero, mark)
}

/// The short way out of ||.
pub fn put_or(draft: &mut Draft, mark: usize) -> Way
    requires room { 4 ≤ room_of draft.old }
    ensures code { Finds (code_of draft.old) result.to result.mark (code_of draft.new) (or_way mark) }
    ensures room { room_of draft.old ≤ room_of draft.new + 4 }
    ensures table { IsSameTable draft.old draft.new }
{
    put_way_out(draft, Condition::Nonzero, mark)
}
