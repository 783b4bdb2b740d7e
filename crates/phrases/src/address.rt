// The addresses of locals and of elements.
ghost use Rattle.std.specs.Prelude.{◌≡◌, ◌+◌, ◌^◌, ◌<◌, ◌≤◌, ◌∷◌, pos, negsuc, unsigned_abs};
ghost use Rattle.scheme.specs.Scheme.{local_code, element_code};
ghost use Rattle.scheme.specs.Code as S;
ghost use Rattle.scheme.specs.Writing as W;
ghost use Rattle.draft.specs.Draft.{place_of};
ghost use Rattle.draft.specs.Drafted.{code_of, room_of, IsSameTable};
ghost use Rattle.phrases.specs.Turns.{Turns};

use draft::Draft;
use draft::cells::Place;
use rules::Instruction;

// A small number as a word: here alone, so that the cast is proved once for all that use it.
fn word_of(number: usize) -> i32
    requires { number < 2 ^ 31 }
    ensures { result ≡ pos number }
{
    number as i32
}

/// A small number, shortened by what the code begins with.
#[tactic(auto, using(crate::proofs::Steps::drafting))]
pub fn put_number(draft: &mut Draft, number: usize, mark: usize)
    requires room { 2 ≤ room_of draft.old }
    requires small { number < 2 ^ 31 }
    ensures code { Turns (code_of draft.old) (code_of draft.new) (W.add_cst (pos number) mark) }
    ensures room { room_of draft.old ≤ room_of draft.new + 2 }
    ensures table { IsSameTable draft.old draft.new }
{
    draft.put_constant(word_of(number), mark);
}

/// The address of a local, by its number.
#[tactic(auto, using(crate::proofs::Steps::drafting))]
pub fn put_local(draft: &mut Draft, local: i32, mark: usize)
    requires room { 4 ≤ room_of draft.old }
    requires natural { local ≡ pos (unsigned_abs local) }
    ensures code { Turns (code_of draft.old) (code_of draft.new) (local_code mark (unsigned_abs local)) }
    ensures room { room_of draft.old ≤ room_of draft.new + 4 }
    ensures table { IsSameTable draft.old draft.new }
{
    draft.put_one(Instruction::Add, mark);
    draft.put_constant(local, mark);
    draft.put_one(Instruction::GetBp, mark);
}

// Goes to the place where the top word is below the bound.
#[tactic(auto, using(crate::proofs::Steps::drafting))]
fn put_test(draft: &mut Draft, bound: i32, place: Place, mark: usize)
    requires room { 6 ≤ room_of draft.old }
    ensures code { (t : S.Target) → place ≡ place_of t → Turns (code_of draft.old) (code_of draft.new) (λ C. S.plain S.dup mark ∷ S.csti bound mark ∷ S.plain S.lt mark ∷ S.ifnzro t mark ∷ C) }
    ensures room { room_of draft.new + 6 ≡ room_of draft.old }
    ensures table { IsSameTable draft.old draft.new }
{
    draft.put_jump(Instruction::IfNzro, place, mark);
    draft.put_one(Instruction::Lt, mark);
    draft.put_csti(bound, mark);
    draft.put_one(Instruction::Dup, mark);
}

// What an index goes to that is outside, in front of what it goes to otherwise: -1 is read as an address.
#[tactic(auto, using(crate::proofs::Steps::drafting))]
fn put_outside(draft: &mut Draft, mark: usize)
    requires room { 3 ≤ room_of draft.old }
    ensures code { Turns (code_of draft.old) (code_of draft.new) (λ C. S.label ∷ (S.csti (negsuc 0) mark ∷ (S.plain S.ldi mark ∷ (S.label ∷ C)))) }
    ensures room { room_of draft.new + 3 ≡ room_of draft.old }
    ensures table { IsSameTable draft.old draft.new }
{
    draft.flag();
    draft.put_one(Instruction::Ldi, mark);
    draft.put_csti(-1, mark);
    draft.flag();
}

/// The address of an element, whose index is on the stack, of a global of `len` words from word `first` on.
#[tactic(auto, using(crate::proofs::Steps::drafting))]
pub fn put_element(draft: &mut Draft, len: usize, first: usize, mark: usize)
    requires room { 18 ≤ room_of draft.old }
    requires small { len < 2 ^ 31 }
    requires early { first < 2 ^ 31 }
    ensures code { Turns (code_of draft.old) (code_of draft.new) (element_code mark len first) }
    ensures room { room_of draft.old ≤ room_of draft.new + 18 }
    ensures table { IsSameTable draft.old draft.new }
{
    draft.put_one(Instruction::Add, mark);
    put_number(draft, first, mark);
    let inside = Place::Behind(draft.len());
    put_outside(draft, mark);
    let outside = Place::Behind(draft.len());
    put_test(draft, word_of(len), inside, mark);
    put_test(draft, 0, outside, mark);
}
