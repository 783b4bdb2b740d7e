// Drafts over small tables, as who lends one sees them. What is expected was worked by hand: where words lie by what a draft is, and which
// words there are by the rules of docs/CODE.md.
ghost use Rattle.std.specs.Prelude.{◌≡◌, ◌+◌, ◌^◌, ◌<◌, ◌≤◌, length};
ghost use Rattle.draft.specs.Drafted.{code_of, room_of, positions, HasPositions};

use crate::Draft;
use crate::cells::{Cell, Place, Word};
use crate::put::Exit;
use rules::Instruction;
use std::process::Abort;

const NOTHING: Cell = Cell {
    word: Word::Number(0),
    mark: 0,
    label: false,
};

fn cell(word: Word, mark: usize) -> Cell {
    Cell {
        word,
        mark,
        label: false,
    }
}

fn labelled(cell: Cell) -> Cell {
    Cell {
        label: true,
        ..cell
    }
}

// How many words there are, for who knows of the draft only that each word has a position.
#[tactic(auto, using(crate::proofs::PositionLaws::within_positions))]
fn words(draft: &Draft) -> usize
    requires { HasPositions draft.now }
    ensures words { result ≡ length (code_of draft.now) }
    ensures few { result < 2 ^ 31 }
    ensures room { result + room_of draft.now ≤ positions }
{
    draft.code().len()
}

#[test]
fn code_is_written_at_the_far_end(rt: HostRuntime) {
    let mut table = [NOTHING; 5];
    {
        let mut draft = Draft::over(&mut table);
        assert_eq!(rt; draft.code().len(), 0);
        draft.put_one(Instruction::Stop, 7);
        draft.put_csti(-5, 3);
        draft.drop_first(2);
        draft.put_one(Instruction::Add, 3);
        draft.put_two(Instruction::IncSp, Word::Number(-1), 2);
        let written = [
            cell(Word::Opcode(Instruction::IncSp), 2),
            cell(Word::Number(-1), 2),
            cell(Word::Opcode(Instruction::Add), 3),
            cell(Word::Opcode(Instruction::Stop), 7),
        ];
        assert_eq!(rt; draft.code(), written.as_slice());
        // A table of five cells has a position for each.
        assert_eq!(rt; words(&draft), 4);
    }
    assert_eq!(rt; table[0], NOTHING);
    assert_eq!(rt; table[4], cell(Word::Opcode(Instruction::Stop), 7));
}

#[test]
fn what_comes_next_is_not_jumped_to(rt: HostRuntime) {
    let mut table = [NOTHING; 12];
    let mut draft = Draft::over(&mut table);
    draft.put_return(3, 5);
    // A return drops the one before it: no label stands there.
    draft.put_exit(Exit::Return(2), 6);
    draft.put_not(4);
    // NOT of 0 is 1, and takes the place of NOT.
    draft.put_constant(0, 3);
    let start = draft.put_label();
    assert_eq!(rt; start, Place::Behind(4));
    draft.put_goto(start, 8);
    let code = [
        labelled(cell(Word::Opcode(Instruction::Csti), 3)),
        cell(Word::Number(1), 3),
        cell(Word::Opcode(Instruction::Ret), 6),
        cell(Word::Count(2), 6),
    ];
    assert_eq!(rt; draft.code(), code.as_slice());
    assert_eq!(rt; words(&draft), 4);
}

#[test]
fn what_nothing_reaches_is_dropped(rt: HostRuntime) {
    let mut table = [NOTHING; 12];
    let mut draft = Draft::over(&mut table);
    draft.put_one(Instruction::Stop, 7);
    draft.flag();
    draft.put_jump(Instruction::IfZero, Place::Loop(12), 9);
    // NOT turns the jump, which keeps the loop's mark.
    draft.put_not(4);
    let turned = [
        cell(Word::Opcode(Instruction::IfNzro), 12),
        cell(Word::To(Place::Loop(12)), 12),
        labelled(cell(Word::Opcode(Instruction::Stop), 7)),
    ];
    assert_eq!(rt; draft.code(), turned.as_slice());
    // After a call in place of this one only the label is reached.
    draft.put_replacing(1, 2, 0, 10);
    let replaced = [
        cell(Word::Opcode(Instruction::Tcall), 10),
        cell(Word::Count(1), 10),
        cell(Word::Count(2), 10),
        cell(Word::Entry(0), 10),
        labelled(cell(Word::Opcode(Instruction::Stop), 7)),
    ];
    assert_eq!(rt; draft.code(), replaced.as_slice());
    draft.drop_dead();
    draft.put_call(1, 3, 11);
    let called = [
        cell(Word::Opcode(Instruction::Call), 11),
        cell(Word::Count(1), 11),
        cell(Word::Entry(3), 11),
        labelled(cell(Word::Opcode(Instruction::Stop), 7)),
    ];
    assert_eq!(rt; draft.code(), called.as_slice());
    assert_eq!(rt; words(&draft), 4);
}
