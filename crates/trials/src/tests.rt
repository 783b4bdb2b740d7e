// Tests of the parts: the store at two kinds of entry, the table board, what execute leaves, and
// lines of contact files, for a program without a station and for one with it.
use answer::{Ending, Reason};
use board::{Board, PageFull, TableBoard};
use contact_file::{Fault, Line, Trouble, read_line};
use machine::{Allowance, execute};
use stack::{Full, Stack};
use std::alloc::Global;
use std::process::Abort;
use std::test::Fail;

#[derive(Clone, Copy, PartialEq, Eq, Debug)]
struct Label {
    node: u16,
    out: usize,
}

#[test]
fn a_store_of_words_keeps_what_is_popped(rt: HostRuntime) {
    let mut words = [1, 2, 3];
    {
        let mut store = Stack::over(&mut words);
        assert_eq!(rt; store.top(), None);
        assert_eq!(rt; store.pop(), None);
        assert_eq!(rt; store.push(7), Ok(()));
        assert_eq!(rt; store.push(8), Ok(()));
        assert_eq!(rt; store.pop(), Some(8));
        assert_eq!(rt; store.top(), Some(7));
        assert_eq!(rt; store.used, 1);
        assert_eq!(rt; store.capacity(), 3);
    }
    assert_eq!(rt; words, [7, 8, 3]);
}

#[test]
fn a_store_of_records_takes_no_more_than_it_has_room_for(rt: HostRuntime) {
    let first = Label { node: 4, out: 9 };
    let second = Label { node: 5, out: 2 };
    let mut slots = [second];
    let mut store = Stack::over(&mut slots);
    assert_eq!(rt; store.push(first), Ok(()));
    assert_eq!(rt; store.push(second), Err(Full));
    assert_eq!(rt; store.pop(), Some(first));
    assert_eq!(rt; store.pop(), None);
}

#[test]
fn a_table_board_fills_its_page(rt: HostRuntime) {
    let inputs = [5, -6];
    let mut page = [0, 0];
    let mut board = TableBoard::over(&inputs, &mut page);
    assert_eq!(rt; board.count(), 2);
    assert_eq!(rt; board.input(1), Some(-6));
    assert_eq!(rt; board.input(2), None);
    assert_eq!(rt; board.print(10), Ok(()));
    assert_eq!(rt; board.print(11), Ok(()));
    assert_eq!(rt; board.print(12), Err(PageFull));
    assert_eq!(rt; board.readings().len(), 2);
    assert_eq!(rt; page, [10, 11]);
}

// What is expected of a piece of code, with the whole stack after it.
#[derive(Clone, Copy)]
struct Case {
    code: [i32; 9],
    stack: [i32; 6],
    ending: Ending,
    place: i32,
}

#[test]
fn the_whole_stack_is_as_the_model_leaves_it(rt: HostRuntime) -> Result<(), Fail> {
    let cases = [
        // words above those in use stay; a popped word stays until it is overwritten
        Case {
            code: [0, 5, 0, 6, 15, -2, 25, 0, 0],
            stack: [4, 5, 6, 7, 7, 7],
            ending: Ending::Finished,
            place: 6,
        },
        // STI writes the address' slot too, and the value's own slot stays as it was
        Case {
            code: [0, 0, 0, 6, 12, 25, 0, 0, 0],
            stack: [6, 6, 6, 7, 7, 7],
            ending: Ending::Finished,
            place: 5,
        },
        // a call moves its argument up over two link words: the position behind it, and the base
        Case {
            code: [19, 1, 3, 23, 0, 0, 0, 0, 0],
            stack: [3, 0, 4, 7, 7, 7],
            ending: Ending::UnknownInstruction,
            place: 3,
        },
        // a return puts its value where the link was, and the rest stays
        Case {
            code: [19, 1, 4, 25, 0, 8, 21, 1, 0],
            stack: [8, 0, 4, 8, 7, 7],
            ending: Ending::Finished,
            place: 3,
        },
        // a replacing call moves its argument down over a local
        Case {
            code: [0, 9, 9, 14, 20, 1, 1, 8, 23],
            stack: [4, 9, 2, 2, 7, 7],
            ending: Ending::UnknownInstruction,
            place: 8,
        },
        // INCSP writes zeros
        Case {
            code: [15, 3, 23, 0, 0, 0, 0, 0, 0],
            stack: [4, 0, 0, 0, 7, 7],
            ending: Ending::UnknownInstruction,
            place: 2,
        },
        // an instruction that ends the run changes nothing
        Case {
            code: [15, 6, 25, 0, 0, 0, 0, 0, 0],
            stack: [4, 7, 7, 7, 7, 7],
            ending: Ending::StackFull,
            place: 0,
        },
    ];
    for case in cases.iter() {
        let mut stack = [4, 7, 7, 7, 7, 7];
        let mut page = [0];
        let mut board = TableBoard::over(&[], &mut page);
        let allowed = Allowance { turns: 9, depth: 2 };
        match execute(allowed, &case.code, &mut stack, 1, &mut board) {
            Ok(answer) => {
                assert_eq!(rt; answer.ending, case.ending);
                assert_eq!(rt; answer.place, case.place);
            }
            Err(_) => return Err(Fail::new("refused")),
        }
        assert_eq!(rt; stack, case.stack);
    }
    Ok(())
}

#[test]
fn a_refused_execute_changes_nothing(rt: HostRuntime) -> Result<(), Fail> {
    let mut stack = [1, 2];
    let mut page = [3];
    let mut board = TableBoard::over(&[], &mut page);
    match execute(
        Allowance { turns: 1, depth: 1 },
        &[0, 9, 22],
        &mut stack,
        3,
        &mut board,
    ) {
        Ok(_) => return Err(Fail::new("not refused")),
        Err(refusal) => {
            assert_eq!(rt; refusal.reason, Reason::Sizes);
            assert_eq!(rt; refusal.place_number(), 65_535);
        }
    }
    assert_eq!(rt; board.readings().len(), 0);
    assert_eq!(rt; stack, [1, 2]);
    assert_eq!(rt; page, [3]);
    Ok(())
}

#[test]
fn lines_are_read(rt: HostRuntime) -> Result<(), Fail> {
    let heap = rt.alloc();
    assert!(rt; matches!(read_line(heap, "#pass 1"), Ok(Line::Comment)));
    assert!(rt; matches!(read_line(heap, " \t "), Ok(Line::Blank)));
    let Ok(Line::Code(code)) = read_line(heap, "  code 24  -2147483648 2147483647") else {
        return Err(Fail::new("no code"));
    };
    assert_eq!(rt; code.as_slice(), [24, -2147483648, 2147483647].as_slice());
    let Ok(Line::Words(words)) = read_line(heap, "words") else {
        return Err(Fail::new("no words"));
    };
    assert_eq!(rt; words.len(), 0);
    let Ok(Line::Node(node)) = read_line(heap, "node 255 -7 8") else {
        return Err(Fail::new("no node"));
    };
    assert_eq!(rt; (node.kind, node.a, node.b, node.c), (255, -7, 8, 0));
    let Ok(Line::Function(function)) = read_line(heap, "function 8 65535 9") else {
        return Err(Fail::new("no function"));
    };
    assert_eq!(rt;
        (
            function.parameters,
            function.locals,
            function.body,
            function.entry,
        ),
        (8, 65_535, 9, 0)
    );
    assert!(rt; matches!(read_line(heap, "global 64"), Ok(Line::Global(64))));
    assert!(rt; matches!(read_line(heap, "load"), Ok(Line::Load)));
    let Ok(Line::Execute(asked)) = read_line(heap, "execute 4294967295 33 1000000 7 -1 5") else {
        return Err(Fail::new("no call"));
    };
    assert_eq!(rt; asked.allowed.turns, 4_294_967_295);
    assert_eq!(rt; asked.allowed.depth, 33);
    assert_eq!(rt; asked.stack, 1_000_000);
    assert_eq!(rt; asked.page, 7);
    assert_eq!(rt; asked.inputs.as_slice(), [-1, 5].as_slice());
    Ok(())
}

fn refused(rt: &impl Abort, line: Result<Line, Fault>, trouble: Trouble) -> Result<(), Fail> {
    match line {
        Ok(_) => Err(Fail::new("read")),
        Err(fault) => {
            assert_eq!(rt; fault.trouble, trouble);
            Ok(())
        }
    }
}

#[test]
fn lines_that_cannot_be_read_are_refused(rt: HostRuntime) -> Result<(), Fail> {
    let cases = [
        ("cod 1", Trouble::UnknownWord),
        (" # a comment begins the line", Trouble::UnknownWord),
        ("pass 1 1 124 0", Trouble::NotServed),
        ("clear", Trouble::NotServed),
        ("load 1", Trouble::TooMany),
        ("function 1 2", Trouble::Missing),
        ("function 1 2 3 4", Trouble::TooMany),
        ("function 1 2 65536", Trouble::Number),
        ("global 256", Trouble::Number),
        ("global 1 1", Trouble::TooMany),
        ("node", Trouble::Missing),
        ("node 1 2 3 4 5", Trouble::TooMany),
        ("node -1", Trouble::Number),
        ("code 2147483648", Trouble::Number),
        ("words 1 x", Trouble::Number),
        ("words 1.5", Trouble::Number),
        ("execute -1 1 10 0", Trouble::Number),
        ("execute 4294967296 1 10 0", Trouble::Number),
        ("execute 1 1 10", Trouble::Missing),
        ("execute", Trouble::Missing),
        ("execute 1 1 1000001 0", Trouble::Size),
        ("execute 1 1 10 1000001", Trouble::Size),
        ("execute 1 1 10 0 2147483648", Trouble::Number),
    ];
    for (text, trouble) in cases {
        refused(&rt, read_line(rt.alloc(), text), trouble)?;
    }
    Ok(())
}

#[test]
fn lines_for_a_station_are_read(rt: HostRuntime) -> Result<(), Fail> {
    let heap = rt.alloc();
    let Ok(Line::Pass(asked)) = contact_lines::read_line(heap, " pass 1000000 32 1984 9 5 -6")
    else {
        return Err(Fail::new("no pass"));
    };
    assert_eq!(rt; asked.allowed.turns, 1_000_000);
    assert_eq!(rt; asked.allowed.depth, 32);
    assert_eq!(rt; asked.stack, 1_984);
    assert_eq!(rt; asked.page, 9);
    assert_eq!(rt; asked.inputs.as_slice(), [5, -6].as_slice());
    let text = "packet 7 1 124 1000000 2046 65535 0005C00600010fFa";
    let Ok(Line::Packet(asked)) = contact_lines::read_line(heap, text) else {
        return Err(Fail::new("no packet"));
    };
    assert_eq!(rt; asked.allowed.turns, 7);
    assert_eq!(rt; asked.allowed.depth, 1);
    assert_eq!(rt; asked.stack, 124);
    assert_eq!(rt; asked.output, 1_000_000);
    assert_eq!(rt; asked.apid, 2_046);
    assert_eq!(rt; asked.count, 65_535);
    assert_eq!(rt;
        asked.input.as_slice(),
        [0, 5, 192, 6, 0, 1, 15, 250].as_slice()
    );
    let Ok(Line::Packet(asked)) = contact_lines::read_line(heap, "packet 1 1 124 0 5 6 -") else {
        return Err(Fail::new("no packet"));
    };
    assert_eq!(rt; asked.input.len(), 0);
    assert!(rt; matches!(contact_lines::read_line(heap, "clear"), Ok(Line::Clear)));
    // what needs no station is read as without one
    assert!(rt; matches!(contact_lines::read_line(heap, "#clear"), Ok(Line::Comment)));
    assert!(rt; matches!(contact_lines::read_line(heap, " "), Ok(Line::Blank)));
    assert!(rt;
        matches!(
            contact_lines::read_line(heap, "global 64"),
            Ok(Line::Global(64))
        )
    );
    Ok(())
}

#[test]
fn lines_for_a_station_that_cannot_be_read_are_refused(rt: HostRuntime) -> Result<(), Fail> {
    let cases = [
        ("pass", Trouble::Missing),
        ("pass 1 1 124", Trouble::Missing),
        ("pass 1 1 1000001 0", Trouble::Size),
        ("pass 1 1 124 1000001", Trouble::Size),
        ("pass 1 1 124 0 2147483648", Trouble::Number),
        ("packet 1 1 124 38 5 6", Trouble::Missing),
        ("packet 4294967296 1 124 38 5 6 -", Trouble::Number),
        ("packet 1 1 1000001 38 5 6 -", Trouble::Size),
        ("packet 1 1 124 1000001 5 6 -", Trouble::OutputSize),
        ("packet 1 1 124 38 65536 6 -", Trouble::Number),
        ("packet 1 1 124 38 5 65536 -", Trouble::Number),
        ("packet 1 1 124 38 5 6 0", Trouble::Bytes),
        ("packet 1 1 124 38 5 6 000", Trouble::Bytes),
        ("packet 1 1 124 38 5 6 0g", Trouble::Bytes),
        ("packet 1 1 124 38 5 6 +1", Trouble::Bytes),
        ("packet 1 1 124 38 5 6 é", Trouble::Bytes),
        ("packet 1 1 124 38 5 6 --", Trouble::Bytes),
        ("packet 1 1 124 38 5 6 - -", Trouble::TooMany),
        ("clear 1", Trouble::TooMany),
        ("load 1", Trouble::TooMany),
        ("clears", Trouble::UnknownWord),
    ];
    for (text, trouble) in cases {
        refused(&rt, contact_lines::read_line(rt.alloc(), text), trouble)?;
    }
    Ok(())
}

fn says(
    rt: &impl Abort,
    heap: Global,
    line: Result<Line, Fault>,
    message: &str,
) -> Result<(), Fail> {
    let Err(fault) = line else {
        return Err(Fail::new("read"));
    };
    let said = format!(in heap; "{fault}")?;
    assert_eq!(rt; said.as_str(), message);
    Ok(())
}

#[test]
fn a_fault_says_what_is_wrong(rt: HostRuntime) -> Result<(), Fail> {
    let heap = rt.alloc();
    let cases = [
        ("cod 1", "no line begins with 'cod'"),
        ("execute 1", "a number is missing"),
        ("global 256", "'256' is no number that fits here"),
        (
            "execute 1 1 1000001 0",
            "'1000001' is more than 1000000 words",
        ),
        (
            "packet 1 1 124 1000001 5 6 -",
            "'1000001' is more than 1000000",
        ),
        (
            "packet 1 1 124 38 5 6 0g",
            "'0g' is no bytes in hexadecimal",
        ),
        ("load 1", "'1' is one word too many"),
    ];
    for (text, message) in cases {
        says(&rt, heap, contact_lines::read_line(heap, text), message)?;
    }
    let message = "'clear' is for a station, which this program does not have yet";
    says(&rt, heap, read_line(heap, "clear 1"), message)
}
