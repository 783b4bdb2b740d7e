// Counts and readings through the boards and the layers.
use board::{Board, PageFull, TableBoard};
use layers::{Either, TwelveBit, twelve_bits};
use packet::PacketBoard;
use std::process::Abort;

/// An input packet with the counts 0x0FFF, 0x0800, 0x07FF and 0xF001.
const COUNTS: [u8; 14] = [
    0x00, 0x05, 0xC0, 0x06, 0x00, 0x07, 0x0F, 0xFF, 0x08, 0x00, 0x07, 0xFF, 0xF0, 0x01,
];

/// The same counts as words.
const WORDS: [i32; 4] = [0x0FFF, 0x0800, 0x07FF, 0xF001];

fn has_inputs<B: Board>(rt: &impl Abort, board: &B, inputs: &[i32]) {
    assert_eq!(rt; board.count(), inputs.len());
    for (n, v) in inputs.iter().enumerate() {
        assert_eq!(rt; board.input(n), Some(*v));
    }
    assert_eq!(rt; board.input(inputs.len()), None);
    assert_eq!(rt; board.input(usize::MAX), None);
}

fn layered<B: Board + Drop>(rt: &impl Abort, below: B, inputs: &[i32], reading: i32) {
    let mut layer = TwelveBit::over(below);
    has_inputs(rt, &layer, inputs);
    assert_eq!(rt; layer.print(reading), Ok(()));
}

#[test]
fn twelve(rt: HostRuntime) {
    let cases: [(i32, i32); 12] = [
        (0x0FFF, -1),
        (0x0800, -2_048),
        (0x07FF, 2_047),
        (0, 0),
        (1, 1),
        (-1, -1),
        (4_096, 0),
        (-4_096, 0),
        (-2_049, 2_047),
        (65_535, -1),
        (i32::MAX, -1),
        (i32::MIN, 0),
    ];
    for (v, expected) in cases {
        assert_eq!(rt; twelve_bits(v), expected);
    }
}

#[test]
fn over_packets(rt: HostRuntime) {
    let mut output = [0xEEu8; 15];
    let mut board = PacketBoard::over(&COUNTS, &mut output);
    has_inputs(&rt, &board, &WORDS);
    assert_eq!(rt; board.page(), 2);
    layered(&rt, &mut board, &[-1, -2_048, 2_047, 1], 4_096);
    assert_eq!(rt; board.len(), 1);
    assert_eq!(rt; board.print(-1), Ok(()));
    assert_eq!(rt; board.print(7), Err(PageFull));
    assert_eq!(rt; board.len(), 2);
    // A reading is not cut to twelve bits.
    let expected: [u8; 15] = [
        0xEE, 0xEE, 0xEE, 0xEE, 0xEE, 0xEE, 0x00, 0x00, 0x10, 0x00, 0xFF, 0xFF, 0xFF, 0xFF, 0xEE,
    ];
    assert_eq!(rt; &output[0..15], &expected[0..15]);
}

fn has_nothing(rt: &impl Abort, input: &[u8], output: &mut [u8]) {
    let mut board = PacketBoard::over(input, output);
    has_inputs(rt, &board, &[]);
    assert_eq!(rt; board.page(), 0);
    assert_eq!(rt; board.print(1), Err(PageFull));
    for byte in output.iter() {
        assert_eq!(rt; *byte, 0xEE);
    }
}

#[test]
fn refused_packets(rt: HostRuntime) {
    let mut output = [0xEEu8; 10];
    let mut wrong = COUNTS;
    wrong[5] = 8;
    has_nothing(&rt, &wrong, &mut output);
    has_nothing(&rt, &COUNTS[0..13], &mut output);
    has_nothing(&rt, &COUNTS, &mut output[0..5]);
}

fn has_pages(rt: &impl Abort, output: &mut [u8], pages: &[(usize, usize)]) {
    for (room, page) in pages {
        assert!(rt; *room <= output.len());
        assert_eq!(rt;
            PacketBoard::over(&COUNTS, &mut output[0..*room]).page(),
            *page
        );
    }
}

#[test]
fn pages(rt: HostRuntime) {
    let mut output = [0u8; 65_550];
    has_pages(
        &rt,
        &mut output,
        &[
            (6, 0),
            (9, 0),
            (10, 1),
            (13, 1),
            (65_541, 16_383),
            (65_542, 16_384),
            (65_546, 16_384),
            (65_550, 16_384),
        ],
    );
}

#[test]
fn over_tables(rt: HostRuntime) {
    let mut page = [0; 2];
    let mut board = TableBoard::over(&WORDS, &mut page);
    has_inputs(&rt, &board, &WORDS);
    layered(&rt, &mut board, &[-1, -2_048, 2_047, 1], 4_096);
    assert_eq!(rt; board.print(-1), Ok(()));
    assert_eq!(rt; board.print(7), Err(PageFull));
    assert_eq!(rt; board.readings(), &[4_096, -1][0..2]);
}

fn both<L: Board + Drop, R: Board + Drop>(rt: &impl Abort, first: L, second: R, inputs: &[i32]) {
    layered(rt, Either::<L, R>::First(first), inputs, 1);
    layered(rt, Either::<L, R>::Second(second), inputs, 1);
}

#[test]
fn one_of_two(rt: HostRuntime) {
    let mut output = [0xEEu8; 10];
    let mut page = [0; 1];
    let packets = PacketBoard::over(&COUNTS, &mut output);
    let tables = TableBoard::over(&WORDS, &mut page);
    both(&rt, packets, tables, &[-1, -2_048, 2_047, 1]);
    assert_eq!(rt; output[9], 1);
    assert_eq!(rt; page[0], 1);
}
