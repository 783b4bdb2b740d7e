// The header of an output packet, and whole packets.
use answer::Refusal;
use packet::{Header, OutputId, PacketType, SequenceFlags, write_readings};
use std::process::Abort;
use std::test::Fail;

/// An input packet with one count.
const ONE_COUNT: [u8; 8] = [0x00, 0x05, 0xC0, 0x06, 0x00, 0x01, 0x00, 0x2A];

#[test]
fn identities(rt: HostRuntime) {
    // 2,047 marks idle packets, and a sequence count has 14 bits.
    let cases: [(u16, u16, bool); 8] = [
        (0, 0, true),
        (2_046, 16_383, true),
        (2_047, 0, false),
        (2_048, 0, false),
        (65_535, 0, false),
        (2_046, 16_384, false),
        (0, 65_535, false),
        (2_047, 16_384, false),
    ];
    for (apid, count, fits) in cases {
        match OutputId::of(apid, count) {
            Ok(_) => assert!(rt; fits),
            Err(refusal) => {
                assert!(rt; !fits);
                assert_eq!(rt; refusal.reason.number(), 44);
                assert_eq!(rt; refusal.place_number(), 65_535);
            }
        }
    }
}

fn completed(apid: u16, count: u16, output: &mut [u8], readings: usize) -> Result<usize, Refusal> {
    let id = OutputId::of(apid, count)?;
    Ok(id.complete(output, readings))
}

#[test]
fn headers(rt: HostRuntime) -> Result<(), Fail> {
    // Application, sequence count, readings, and the six bytes.
    let cases: [(u16, u16, usize, [u8; 6]); 5] = [
        (5, 6, 1, [0x00, 0x05, 0xC0, 0x06, 0x00, 0x03]),
        (0, 0, 2, [0x00, 0x00, 0xC0, 0x00, 0x00, 0x07]),
        (0x400, 0x2000, 64, [0x04, 0x00, 0xE0, 0x00, 0x00, 0xFF]),
        (0x555, 0x1555, 65, [0x05, 0x55, 0xD5, 0x55, 0x01, 0x03]),
        (2_046, 16_383, 66, [0x07, 0xFE, 0xFF, 0xFF, 0x01, 0x07]),
    ];
    for (apid, count, readings, expected) in cases {
        let mut output = [0xEEu8; 270];
        let length = completed(apid, count, &mut output, readings)?;
        assert_eq!(rt; length, 6 + 4 * readings);
        assert_eq!(rt; &output[0..6], &expected[0..6]);
        assert_eq!(rt; &output[6..270], &[0xEEu8; 264][0..264]);
    }
    Ok(())
}

fn has_sizes(
    rt: &impl Abort,
    output: &mut [u8],
    sizes: &[(usize, usize, usize)],
) -> Result<(), Fail> {
    for (room, readings, expected) in sizes {
        assert!(rt; *room <= output.len());
        assert_eq!(rt;
            completed(1, 1, &mut output[0..*room], *readings)?,
            *expected
        );
    }
    Ok(())
}

#[test]
fn sizes(rt: HostRuntime) -> Result<(), Fail> {
    // Room, readings, and the bytes of the packet: none without readings or where they do not fit.
    let cases = [
        (0, 0, 0),
        (0, 1, 0),
        (6, 0, 0),
        (9, 1, 0),
        (10, 1, 10),
        (10, 2, 0),
        (13, 1, 10),
        (14, 2, 14),
        (65_541, 16_384, 0),
        (65_542, 16_384, 65_542),
        (65_550, 16_385, 0),
    ];
    let mut output = [0xEEu8; 65_550];
    has_sizes(&rt, &mut output, &cases)
}

#[test]
fn largest(rt: HostRuntime) -> Result<(), Fail> {
    let mut output = [0xEEu8; 65_542];
    // The largest length field.
    let largest = Header {
        version: 0,
        kind: PacketType::Telemetry,
        secondary: false,
        apid: 2_046,
        sequence_flags: SequenceFlags::Unsegmented,
        sequence_count: 16_383,
        data_length: 65_535,
    };
    assert_eq!(rt; completed(2_046, 16_383, &mut output, 16_384)?, 65_542);
    assert_eq!(rt;
        &output[0..6],
        &[0x07u8, 0xFE, 0xFF, 0xFF, 0xFF, 0xFF][0..6]
    );
    assert_eq!(rt; Header::read(&output), Some(largest));
    Ok(())
}

#[test]
fn whole_packets(rt: HostRuntime) -> Result<(), Fail> {
    let mut output = [0xEEu8; 21];
    let readings = [10, -2, i32::MIN, 4];
    let taken = write_readings(&ONE_COUNT, &mut output, &readings);
    assert_eq!(rt; taken, 3);
    assert_eq!(rt; completed(5, 6, &mut output, taken)?, 18);
    let expected: [u8; 21] = [
        0x00, 0x05, 0xC0, 0x06, 0x00, 0x0B, 0x00, 0x00, 0x00, 0x0A, 0xFF, 0xFF, 0xFF, 0xFE, 0x80,
        0x00, 0x00, 0x00, 0xEE, 0xEE, 0xEE,
    ];
    assert_eq!(rt; &output[0..21], &expected[0..21]);
    // Nothing is written where the input is refused.
    let mut untouched = [0xEEu8; 21];
    assert_eq!(rt;
        write_readings(&ONE_COUNT[0..7], &mut untouched, &readings),
        0
    );
    assert_eq!(rt; &untouched[0..21], &[0xEEu8; 21][0..21]);
    Ok(())
}

#[test]
fn worked_through(rt: HostRuntime) -> Result<(), Fail> {
    // The packet that docs/PACKETS.md works through.
    let input = [0x00, 0x05, 0xC0, 0x06, 0x00, 0x03, 0x0F, 0xFF, 0x00, 0x2A];
    let mut output = [0xEEu8; 17];
    let taken = write_readings(&input, &mut output, &[10, -2, 3]);
    assert_eq!(rt; completed(9, 258, &mut output, taken)?, 14);
    let expected: [u8; 17] = [
        0x00, 0x09, 0xC1, 0x02, 0x00, 0x07, 0x00, 0x00, 0x00, 0x0A, 0xFF, 0xFF, 0xFF, 0xFE, 0xEE,
        0xEE, 0xEE,
    ];
    assert_eq!(rt; &output[0..17], &expected[0..17]);
    Ok(())
}
