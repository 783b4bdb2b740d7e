// Prints output packets as the library writes them, one a line: application number, sequence count, how many
// readings, and the bytes in hexadecimal. An outside reader of the protocol is given these lines.
#![tactic(auto)]

use packet::{HEADER_BYTES, OutputId, write_readings};
use std::{fmt, io};

/// An input packet with one count.
const INPUT: [u8; 8] = [0x00, 0x05, 0xC0, 0x06, 0x00, 0x01, 0x00, 0x2A];

/// Application numbers and sequence counts at the ends of their fields and between.
const IDENTITIES: [(u16, u16); 8] = [
    (0, 0),
    (1, 1),
    (5, 6),
    (1_023, 8_191),
    (1_024, 8_192),
    (1_365, 10_922),
    (2_045, 16_382),
    (2_046, 16_383),
];

/// The readings of the packets: the first packet has the first, the next one two, and so on.
const READINGS: [i32; 8] = [10, -1, i32::MIN, i32::MAX, 0, 256, -65_536, 0x0102_0304];

/// Bytes, shown in hexadecimal.
#[derive(Clone, Copy)]
struct Bytes<'a>(&'a [u8]);

impl fmt::Display for Bytes<'_> {
    fn fmt<W: fmt::Write>(&self, f: &mut fmt::Formatter<W>) -> fmt::Result {
        for byte in self.0 {
            write!(f, "{byte:02x}")?;
        }
        Ok(())
    }
}

/// Writes a packet into the output and answers its bytes, none of them where there is no packet.
fn written<'a>(output: &'a mut [u8], apid: u16, count: u16, readings: &[i32]) -> &'a [u8] {
    let Ok(id) = OutputId::of(apid, count) else {
        return &[];
    };
    let taken = write_readings(&INPUT, output, readings);
    let length = id.complete(output, taken);
    &output[..length]
}

fn main(rt: HostRuntime) -> io::Result<()> {
    for (i, (apid, count)) in IDENTITIES.iter().enumerate() {
        let mut output = [0; 38];
        let n = i + 1;
        let packet = written(&mut output, *apid, *count, &READINGS[..n]);
        println!(rt; "{apid} {count} {n} {}", Bytes(packet))?;
    }
    // The largest packet, all of its readings 0: its header alone is printed.
    let mut output = [0; 65_542];
    let zeros = [0; 16_384];
    let packet = written(&mut output, 2_046, 16_383, &zeros);
    let length = packet.len();
    let header = packet.get(..HEADER_BYTES).unwrap_or(packet);
    println!(rt; "2046 16383 16384 {} {length}", Bytes(header))
}
