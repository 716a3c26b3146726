// Works the check over standard input bit by bit, and then from the table, and writes both. bench/run counts the instructions between the writes.
#![tactic(auto)]

ghost use Rattle.std.specs.Prelude.{◌≡◌};
ghost use Rattle.line.specs.Bits as bits;
ghost use Rattle.line.specs.Check as check;
ghost use Rattle.line.specs.Frame as frame;

use std::io;
use std::io::{Read, Write};

// Standard input is read so in four programs: each stands alone, and a crate for these lines is no plainer.
fn main(rt: HostRuntime) -> io::Result<()> {
    // fixed memory: no program allocates; the first 4,096 bytes are read
    let mut room = [0u8; 4096];
    let n = io::copy(&mut rt.reader().take(4096), &mut &mut room[..])?;
    compare(&mut io::writer(&rt), &room[..n.min(4096) as usize])
}

// The number of bytes comes first: it costs what a line costs by itself.
fn compare<W: Write>(out: &mut W, bytes: &[u8]) -> io::Result<()> {
    out.write_all(b"bytes, check bit by bit, check from the table\n")?;
    say(out, (bytes.len() % 65536) as u16)?;
    say(out, bit_by_bit(bytes))?;
    say(out, frame_check::check_of(bytes))
}

// A line with a number, of five digits. By hand: bench/run takes off what a line costs, so a line is one write and costs the same for every number.
fn say<W: Write>(out: &mut W, number: u16) -> io::Result<()> {
    let digits = [
        48 + (number / 10000) as u8,
        48 + (number / 1000 % 10) as u8,
        48 + (number / 100 % 10) as u8,
        48 + (number / 10 % 10) as u8,
        48 + (number % 10) as u8,
        b'\n',
    ];
    out.write_all(&digits)
}

// The remainder once one bit more is divided.
#[tactic(auto, using(std::proofs::lemmas::Bool::Decides::nat_tests), unfolding(line::specs::Check::check_bit, line::specs::Check::polynomial))]
fn bit_divided(remainder: u16, bit: u8) -> u16
    ensures { result ≡ check.check_bit remainder bit }
{
    let low = remainder % 16384 * 2;
    if remainder / 16384 == u16::from(bit) {
        return low;
    }
    low ^ 0b000111110011101
}

// The remainder once the four bits of a nibble are divided.
#[tactic(auto, using(std::proofs::lemmas::Bool::Decides::nat_tests), unfolding(line::specs::Bits::bits, line::specs::Check::remainder))]
fn nibble_by_bits(remainder: u16, nibble: u8) -> u16
    ensures { result ≡ check.remainder remainder (bits.bits 4 nibble) }
{
    let a = bit_divided(remainder, nibble / 8 % 2);
    let b = bit_divided(a, nibble / 4 % 2);
    let c = bit_divided(b, nibble / 2 % 2);
    bit_divided(c, nibble % 2)
}

// The remainder once the eight bits of a byte are divided.
#[tactic(auto, using(std::proofs::lemmas::Bool::Decides::nat_tests, line::proofs::Laws::bits_split, line::proofs::Laws::remainder_append))]
fn byte_by_bits(remainder: u16, byte: u8) -> u16
    ensures { result ≡ check.remainder remainder (bits.bits 8 byte) }
{
    let high = nibble_by_bits(remainder, byte / 16);
    nibble_by_bits(high, byte)
}

// The check over a row of bytes, one bit at a time.
#[tactic(auto, using(std::proofs::lemmas::Bool::Decides::nat_tests, line::proofs::Laws::remainder_below, line::proofs::Laws::bytes_next, line::proofs::Laws::bytes_end), unfolding(line::specs::Check::check, line::specs::Check::all_ones))]
fn bit_by_bit(bytes: &[u8]) -> u16
    ensures { result ≡ check.check (frame.byte_bits bytes.now) }
{
    let mut r = frame_check::ALL_ONES;
    for byte in bytes {
        r = byte_by_bits(r, *byte);
    }
    frame_check::ALL_ONES - r
}
