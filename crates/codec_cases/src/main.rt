// Runs every case of its input through the codec and writes the case with what the codec gives.
#![tactic(auto)]

ghost use Rattle.std.specs.Prelude.{◌≤◌};

use codec::{Head, Refusal};
use std::io;
use std::io::{Read, Write};

// Word k of a line, from 0 on; nothing where there are fewer.
fn word(s: &[u8], k: usize) -> &[u8] {
    s.split(|byte| *byte == b' ').nth(k).unwrap_or(&[])
}

fn decimal(s: &[u8]) -> u32 {
    s.iter().fold(0u32, |x, digit| (x % 100000) * 10 + u32::from(*digit % 16))
}

// The value of word k.
fn value_of(s: &[u8], k: usize) -> u32 {
    decimal(word(s, k))
}

// Beside session_cases' `digit`: each program stands alone, and a crate for these lines is no plainer.
fn digit(b: u8) -> u8 {
    if b < 58 {
        return b % 16;
    }
    b % 16 + 9
}

// The first n places, or all where there are fewer.
fn front(s: &mut [u8], n: usize) -> &mut [u8] {
    let n = n.min(s.len());
    &mut s[..n]
}

// Two hexadecimal digits a byte, as many as there is room for; `-` is none.
fn read_bytes<'a>(s: &[u8], out: &'a mut [u8]) -> &'a [u8] {
    let n = out.len().min(s.len() / 2);
    for (place, pair) in out.iter_mut().zip(s.chunks_exact(2)) {
        *place = digit(pair[0]) % 16 * 16 + digit(pair[1]) % 16;
    }
    &out[..n]
}

// One digit a slot, as many as there is room for; `-` is none.
fn read_slots<'a>(s: &[u8], out: &'a mut [u8]) -> &'a [u8] {
    let end = s.iter().position(|byte| *byte == b'-').unwrap_or(s.len());
    let n = end.min(s.len()).min(out.len());
    for (place, digit) in out.iter_mut().zip(&s[..n]) {
        *place = *digit % 16;
    }
    &out[..n]
}

fn say_refused<W: Write>(out: &mut W, why: Refusal) -> io::Result<()> {
    let number = u8::from(why);
    write!(out, "refused {number}")
}

fn say_slots<W: Write>(out: &mut W, s: &[u8]) -> io::Result<()> {
    for slot in s {
        out.write_all(&[b'0' + *slot % 10])?;
    }
    Ok(())
}

// The digits of a number in hexadecimal.
const DIGITS: &[u8; 16] = b"0123456789ABCDEF";

fn say_bytes<W: Write>(out: &mut W, s: &[u8]) -> io::Result<()> {
    if s.is_empty() {
        return write!(out, "-");
    }
    for byte in s {
        let high = DIGITS[usize::from(*byte / 16)];
        let low = DIGITS[usize::from(*byte % 16)];
        out.write_all(&[high, low])?;
    }
    Ok(())
}

// encode IDENTIFIER COMMAND DATA ACKNOWLEDGE ROOM
fn encode_case<W: Write>(out: &mut W, s: &[u8]) -> io::Result<()> {
    // fixed memory: no program allocates
    let mut data = [0u8; 80];
    let mut slots = [0u8; 512];
    let bytes = read_bytes(word(s, 3), &mut data);
    match encode_words(s, bytes, &mut slots) {
        Err(why) => say_refused(out, why),
        Ok(n) => say_slots(out, slots.get(..n).unwrap_or(&[])),
    }
}

fn encode_words(s: &[u8], bytes: &[u8], slots: &mut [u8]) -> Result<usize, Refusal> {
    let acknowledge = value_of(s, 4) == 1;
    let room = value_of(s, 5) as usize;
    encoder::encode(
        value_of(s, 1),
        value_of(s, 2),
        bytes,
        acknowledge,
        front(slots, room),
    )
}

// decode SLOTS ROOM
fn decode_case<W: Write>(out: &mut W, s: &[u8]) -> io::Result<()> {
    // fixed memory: no program allocates
    let mut room = [0u8; 512];
    let mut data = [0u8; 80];
    let slots = read_slots(word(s, 1), &mut room);
    let most = value_of(s, 2) as usize;
    match decoder::decode(slots, front(&mut data, most)) {
        Err(why) => say_refused(out, why),
        Ok(head) => say_frame(out, head, &data),
    }
}

fn say_frame<W: Write>(out: &mut W, head: Head, data: &[u8]) -> io::Result<()> {
    let identifier = head.identifier;
    let command = head.command;
    write!(out, "{identifier} {command} ")?;
    say_bytes(out, data.get(..usize::from(head.count)).unwrap_or(&[]))?;
    if head.acknowledge {
        return out.write_all(b" 1");
    }
    out.write_all(b" 0")
}

// captured IDENTIFIER COMMAND DATA: the check that stands in the encoded frame, followed by a zero bit
fn captured_case<W: Write>(out: &mut W, s: &[u8]) -> io::Result<()> {
    // fixed memory: no program allocates
    let mut data = [0u8; 80];
    let mut slots = [0u8; 512];
    let bytes = read_bytes(word(s, 3), &mut data);
    let n = bytes.len() % 31;
    let _ = encoder::encode(
        value_of(s, 1),
        value_of(s, 2),
        &bytes[..n],
        true,
        &mut slots,
    );
    let at = 30 + 10 * n;
    say_bytes(out, &[byte_at(&slots, at), byte_at(&slots, at + 10)])
}

// The number that four slots write.
fn nibble(s: &[u8; 512], at: usize) -> u8
    requires { at ≤ 500 }
{
    s[at] % 2 * 8 + s[at + 1] % 2 * 4 + s[at + 2] % 2 * 2 + s[at + 3] % 2
}

// The byte that two nibbles from `at` on write.
fn byte_at(s: &[u8; 512], at: usize) -> u8
    requires { at ≤ 490 }
{
    nibble(s, at) % 16 * 16 + nibble(s, at + 5) % 16
}

// bytes DATA: the check of the bytes alone
fn bytes_case<W: Write>(out: &mut W, s: &[u8]) -> io::Result<()> {
    // fixed memory: no program allocates
    let mut data = [0u8; 80];
    let check = frame_check::check_of(read_bytes(word(s, 1), &mut data));
    write!(out, "{check:04X}")
}

// A line of the input, without its line feed: a case, or a remark that is written as it stands.
fn case<W: Write>(out: &mut W, s: &[u8]) -> io::Result<()> {
    let mut parts = s.split(|byte| *byte == b'=');
    let front = parts.next().unwrap_or(s);
    if front.len() == s.len() || s.starts_with(b"#") {
        return out.write_all(s);
    }
    out.write_all(front)?;
    write!(out, "= ")?;
    answer(out, s)
}

// What the codec gives, by the first letter of the case.
fn answer<W: Write>(out: &mut W, s: &[u8]) -> io::Result<()> {
    match s.first() {
        Some(b'e') => encode_case(out, s),
        Some(b'd') => decode_case(out, s),
        Some(b'c') => captured_case(out, s),
        _ => bytes_case(out, s),
    }
}

// Every line.
fn run<W: Write>(out: &mut W, s: &[u8]) -> io::Result<()> {
    for line in s.split_inclusive(|byte| *byte == b'\n') {
        case(out, line.strip_suffix(b"\n").unwrap_or(line))?;
        out.write_all(b"\n")?;
    }
    Ok(())
}

// Standard input is read so in four programs: each stands alone, and a crate for these lines is no plainer.
fn main(rt: HostRuntime) -> io::Result<()> {
    // fixed memory: no program allocates; the first 131,072 bytes are read
    let mut text = [0u8; 131072];
    let n = io::copy(&mut rt.reader().take(131072), &mut &mut text[..])?;
    run(&mut io::writer(&rt), &text[..n.min(131072) as usize])
}
