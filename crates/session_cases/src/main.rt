// Reads each session of standard input, a line with its name and its bytes in hexadecimal, and writes how the reading ended.
#![tactic(auto)]

ghost use Rattle.std.specs.Prelude.{◌≡◌, ◌≤◌, ◌<◌, length, IfOk, IfSome};
ghost use Rattle.session.specs.Reading as reading;
ghost use Rattle.reading_place.specs.Items.{rest_of};
ghost use Rattle.session_cases.specs.Summary as rule;

use reading_place::{Events, Session};
use session::Bad;
use std::io::{Read, Write};
use std::{fmt, io};

// A whole session: its header refused; its count, all read; or the events read and the fault after them.
#[derive(Clone, Copy)]
enum Outcome {
    Refused(Bad),
    Whole(usize),
    Broken(usize, Bad),
}

impl fmt::Display for Outcome {
    fn fmt<W: fmt::Write>(&self, f: &mut fmt::Formatter<W>) -> fmt::Result {
        match *self {
            Outcome::Refused(bad) => write!(f, "header: {bad}"),
            Outcome::Whole(n) => write!(f, "{n} events: end"),
            Outcome::Broken(n, bad) => write!(f, "{n} events: {bad}"),
        }
    }
}

fn main(rt: HostRuntime) -> io::Result<()> {
    // fixed memory: the first 65,536 bytes are read
    let mut text = [0u8; 65536];
    let n = io::copy(&mut rt.reader().take(65536), &mut &mut text[..])?;
    lines(&mut io::writer(&rt), &text[..n.min(65536) as usize])
}

fn lines<W: Write>(out: &mut W, text: &[u8]) -> io::Result<()> {
    let mut rest = text;
    while rest.len() > 0 {
        rest = line(out, rest)?;
    }
    Ok(())
}

// One line; what follows it is the answer. Its name goes up to the first blank, and its digits from there to the end of their line.
fn line<'a, W: Write>(out: &mut W, text: &'a [u8]) -> io::Result<&'a [u8]>
    requires { 0 < length text.now }
    ensures { IfOk result (λ rest. length rest.now < length text.now) }
{
    let (name, behind) = cut(text, b' ');
    out.write_all(name)?;
    write!(out, ": ")?;
    let Some(behind) = behind else {
        writeln!(out)?;
        return Ok(&[]);
    };
    let (digits, rest) = cut(behind, b'\n');
    let mut space = [0u8; 4096];
    let n = decode(digits, &mut space);
    let outcome = read_all(&space[..n]);
    writeln!(out, "{outcome}")?;
    Ok(rest.unwrap_or(&[]))
}

// What stands before the first b, and behind it where there is one.
fn cut(text: &[u8], b: u8) -> (&[u8], Option<&[u8]>)
    ensures { IfSome result.1 (λ behind. length behind.now < length text.now) }
{
    match text.iter().position(|x| *x == b) {
        Some(place) => (&text[..place], Some(&text[place + 1..])),
        None => (text, None),
    }
}

// The bytes of a text in hexadecimal, as many as out has room for, and how many there are.
fn decode(text: &[u8], out: &mut [u8]) -> usize
    ensures { result ≤ length out.new }
{
    for (place, pair) in out.iter_mut().zip(text.chunks_exact(2)) {
        *place = digit(pair[0]) * 16 + digit(pair[1]);
    }
    out.len().min(text.len() / 2)
}

// A digit's value; of another byte some number below 16, so that every text has bytes.
fn digit(b: u8) -> u8
    ensures { result < 16 }
{
    if b < 58 {
        return b % 48 % 16;
    }
    (b % 16 + 9) % 16
}

// The whole session.
#[tactic(auto, using(crate::proofs::Laws::refused, crate::proofs::Laws::counted))]
fn read_all(s: &[u8]) -> Outcome
    ensures { result ≡ rule.outcome_of (reading.session reading.most_events s.now) }
{
    let mut session = Session::new(s);
    match session.header() {
        Err(bad) => Outcome::Refused(bad),
        Ok(count) => read_events(session.events(count)),
    }
}

fn read_events(events: Events<'_>) -> Outcome
    requires { length (rest_of events) ≤ 65536 }
    ensures { result ≡ rule.summary 0 (rest_of events.entry) }
{
    let mut n = 0;
    for item in events {
        if let Err(bad) = item {
            return Outcome::Broken(n, bad);
        }
        n += 1;
    }
    Outcome::Whole(n)
}
