// Plays each session of standard input on a fresh controller and writes its number and its listing (01, Session and listing).
// The input: how many sessions there are, then each, its length in front of it; both in two bytes, the high one first.
#![tactic(auto)]

ghost use Rattle.std.specs.Prelude.{◌≤◌, length};
ghost use Rattle.reading_place.specs.Items.{rest_of};

use reading_place::{Events, Session};
use rules::{Controller, Refusal};
use session::Event;
use std::io::{Read, Write};
use std::{fmt, io};

// What the controller answered, as it ends the line of an event: of a reset or a write; of a read, its byte; of a slot, the level driven.
#[derive(Clone, Copy)]
enum Answer {
    Done(Result<(), Refusal>),
    Byte(Result<u8, Refusal>),
    Level(Result<u8, Refusal>),
}

impl fmt::Display for Answer {
    fn fmt<W: fmt::Write>(&self, f: &mut fmt::Formatter<W>) -> fmt::Result {
        match *self {
            Answer::Done(Ok(())) => write!(f, " ok"),
            Answer::Byte(Ok(byte)) => write!(f, " {byte:02X}"),
            Answer::Level(Ok(level)) => write!(f, " drives {level}"),
            Answer::Done(Err(why)) | Answer::Byte(Err(why)) | Answer::Level(Err(why)) => {
                let number = u8::from(why);
                write!(f, " refused {number}")
            }
        }
    }
}

fn main(rt: HostRuntime) -> io::Result<()> {
    let mut from = rt.reader();
    let mut out = io::writer(&rt);
    for n in 0..number(&mut from)? {
        writeln!(&mut out, "session {n}")?;
        play_next(&mut from, &mut out)?;
    }
    Ok(())
}

// The next byte of the input, or 0 where it has ended.
fn byte<R: Read>(from: &mut R) -> io::Result<u8> {
    let mut b = [0u8; 1];
    from.read(&mut b)?;
    Ok(b[0])
}

// The next number of the input: two bytes, the high one first.
fn number<R: Read>(from: &mut R) -> io::Result<u16> {
    let high = byte(from)?;
    let low = byte(from)?;
    Ok(u16::from_be_bytes([high, low]))
}

fn play_next<R: Read, W: Write>(from: &mut R, out: &mut W) -> io::Result<()> {
    let length = number(from)?;
    // fixed memory: a session is shorter than 65,536 bytes
    let mut space = [0u8; 65536];
    let n = io::copy(
        &mut from.by_ref().take(u64::from(length)),
        &mut &mut space[..],
    )?;
    play(out, &space[..n.min(65536) as usize])
}

// The listing of a session.
fn play<W: Write>(out: &mut W, s: &[u8]) -> io::Result<()> {
    let mut session = Session::new(s);
    match session.header() {
        Err(bad) => writeln!(out, "{bad}"),
        Ok(count) => {
            writeln!(out, "events {count}")?;
            play_events(out, session.events(count), count)
        }
    }
}

fn play_events<W: Write>(out: &mut W, events: Events<'_>, count: u16) -> io::Result<()>
    requires { length (rest_of events) ≤ 65536 }
{
    let mut c = controller::fresh();
    for (n, item) in events.enumerate() {
        match item {
            Ok(event) => play_event(out, &mut c, n, event)?,
            Err(bad) => return writeln!(out, "{bad}"),
        }
    }
    writeln!(out, "end {count}")
}

// Room for the line of an event: the longest has 26 bytes.
const LINE: usize = 32;

// An event, with its line, which is written at once. A mark has no effect.
fn play_event<W: Write>(out: &mut W, c: &mut Controller, n: usize, e: Event) -> io::Result<()> {
    // fixed memory: no program allocates
    let mut room = [0u8; LINE];
    let mut rest = &mut room[..];
    put_event(&mut rest, c, n, e)?;
    let length = LINE.saturating_sub(rest.len());
    out.write_all(&room[..length])
}

fn put_event<W: Write>(line: &mut W, c: &mut Controller, n: usize, e: Event) -> io::Result<()> {
    match e {
        Event::Reset => {
            let answer = Answer::Done(controller::pin_reset(c));
            writeln!(line, "{n} reset{answer}")
        }
        Event::Write(address, value) => {
            let answer = Answer::Done(controller::host_write(c, address, value));
            writeln!(line, "{n} write {address:02X}{answer}")
        }
        Event::Read(address) => {
            let answer = Answer::Byte(controller::host_read(c, address));
            writeln!(line, "{n} read {address:02X}{answer}")
        }
        Event::Slot(levels) => {
            let answer = Answer::Level(controller::slot(c, levels));
            writeln!(line, "{n} slot {levels}{answer}")
        }
        Event::Mark(v) => writeln!(line, "{n} mark {v}"),
    }
}
