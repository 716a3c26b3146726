// Reads a session: what stands at a place of lent bytes (01, Session and listing).
#![tactic(auto)]

ghost use Rattle.std.specs.Prelude.{◌≡◌, Some};
ghost use Rattle.session.specs.Reading as rule;
ghost use Rattle.session.specs.Cases.{Cases};

use leb128::Refusal;
use std::fmt;

// Why a session is refused.
#[derive(Clone, Copy, Debug, PartialEq, Eq)]
pub enum Fault {
    Cut,
    NotShortest,
    TooLarge,
    Version,
    Count,
    Kind,
    LeftOver,
}

// An event with its numbers: pin reset; address and value; address; levels; a mark.
#[derive(Clone, Copy, Debug, PartialEq, Eq)]
pub enum Event {
    Reset,
    Write(u16, u16),
    Read(u16),
    Slot(u16),
    Mark(u16),
}

// What is wrong, the place of it, and how many bytes of its number were looked at.
#[derive(Clone, Copy, Debug, PartialEq, Eq)]
pub struct Bad {
    pub why: Fault,
    pub at: usize,
    pub looked: usize,
}

// `bad 30 at 1 after 1`, without the end of the line.
impl fmt::Display for Bad {
    ghost output = { λ bad. Some (rule.bad_text bad) };

    #[tactic(auto, unfolding(crate::specs::Reading::bad_text))]
    fn fmt<W: fmt::Write>(&self, f: &mut fmt::Formatter<W>) -> fmt::Result {
        let number = u8::from(self.why);
        let at = self.at;
        let looked = self.looked;
        write!(f, "bad {number} at {at} after {looked}")
    }
}

// The largest count.
const MOST_EVENTS: u16 = 4096;

impl From<Refusal> for Fault {
    ghost from_gives = { λ why fault. fault ≡ rule.refusal why };

    #[tactic(auto, unfolding(crate::specs::Reading::refusal))]
    fn from(why: Refusal) -> Self {
        match why {
            Refusal::Cut => Fault::Cut,
            Refusal::NotShortest => Fault::NotShortest,
            Refusal::TooLarge => Fault::TooLarge,
        }
    }
}

// The number of a fault.
impl From<Fault> for u8 {
    ghost from_gives = { λ fault number. number ≡ rule.fault_number fault };

    #[tactic(auto, unfolding(crate::specs::Reading::fault_number))]
    fn from(fault: Fault) -> Self {
        match fault {
            Fault::Cut => 30,
            Fault::NotShortest => 31,
            Fault::TooLarge => 32,
            Fault::Version => 33,
            Fault::Count => 34,
            Fault::Kind => 35,
            Fault::LeftOver => 36,
        }
    }
}

// The number at a place, with the place behind it and how many bytes it used; a number of one group needs no reader. A place past the end is the end.
#[tactic(auto, using(std::proofs::lemmas::Bool::Decides::nat_tests, crate::proofs::Laws::past_end, crate::proofs::Laws::one_group, crate::proofs::Laws::found, crate::proofs::Laws::refused))]
fn varint_at(s: &[u8], at: usize) -> Result<(u16, usize, usize), Bad>
    ensures { result ≡ rule.varint_at s.now at }
{
    if s.len() <= at {
        return Err(Bad {
            why: Fault::Cut,
            at: s.len(),
            looked: 0,
        });
    }
    let b = s[at];
    if b < 128 {
        return Ok((u16::from(b), at + 1, 1));
    }
    match leb128::read(&s[at..]) {
        Ok(number) => Ok((number.value, at + number.used, number.used)),
        Err(bad) => Err(Bad {
            why: Fault::from(bad.why),
            at,
            looked: bad.looked,
        }),
    }
}

// The header at a place: version and count. With the count goes the place behind it.
#[tactic(auto, using(std::proofs::lemmas::Bool::Decides::nat_tests), unfolding(crate::specs::Reading::header_at, crate::specs::Reading::versioned))]
pub fn header_at(s: &[u8], at: usize) -> Result<(u16, usize), Bad>
    ensures { result ≡ rule.header_at rule.most_events s.now at }
{
    let (version, next, looked) = varint_at(s, at)?;
    if version == 1 {
        count_at(s, next)
    } else {
        Err(Bad {
            why: Fault::Version,
            at,
            looked,
        })
    }
}

#[tactic(auto, using(std::proofs::lemmas::Bool::Decides::nat_tests), unfolding(crate::specs::Reading::counted))]
fn count_at(s: &[u8], at: usize) -> Result<(u16, usize), Bad>
    ensures { result ≡ rule.counted rule.most_events at (rule.varint_at s.now at) }
{
    let (count, next, looked) = varint_at(s, at)?;
    if MOST_EVENTS < count {
        return Err(Bad {
            why: Fault::Count,
            at,
            looked,
        });
    }
    Ok((count, next))
}

// The event at a place, with the place behind it.
#[tactic(auto, using(std::proofs::lemmas::Bool::Decides::nat_tests), unfolding(crate::specs::Reading::event_at, crate::specs::Reading::kinded))]
pub fn event_at(s: &[u8], at: usize) -> Result<(Event, usize), Bad>
    ensures { result ≡ rule.event_at s.now at }
{
    let (kind, next, looked) = varint_at(s, at)?;
    match kind {
        0 => Ok((Event::Reset, next)),
        1..=4 => numbers_at(s, kind, next),
        _ => Err(Bad {
            why: Fault::Kind,
            at,
            looked,
        }),
    }
}

// The event of a kind from 1 on: its numbers follow.
#[tactic(auto, using(std::proofs::lemmas::Bool::Decides::nat_tests), unfolding(crate::specs::Reading::operands))]
fn numbers_at(s: &[u8], kind: u16, at: usize) -> Result<(Event, usize), Bad>
    ensures { result ≡ rule.operands s.now kind (rule.varint_at s.now at) }
{
    let (n, next, _) = varint_at(s, at)?;
    match kind {
        1 => value_at(s, n, next),
        2 => Ok((Event::Read(n), next)),
        3 => Ok((Event::Slot(n), next)),
        _ => Ok((Event::Mark(n), next)),
    }
}

#[tactic(auto, using(std::proofs::lemmas::Bool::Decides::nat_tests), unfolding(crate::specs::Reading::valued))]
fn value_at(s: &[u8], address: u16, at: usize) -> Result<(Event, usize), Bad>
    ensures { result ≡ rule.valued address (rule.varint_at s.now at) }
{
    let (value, next, _) = varint_at(s, at)?;
    Ok((Event::Write(address, value), next))
}

// What follows the last event: nothing, in a good session.
#[tactic(auto, using(std::proofs::lemmas::Bool::Decides::nat_tests), unfolding(crate::specs::Reading::end_at))]
pub fn end_at(s: &[u8], at: usize) -> Result<(), Bad>
    ensures { result ≡ rule.end_at s.now at }
{
    if at < s.len() {
        return Err(Bad {
            why: Fault::LeftOver,
            at,
            looked: 0,
        });
    }
    Ok(())
}

// Claim: the sessions that document 01 shows. What holds of every session is stated in crate claims.
fn cases()
    ensures { Cases }
{}
