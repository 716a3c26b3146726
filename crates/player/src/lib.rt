// The bench player: a session's bytes in, its listing out (01, Session and listing).
#![tactic(auto)]

ghost use Rattle.std.specs.Prelude.{◌≡◌, true, ◌+◌, ◌*◌, ◌≤◌, length, set};
ghost use Rattle.session.specs.Reading as reading;
ghost use Rattle.rules.specs.Definitions.State as state_rule;
ghost use Rattle.rules.specs.Definitions.Run as run;
ghost use Rattle.rules.specs.Definitions.Answers as answers;
ghost use Rattle.listing.specs.Listing as text;
ghost use Rattle.listing.specs.Laid.{Laid};
ghost use Rattle.bench_record.specs.Record as rule;
ghost use Rattle.reading_place.specs.Items.{rest_of};
ghost use Rattle.player.specs.Rows as rows;

use listing::Edge;
use reading_place::{Events, Session};
use rules::{Controller, Refusal};
use session::{Bad, Event};

// Room for any listing: 4,096 events, a line before them and one behind.
pub const ROOM: usize = 327840;

// Room for any line.
const LINE: usize = 80;

// ---- a text in room that may end before it: what the room has no place for is left out, and counted

// A byte, as by `set`: with no such place nothing is written.
#[tactic(auto, using(std::proofs::lemmas::Bool::Decides::nat_tests))]
fn put(room: &mut [u8], at: usize, b: u8)
    ensures { room.new ≡ set room.old at b }
{
    if at < room.len() {
        room[at] = b;
    }
}

// A text; the answer is the place behind it.
#[tactic(auto, using(std::proofs::lemmas::Bool::Decides::nat_tests, line::proofs::Room::put_next, line::proofs::Room::put_end))]
fn lay(room: &mut [u8], at: usize, text: &[u8]) -> usize
    requires { at + length text.now ≤ 327840 }
    ensures { Laid room.old at text.now room.new result }
{
    for (k, b) in text.iter().enumerate() {
        put(room, at + k, *b);
    }
    at + text.len()
}

// An event's line. In room that may be too short it is made aside. The refusal's number and the value stay two numbers: the lent controller answers so, also to C.
// Lines are laid by hand into fixed room: written by `Display` an event took about twice the instructions (687 against 348).
#[tactic(auto, using(std::proofs::lemmas::Bool::Decides::nat_tests, listing::proofs::Laws::line_laid, crate::proofs::Aside::line_copied))]
fn lay_line(room: &mut [u8], at: usize, index: u16, e: Event, refused: u8, value: u8) -> usize
    requires { at + text.longest_line ≤ 327840 }
    ensures laid { Laid room.old at (text.line index e refused value) room.new result }
    ensures bound { result ≤ at + text.longest_line }
{
    if ROOM <= room.len() {
        return listing::put_line(room, at, index, e, refused, value);
    }
    let mut aside = [0; LINE];
    let n = listing::put_line(&mut aside, 0, index, e, refused, value);
    lay(room, at, &aside[..n])
}

// A line before or behind those of the events, likewise.
#[tactic(auto, using(std::proofs::lemmas::Bool::Decides::nat_tests, listing::proofs::Laws::line_laid, crate::proofs::Aside::line_copied))]
fn lay_edge(room: &mut [u8], at: usize, l: Edge) -> usize
    requires { at + text.longest_line ≤ 327840 }
    ensures laid { Laid room.old at (text.edge_line l) room.new result }
    ensures bound { result ≤ at + text.longest_line }
{
    if ROOM <= room.len() {
        return listing::put_edge(room, at, l);
    }
    let mut aside = [0; LINE];
    let n = listing::put_edge(&mut aside, 0, l);
    lay(room, at, &aside[..n])
}

// The line of a fault, with its place and how many bytes were looked at there.
#[tactic(auto, using(std::proofs::lemmas::Bool::Decides::nat_tests))]
fn lay_fault(room: &mut [u8], at: usize, bad: Bad) -> usize
    requires { at + text.longest_line ≤ 327840 }
    ensures laid { Laid room.old at (text.bad_line (reading.fault_number bad.why) bad.at bad.looked) room.new result }
    ensures bound { result ≤ at + text.longest_line }
{
    lay_edge(room, at, Edge::Bad(u8::from(bad.why), bad.at, bad.looked))
}

// ---- an event

// Every state that is reached is in its ranges, so that they are not asked. A mark has no effect.
#[tactic(auto, using(std::proofs::lemmas::Bool::Decides::nat_tests), unfolding(bench_record::specs::Record::answer_to, rules::specs::Definitions::Run::step, rules::specs::Definitions::Run::accept, rules::specs::Definitions::Answers::done, rules::specs::Definitions::Answers::lent, rules::specs::Definitions::Answers::refused_by, rules::specs::Definitions::Answers::value_of))]
fn answer(c: &mut Controller, e: Event) -> Result<u8, Refusal>
    requires range { state_rule.in_range c.old ≡ true }
    ensures { answers.lent result c.new ≡ rule.answer_to c.old e }
{
    match e {
        Event::Reset => controller::pin_reset(c)?,
        Event::Write(address, value) => {
            host::host_write_in_range(&mut c.memory, &mut c.core, address, value)?;
        }
        Event::Read(address) => {
            return host_read::host_read_in_range(&c.memory, &c.core, address);
        }
        Event::Slot(levels) => return slots::slot_in_range(&mut c.memory, &mut c.core, levels),
        Event::Mark(_) => {}
    }
    Ok(0)
}

// An event, and its line at a place; the answer is the place behind it.
#[tactic(auto, using(std::proofs::lemmas::Bool::Decides::nat_tests, crate::proofs::Events::event_laid, crate::proofs::Events::event_next))]
fn play_event(c: &mut Controller, index: u16, e: Event, room: &mut [u8], at: usize) -> usize
    requires room { at + text.longest_line ≤ 327840 }
    requires range { state_rule.in_range c.old ≡ true }
    ensures state { c.new ≡ (rule.answer_to c.old e).next }
    ensures laid { Laid room.old at (text.line index e (rule.answer_to c.old e).refused (rule.answer_to c.old e).value) room.new result }
    ensures bound { result ≤ at + text.longest_line }
{
    let a = answer(c, e);
    lay_line(
        room,
        at,
        index,
        e,
        answers::refused_by(a),
        answers::value_of(a),
    )
}

// ---- a session

// The events, each with the controller that the last one left, and what closes the listing: a fault, or the end.
#[tactic(auto, using(std::proofs::lemmas::Bool::Decides::nat_tests, bench_record::proofs::Laws::begun, crate::proofs::Rows::one_more, crate::proofs::Rows::fault_last, crate::proofs::Rows::end_last, bench_record::proofs::Laws::laid_all, crate::proofs::Reached::reached_fresh, crate::proofs::Reached::reached_range))]
fn play_events(events: Events<'_>, count: u16, room: &mut [u8], at: usize) -> usize
    requires { at + rows.room_for (rest_of events) ≤ 327840 }
    ensures laid { Laid room.old at (rows.rows run.fresh 0 count (rest_of events.entry)) room.new result }
    ensures bound { result ≤ at + rows.room_for (rest_of events.entry) }
{
    let mut c = controller::fresh();
    let mut place = at;
    let mut index = 0u16;
    for item in events {
        match item {
            Ok(event) => place = play_event(&mut c, index, event, room, place),
            Err(bad) => return lay_fault(room, place, bad),
        }
        index += 1;
    }
    lay_edge(room, place, Edge::End(count))
}

// The listing, or as much of it as the room has places for; the answer is the place behind all of it.
#[tactic(auto, using(std::proofs::lemmas::Bool::Decides::nat_tests, bench_record::proofs::Laws::count_most, crate::proofs::Rows::header_bad, crate::proofs::Rows::header_good, crate::proofs::Rows::rows_room))]
fn put_listing(s: &[u8], room: &mut [u8]) -> usize
    ensures laid { Laid room.old 0 (rule.listing_of s.now) room.new result }
    ensures bound { result ≤ 327840 }
{
    let mut session = Session::new(s);
    match session.header() {
        Err(bad) => lay_fault(room, 0, bad),
        Ok(count) => {
            let at = lay_edge(room, 0, Edge::Count(count));
            play_events(session.events(count), count, room, at)
        }
    }
}

// ---- lent room

// The listing's length: it is laid in no room.
#[tactic(auto, using(std::proofs::lemmas::Bool::Decides::nat_tests))]
fn listing_length(s: &[u8]) -> usize
    ensures { result ≡ length (rule.listing_of s.now) }
{
    let mut none = [0; 0];
    put_listing(s, &mut none)
}

// In room that may be too short: first for the listing's length alone, so that a refused call writes nothing.
#[tactic(auto, using(std::proofs::lemmas::Bool::Decides::nat_tests, bench_record::proofs::Laws::listed, bench_record::proofs::Laws::unlisted))]
fn play_twice(s: &[u8], room: &mut [u8]) -> Option<usize>
    ensures answer { result ≡ rule.played (length room.old) (rule.listing_of s.now) }
    ensures room { room.new ≡ rule.played_room room.old (rule.listing_of s.now) }
{
    let n = listing_length(s);
    if room.len() < n {
        return None;
    }
    put_listing(s, room);
    Some(n)
}

// The listing of a session, in lent room; or 13, and nothing is written.
#[tactic(auto, using(std::proofs::lemmas::Bool::Decides::nat_tests, bench_record::proofs::Laws::listed))]
pub fn play(s: &[u8], room: &mut [u8]) -> Option<usize>
    ensures answer { result ≡ rule.played (length room.old) (rule.listing_of s.now) }
    ensures room { room.new ≡ rule.played_room room.old (rule.listing_of s.now) }
{
    if room.len() < ROOM {
        return play_twice(s, room);
    }
    let n = put_listing(s, room);
    Some(n)
}
