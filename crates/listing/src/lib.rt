// The lines of a listing, written into lent room (01, Session and listing).
// By hand, not by `Display`: an event took about twice the instructions so (687 against 348). Room and place stay two parameters: as a struct each contract would name
// slice and place before and after by four projections, which is no plainer.
#![tactic(auto)]

ghost use Rattle.std.specs.Prelude.{◌≡◌, ◌++◌, ◌+◌, ◌%◌, ◌≤◌, ◌<◌, length};
ghost use Rattle.listing.specs.Listing as rule;
ghost use Rattle.listing.specs.Laid.{Laid, words, last_two};

use session::Event;

// The lines around those of the events: their count before them; behind them a fault's number, its place and how many bytes were looked at there, or the end.
#[derive(Clone, Copy)]
pub enum Edge {
    Count(u16),
    Bad(u8, usize, usize),
    End(u16),
}

// No line is longer.
const LONGEST_LINE: usize = 80;

// ---- texts and numerals: each is laid at a place, and the place behind it is the answer

fn put_text(room: &mut [u8], at: usize, text: &[u8]) -> usize
    requires { at + length text.now ≤ length room.old }
    ensures laid { Laid room.old at text.now room.new result }
    ensures bound { result ≡ at + length text.now }
{
    let end = at + text.len();
    room[at..end].copy_from_slice(text);
    end
}

// One digit.
#[tactic(auto, using(std::proofs::lemmas::Bool::Decides::nat_tests, crate::proofs::Puts::units))]
fn put_digit(room: &mut [u8], at: usize, n: usize) -> usize
    requires n_bound { n < 10 }
    requires room { at + 1 ≤ length room.old }
    ensures laid { Laid room.old at (rule.decimal n) room.new result }
    ensures bound { result ≡ at + 1 }
{
    room[at] = 48 + n as u8;
    at + 1
}

// One or two.
#[tactic(auto, using(std::proofs::lemmas::Bool::Decides::nat_tests, crate::proofs::Puts::tens))]
fn put_pair(room: &mut [u8], at: usize, n: usize) -> usize
    requires n_bound { n < 100 }
    requires room { at + 2 ≤ length room.old }
    ensures laid { Laid room.old at (rule.decimal n) room.new result }
    ensures bound { result ≤ at + 2 }
{
    if n < 10 {
        return put_digit(room, at, n);
    }
    room[at] = 48 + (n / 10) as u8;
    room[at + 1] = 48 + (n % 10) as u8; // units
    at + 2
}

// The last two decimal digits.
#[tactic(auto, using(std::proofs::lemmas::Bool::Decides::nat_tests, crate::proofs::Puts::last))]
fn put_last(room: &mut [u8], at: usize, n: usize) -> usize
    requires { at + 2 ≤ length room.old }
    ensures laid { Laid room.old at (last_two n) room.new result }
    ensures bound { result ≡ at + 2 }
{
    room[at] = 48 + (n / 10 % 10) as u8;
    room[at + 1] = 48 + (n % 10) as u8;
    at + 2
}

// Decimal: the last two digits behind those of the hundreds.
#[tactic(auto, using(std::proofs::lemmas::Bool::Decides::nat_tests, crate::proofs::Puts::hundreds, crate::proofs::Puts::hundreds_fit))]
fn put_decimal(room: &mut [u8], at: usize, n: usize) -> usize
    requires { at + 20 ≤ length room.old }
    ensures laid { Laid room.old at (rule.decimal n) room.new result }
    ensures bound { result ≤ at + 20 }
{
    if n < 100 {
        return put_pair(room, at, n);
    }
    let p = put_decimal(room, at, n / 100);
    put_last(room, p, n)
}

// The same, without recursion up to four digits.
#[tactic(auto, using(std::proofs::lemmas::Bool::Decides::nat_tests, crate::proofs::Puts::hundreds_cut))]
fn put_index(room: &mut [u8], at: usize, n: usize) -> usize
    requires { at + 20 ≤ length room.old }
    ensures laid { Laid room.old at (rule.decimal n) room.new result }
    ensures bound { result ≤ at + 20 }
{
    if n < 100 {
        return put_pair(room, at, n);
    }
    if n < 10000 {
        let p = put_pair(room, at, n / 100);
        return put_last(room, p, n % 100);
    }
    put_decimal(room, at, n)
}

// The last hexadecimal digit.
#[tactic(auto, using(std::proofs::lemmas::Bool::Decides::nat_tests), unfolding(crate::specs::Listing::digit))]
fn digit(x: u16) -> u8
    ensures { result ≡ rule.digit (x % 16) }
{
    let d = (x % 16) as u8;
    if d < 10 {
        return 48 + d;
    }
    55 + d
}

// The last two hexadecimal digits.
#[tactic(auto, using(std::proofs::lemmas::Bool::Decides::nat_tests, crate::proofs::Puts::pair))]
fn put_two(room: &mut [u8], at: usize, x: u16) -> usize
    requires { at + 2 ≤ length room.old }
    ensures laid { Laid room.old at (rule.two_digits x) room.new result }
    ensures bound { result ≡ at + 2 }
{
    room[at] = digit(x / 16);
    room[at + 1] = digit(x);
    at + 2
}

// Two digits or more as needed.
#[tactic(auto, using(std::proofs::lemmas::Bool::Decides::nat_tests, crate::proofs::Laws::hexadecimal_two, crate::proofs::Puts::three, crate::proofs::Puts::four))]
fn put_hexadecimal(room: &mut [u8], at: usize, x: u16) -> usize
    requires { at + 4 ≤ length room.old }
    ensures laid { Laid room.old at (rule.hexadecimal x) room.new result }
    ensures bound { result ≤ at + 4 }
{
    if x < 256 {
        return put_two(room, at, x);
    }
    if x < 4096 {
        let p = put_two(room, at, x / 16);
        room[p] = digit(x);
        return p + 1;
    }
    let q = put_two(room, at, x / 256);
    put_two(room, q, x)
}

// ---- parts of a line

// A word and a decimal number.
#[tactic(auto, using(std::proofs::lemmas::Bool::Decides::nat_tests, crate::proofs::Laws::joined))]
fn put_number(room: &mut [u8], at: usize, text: &[u8], n: usize) -> usize
    requires { at + length text.now + 20 ≤ length room.old }
    ensures laid { Laid room.old at (text.now ++ rule.decimal n) room.new result }
    ensures bound { result ≤ at + length text.now + 20 }
{
    let p = put_text(room, at, text);
    if n < 10 {
        return put_digit(room, p, n);
    }
    put_decimal(room, p, n)
}

// A word and a hexadecimal number.
#[tactic(auto, using(std::proofs::lemmas::Bool::Decides::nat_tests, crate::proofs::Laws::joined))]
fn put_address(room: &mut [u8], at: usize, text: &[u8], x: u16) -> usize
    requires { at + length text.now + 4 ≤ length room.old }
    ensures laid { Laid room.old at (text.now ++ rule.hexadecimal x) room.new result }
    ensures bound { result ≤ at + length text.now + 4 }
{
    let p = put_text(room, at, text);
    put_hexadecimal(room, p, x)
}

// ` ok`, or the refusal.
#[tactic(auto, using(std::proofs::lemmas::Bool::Decides::nat_tests), unfolding(crate::specs::Listing::ok_end, crate::specs::Listing::refused_end))]
fn put_ok(room: &mut [u8], at: usize, refused: u8) -> usize
    requires { at + 29 ≤ length room.old }
    ensures laid { Laid room.old at (rule.ok_end refused) room.new result }
    ensures bound { result ≤ at + 29 }
{
    if refused == 0 {
        return put_text(room, at, b" ok");
    }
    put_number(room, at, b" refused ", refused as usize)
}

// The byte read, or the refusal.
#[tactic(auto, using(std::proofs::lemmas::Bool::Decides::nat_tests), unfolding(crate::specs::Listing::byte_end, crate::specs::Listing::refused_end))]
fn put_byte(room: &mut [u8], at: usize, refused: u8, value: u8) -> usize
    requires { at + 29 ≤ length room.old }
    ensures laid { Laid room.old at (rule.byte_end refused value) room.new result }
    ensures bound { result ≤ at + 29 }
{
    if refused == 0 {
        return put_address(room, at, b" ", value as u16);
    }
    put_number(room, at, b" refused ", refused as usize)
}

// The level driven, or the refusal.
#[tactic(auto, using(std::proofs::lemmas::Bool::Decides::nat_tests), unfolding(crate::specs::Listing::level_end, crate::specs::Listing::refused_end))]
fn put_level(room: &mut [u8], at: usize, refused: u8, value: u8) -> usize
    requires { at + 29 ≤ length room.old }
    ensures laid { Laid room.old at (rule.level_end refused value) room.new result }
    ensures bound { result ≤ at + 29 }
{
    if refused == 0 {
        return put_number(room, at, b" drives ", value as usize);
    }
    put_number(room, at, b" refused ", refused as usize)
}

// A write and its answer. The word goes to `put_text` itself: `put_address` would be handed a copy of it at each event.
#[tactic(auto, using(std::proofs::lemmas::Bool::Decides::nat_tests, crate::proofs::Laws::joined))]
fn put_write(room: &mut [u8], at: usize, address: u16, refused: u8) -> usize
    requires { at + 40 ≤ length room.old }
    ensures laid { Laid room.old at ((rule.write_text ++ rule.hexadecimal address) ++ rule.ok_end refused) room.new result }
    ensures bound { result ≤ at + 40 }
{
    let p = put_text(room, at, b" write ");
    let q = put_hexadecimal(room, p, address);
    put_ok(room, q, refused)
}

// A read and its answer.
#[tactic(auto, using(std::proofs::lemmas::Bool::Decides::nat_tests, crate::proofs::Laws::joined))]
fn put_read(room: &mut [u8], at: usize, address: u16, refused: u8, value: u8) -> usize
    requires { at + 39 ≤ length room.old }
    ensures laid { Laid room.old at ((rule.read_text ++ rule.hexadecimal address) ++ rule.byte_end refused value) room.new result }
    ensures bound { result ≤ at + 39 }
{
    let p = put_text(room, at, b" read ");
    let q = put_hexadecimal(room, p, address);
    put_byte(room, q, refused, value)
}

// An event and its answer.
#[tactic(auto, using(std::proofs::lemmas::Bool::Decides::nat_tests, crate::proofs::Laws::joined), unfolding(crate::specs::Listing::event_text))]
fn put_event(room: &mut [u8], at: usize, e: Event, refused: u8, value: u8) -> usize
    requires { at + 55 ≤ length room.old }
    ensures laid { Laid room.old at (rule.event_text e refused value) room.new result }
    ensures bound { result ≤ at + 55 }
{
    match e {
        Event::Reset => {
            let p = put_text(room, at, b" reset");
            put_ok(room, p, refused)
        }
        Event::Write(address, _) => put_write(room, at, address, refused),
        Event::Read(address) => put_read(room, at, address, refused, value),
        Event::Slot(levels) => {
            let p = put_number(room, at, b" slot ", levels as usize);
            put_level(room, p, refused, value)
        }
        Event::Mark(n) => put_number(room, at, b" mark ", n as usize),
    }
}

// An edge but for the end of its line.
#[tactic(auto, using(std::proofs::lemmas::Bool::Decides::nat_tests, crate::proofs::Laws::joined))]
fn put_words(room: &mut [u8], at: usize, l: Edge) -> usize
    requires { at + 75 ≤ length room.old }
    ensures laid { Laid room.old at (words l) room.new result }
    ensures bound { result ≤ at + 75 }
{
    match l {
        Edge::Count(count) => put_number(room, at, b"events ", count as usize),
        Edge::Bad(number, place, looked) => {
            let p = put_number(room, at, b"bad ", number as usize);
            let q = put_number(room, p, b" at ", place);
            put_number(room, q, b" after ", looked)
        }
        Edge::End(count) => put_number(room, at, b"end ", count as usize),
    }
}

// The end of a line.
fn put_newline(room: &mut [u8], at: usize) -> usize
    requires { at + 1 ≤ length room.old }
    ensures laid { Laid room.old at rule.newline room.new result }
    ensures bound { result ≡ at + 1 }
{
    room[at] = 10;
    at + 1
}

// ---- a line: where the longest would not fit, nothing is written and the place stays

#[tactic(auto, using(std::proofs::lemmas::Bool::Decides::nat_tests), unfolding(crate::specs::Listing::holds))]
fn holds(room: usize, at: usize) -> bool
    ensures { result ≡ rule.holds room at }
{
    if room < LONGEST_LINE {
        return false;
    }
    if room - LONGEST_LINE < at {
        return false;
    }
    true
}

// `events N`, `bad N at P after K`, `end N`.
#[tactic(auto, using(std::proofs::lemmas::Bool::Decides::nat_tests, crate::proofs::Puts::fits, crate::proofs::Puts::held, crate::proofs::Puts::short, crate::proofs::Laws::joined, crate::proofs::Laws::ended))]
pub fn put_edge(room: &mut [u8], at: usize, l: Edge) -> usize
    ensures place { result ≡ rule.line_place (length room.old) at (rule.edge_line l) }
    ensures room { room.new ≡ rule.line_room room.old at (rule.edge_line l) }
    ensures bound { result ≤ at + rule.longest_line }
{
    if holds(room.len(), at) {
        let p = put_words(room, at, l);
        return put_newline(room, p);
    }
    at
}

// An event's number, the event and its answer: the refusal's number or 0, and the value. They stay two numbers, as the lent controller answers also to C.
#[tactic(auto, using(std::proofs::lemmas::Bool::Decides::nat_tests, crate::proofs::Puts::fits, crate::proofs::Puts::held, crate::proofs::Puts::short, crate::proofs::Laws::joined), unfolding(crate::specs::Listing::line))]
pub fn put_line(room: &mut [u8], at: usize, index: u16, e: Event, refused: u8, value: u8) -> usize
    ensures place { result ≡ rule.line_place (length room.old) at (rule.line index e refused value) }
    ensures room { room.new ≡ rule.line_room room.old at (rule.line index e refused value) }
    ensures bound { result ≤ at + rule.longest_line }
{
    if holds(room.len(), at) {
        let p = put_index(room, at, index as usize);
        let q = put_event(room, p, e, refused, value);
        return put_newline(room, q);
    }
    at
}
