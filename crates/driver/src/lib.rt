// The line driver: the level of a slot of a frame that the model sends, found by its place (01, Frames on the line; Sending).
#![tactic(auto)]

ghost use Rattle.std.specs.Prelude.{◌≡◌, ◌+◌, ◌*◌, ◌%◌, ◌<◌, ◌≤◌};
ghost use Rattle.line.specs.Frame as frame;
ghost use Rattle.rules.specs.Definitions.Attempt as rule;
ghost use Rattle.driver.specs.Driver as driver;

use rules::Coded;

// A nibble of the frame's bytes, the high half of a byte first.
#[tactic(auto, using(std::proofs::lemmas::Bool::Decides::nat_tests), unfolding(crate::specs::Driver::nibble_at))]
fn nibble_at(bytes: &[u8; line::CODED_BYTES], i: u16) -> u8
    requires { i < 2 * (frame.longest_data + 4) }
    ensures { result ≡ driver.nibble_at bytes.now i }
{
    let b = bytes[usize::from(i / 2)];
    if i % 2 == 0 {
        return b / 16;
    }
    b % 16
}

// A slot of the coded part, which begins behind the start.
#[tactic(auto, using(std::proofs::lemmas::Bool::Decides::nat_tests), unfolding(crate::specs::Driver::slot_coded))]
fn slot_coded(bytes: &[u8; line::CODED_BYTES], m: u16) -> u8
    requires { m < 38 + 10 * frame.longest_data }
    ensures { result ≡ driver.slot_coded bytes.now m }
{
    let slots = line::pattern(nibble_at(bytes, m / 5));
    slots[usize::from(m % 5)]
}

// The number of data bytes. No state in range has one above LONGEST, and only such a one is divided.
fn count(n: u8) -> u16
    ensures value { result ≡ n % (frame.longest_data + 1) }
    ensures range { result ≤ frame.longest_data }
{
    if n < line::COUNTS {
        return u16::from(n);
    }
    u16::from(n % line::COUNTS)
}

// The level of slot k of the frame of n data bytes: recessive behind the end of data, and past the frame.
#[tactic(auto, using(std::proofs::lemmas::Bool::Decides::nat_tests, crate::proofs::Levels::level_placed), unfolding(crate::specs::Driver::placed))]
fn level_of(bytes: &[u8; line::CODED_BYTES], n: u8, k: u16) -> u8
    ensures { result ≡ rule.level_at (driver.framed n bytes.now) k }
{
    let long = 10 * count(n);
    if k < 10 {
        return line::start_level(k);
    }
    if k < 48 + long {
        return slot_coded(bytes, k - 10);
    }
    if k < 50 + long {
        return 0;
    }
    1
}

// The same, of the fixed frame.
#[tactic(auto, using(std::proofs::lemmas::Bool::Decides::nat_tests), unfolding(crate::specs::Driver::framed))]
pub fn level_at(x: &Coded, k: u16) -> u8
    ensures { result ≡ rule.level_at x.now k }
{
    level_of(&x.bytes, x.n, k)
}
