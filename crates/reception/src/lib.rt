// The frame under way: its place, its bits, its length (01, Receiving).
// The frame is followed too while the model itself sends.
#![tactic(auto)]

ghost use Rattle.std.specs.Prelude.{◌≡◌, ◌<◌, ◌+◌, ◌*◌, ◌/◌, ◌%◌};
ghost use Rattle.rules.specs.Definitions.Reception as rule;

use rules::{Phase, Place, Reception, Winner};

// A place in a frame.
#[tactic(auto, using(std::proofs::lemmas::Bool::Decides::nat_tests), unfolding(rules::specs::Definitions::Reception::at_place))]
fn at_place(phase: Phase, at: u8) -> Place
    ensures { result ≡ rule.at_place phase at }
{
    Place { phase, at }
}

// No frame under way, and no channel that takes it.
#[tactic(auto, using(std::proofs::lemmas::Bool::Decides::nat_tests), unfolding(rules::specs::Definitions::Reception::quiet, rules::specs::Definitions::Channels::nobody))]
pub fn quiet() -> Reception
    ensures { result ≡ rule.quiet }
{
    Reception {
        place: at_place(Phase::Quiet, 0),
        nibbles: 0,
        bits: 0,
        bytes: [0u8; line::CODED_BYTES],
        winner: Winner {
            matched: false,
            channel: 0,
            no_acknowledge: false,
            pointer: 0,
            length: 0,
        },
    }
}

// ---- the frame goes on

// The next slot of the same phase.
#[tactic(auto, using(std::proofs::lemmas::Bool::Decides::nat_tests), unfolding(rules::specs::Definitions::Reception::moved, rules::specs::Definitions::Reception::at_place))]
fn move_on(r: &mut Reception)
    requires { r.old.place.at < 255 }
    ensures { r.new ≡ rule.moved r.old }
{
    r.place.at += 1;
}

// The first slot of a phase, with no bits.
#[tactic(auto, using(std::proofs::lemmas::Bool::Decides::nat_tests), unfolding(rules::specs::Definitions::Reception::entered))]
fn enter(r: &mut Reception, phase: Phase)
    ensures { r.new ≡ rule.entered r.old phase }
{
    r.place = at_place(phase, 0);
    r.bits = 0;
}

// The next slot, with one bit more of the nibble under way or of the acknowledge.
#[tactic(auto, using(std::proofs::lemmas::Bool::Decides::nat_tests), unfolding(rules::specs::Definitions::Reception::bit_taken, rules::specs::Definitions::Reception::moved, rules::specs::Definitions::Reception::at_place))]
fn take_bit(r: &mut Reception, v: u8)
    requires { r.old.place.at < 255 }
    ensures { r.new ≡ rule.bit_taken r.old v }
{
    move_on(r);
    r.bits = r.bits % 8 * 2 + v % 2;
}

// A byte with its low half replaced.
#[tactic(auto, using(std::proofs::lemmas::Bool::Decides::nat_tests))]
fn with_low_half(byte: u8, nibble: u8) -> u8
    ensures { result ≡ byte / 16 * 16 + nibble % 16 }
{
    byte / 16 * 16 + nibble % 16
}

// One nibble more; the count stops at its largest.
#[tactic(auto, using(std::proofs::lemmas::Bool::Decides::nat_tests), unfolding(rules::specs::Definitions::Reception::more_nibbles))]
fn more_nibbles(n: u8) -> u8
    ensures { result ≡ rule.more_nibbles n }
{
    if n < line::MOST_NIBBLES {
        return n + 1;
    }
    line::MOST_NIBBLES
}

// The four bits that were taken, laid behind the whole nibbles, the high half of a byte first.
#[tactic(auto, using(std::proofs::lemmas::Bool::Decides::nat_tests), unfolding(rules::specs::Definitions::Reception::bits_laid, rules::specs::Definitions::Reception::with_nibble))]
fn lay_bits(r: &mut Reception)
    ensures { r.new ≡ rule.bits_laid r.old }
{
    let i = usize::from(r.nibbles / 2) % line::CODED_BYTES;
    let nibble = r.bits;
    if r.nibbles % 2 == 0 {
        r.bytes[i] = nibble % 16 * 16;
    } else {
        r.bytes[i] = with_low_half(r.bytes[i], nibble);
    }
}

// A nibble closed by a proper pair.
#[tactic(auto, using(std::proofs::lemmas::Bool::Decides::nat_tests), unfolding(rules::specs::Definitions::Reception::nibble_taken, rules::specs::Definitions::Reception::entered, rules::specs::Definitions::Reception::at_place, rules::specs::Definitions::Reception::bits_laid))]
fn take_nibble(r: &mut Reception)
    ensures { r.new ≡ rule.nibble_taken r.old }
{
    lay_bits(r);
    enter(r, Phase::Body);
    r.nibbles = more_nibbles(r.nibbles);
}

// The end of data: the check's last three bits are laid behind its twelve, with a zero bit behind them.
#[tactic(auto, using(std::proofs::lemmas::Bool::Decides::nat_tests), unfolding(rules::specs::Definitions::Reception::data_ended))]
fn end_data(r: &mut Reception)
    ensures { r.new ≡ rule.data_ended r.old }
{
    lay_bits(r);
    enter(r, Phase::Acknowledge);
}

// The first slot of a start is taken.
#[tactic(auto, using(std::proofs::lemmas::Bool::Decides::nat_tests), unfolding(rules::specs::Definitions::Reception::begun))]
pub fn begun() -> Reception
    ensures { result ≡ rule.begun }
{
    Reception {
        place: at_place(Phase::Start, 1),
        ..quiet()
    }
}

// The frame once a sample that is no fault is taken. The start goes on, or the identifier is next. A plain bit or first half is kept; a second half closes a
// nibble, or ends the data where it equals the first. The first acknowledge slot is kept for the second. The end of frame goes on; its eighth slot is the last.
#[tactic(auto, using(std::proofs::lemmas::Bool::Decides::nat_tests), unfolding(rules::specs::Definitions::Reception::followed, rules::specs::Definitions::Reception::follow_in, rules::specs::Definitions::Reception::follow_start, rules::specs::Definitions::Reception::follow_body, rules::specs::Definitions::Reception::follow_acknowledge, rules::specs::Definitions::Reception::follow_end))]
pub fn follow(r: &mut Reception, v: u8)
    ensures { r.new ≡ rule.followed r.old v }
{
    match r.place.phase {
        Phase::Quiet => *r = begun(),
        Phase::Start if r.place.at < 9 => move_on(r),
        Phase::Start => enter(r, Phase::Body),
        Phase::Body if r.place.at < 4 => take_bit(r, v),
        Phase::Body if v == r.bits % 2 => end_data(r),
        Phase::Body => take_nibble(r),
        Phase::Acknowledge if r.place.at == 0 => take_bit(r, v),
        Phase::Acknowledge => enter(r, Phase::End),
        Phase::End if r.place.at < 7 => move_on(r),
        Phase::End => {}
    }
}

// ---- its length

// Data bytes, by the whole nibbles before the last three bits: identifier, command and check have seven.
#[tactic(auto, using(std::proofs::lemmas::Bool::Decides::nat_tests), unfolding(rules::specs::Definitions::Reception::data_count))]
pub fn data_count(nibbles: u8) -> u8
    ensures { result ≡ rule.data_count nibbles }
{
    if nibbles < 7 {
        return 0;
    }
    (nibbles - 7) / 2
}
