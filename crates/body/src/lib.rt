// The receiver's judgement of a sample in identifier, command, data and check (01, Receiving).
#![tactic(auto)]

ghost use Rattle.std.specs.Prelude.{◌≡◌, ◌+◌, ◌*◌, ◌/◌, ◌%◌, get_or};
ghost use Rattle.rules.specs.Definitions.Longest as longest_rule;
ghost use Rattle.rules.specs.Definitions.Hearing as rule;

use registers::Code;
use rules::{Hearing, Reception};

// ---- the length and the command

// Seven nibbles, and two for each of `longest` data bytes.
#[tactic(auto, using(std::proofs::lemmas::Bool::Decides::nat_tests))]
fn most_nibbles(longest: u8) -> u16
    ensures { result ≡ longest_rule.most_nibbles longest }
{
    7 + 2 * u16::from(longest)
}

// Whether an odd number of whole nibbles, from 7 to the most, stands before the last three bits.
#[tactic(auto, using(std::proofs::lemmas::Bool::Decides::nat_tests), unfolding(rules::specs::Definitions::Hearing::whole))]
fn whole(nibbles: u8, longest: u8) -> bool
    ensures { result ≡ rule.whole nibbles longest }
{
    nibbles % 2 == 1 && 7 <= nibbles && u16::from(nibbles) <= most_nibbles(longest)
}

// Whether the command is a reply request: EXT 1, R/W 1, RTR 1.
#[tactic(auto, using(std::proofs::lemmas::Bool::Decides::nat_tests), unfolding(rules::specs::Definitions::Hearing::reply_request))]
fn reply_request(low: u8) -> bool
    ensures { result ≡ rule.reply_request low }
{
    channels::extension(low) && channels::reads(low) && channels::remote(low)
}

// ---- the check

// A byte of the frame; behind the last one, 0.
#[tactic(auto, using(std::proofs::lemmas::Bool::Decides::nat_tests))]
fn byte_at(bytes: &[u8; line::CODED_BYTES], i: usize) -> u8
    ensures { result ≡ get_or bytes.now i 0 }
{
    if i < line::CODED_BYTES {
        return bytes[i];
    }
    0
}

// Fifteen bits: a byte, the high half of the next, and three bits.
#[tactic(auto, using(std::proofs::lemmas::Bool::Decides::nat_tests))]
fn fifteen(high: u8, low: u8, last: u8) -> u16
    ensures { result ≡ high * 128 + low / 16 * 8 + last % 8 }
{
    u16::from(high) * 128 + u16::from(low / 16) * 8 + u16::from(last % 8)
}

// The check received: twelve bits behind the n data bytes, and the last three, which are plain.
#[tactic(auto, using(std::proofs::lemmas::Bool::Decides::nat_tests), unfolding(rules::specs::Definitions::Hearing::check_received))]
fn check_received(bytes: &[u8; line::CODED_BYTES], n: u8, last: u8) -> u16
    ensures { result ≡ rule.check_received bytes.now n last }
{
    let high = byte_at(bytes, usize::from(n) + 2);
    let low = byte_at(bytes, usize::from(n) + 3);
    fifteen(high, low, last)
}

// The check of identifier, command and n data bytes. A frame's bytes hold at most DATA_AND_CHECK behind its command.
#[tactic(auto, using(std::proofs::lemmas::Bool::Decides::nat_tests), unfolding(rules::specs::Definitions::Hearing::check_due))]
fn check_due(bytes: &[u8; line::CODED_BYTES], n: u8) -> u16
    ensures { result ≡ rule.check_due bytes.now n }
{
    if n < line::DATA_AND_CHECK {
        let end = usize::from(n) + 2;
        return frame_check::check_of(&bytes[..end]);
    }
    frame_check::check_of(bytes)
}

// ---- the judgement

// The pair 00: the length, then data in a reply request (house), then the check.
#[tactic(auto, using(std::proofs::lemmas::Bool::Decides::nat_tests), unfolding(rules::specs::Definitions::Hearing::hear_end_of_data))]
#[cold]
#[inline(never)]
fn hear_end_of_data(r: &Reception, longest: u8) -> Hearing
    ensures { result ≡ rule.hear_end_of_data r.now longest }
{
    let n = reception::data_count(r.nibbles);
    if !whole(r.nibbles, longest) || (reply_request(r.bytes[1]) && 0 < n) {
        return Hearing::Fault(Code::CV);
    }
    if check_received(&r.bytes, n, r.bits / 2) == check_due(&r.bytes, n) {
        return Hearing::Follows;
    }
    Hearing::Fault(Code::FCSE)
}

// A second half: unlike the first it closes a nibble, one past the most is a length fault; 11 is a violation, 00 ends the data.
#[tactic(auto, using(std::proofs::lemmas::Bool::Decides::nat_tests), unfolding(rules::specs::Definitions::Hearing::hear_second_half))]
fn hear_second_half(r: &Reception, longest: u8, v: u8) -> Hearing
    ensures { result ≡ rule.hear_second_half r.now longest v }
{
    if v == r.bits % 2 {
        if v == 0 {
            return hear_end_of_data(r, longest);
        }
        return Hearing::Fault(Code::CV);
    }
    if u16::from(r.nibbles) < most_nibbles(longest) {
        return Hearing::Follows;
    }
    Hearing::Fault(Code::CV)
}

// Plain bits and first halves are never a fault.
#[tactic(auto, using(std::proofs::lemmas::Bool::Decides::nat_tests), unfolding(rules::specs::Definitions::Hearing::hear_body))]
pub fn hear_body(r: &Reception, longest: u8, v: u8) -> Hearing
    ensures { result ≡ rule.hear_body r.now longest v }
{
    if r.place.at < 4 {
        return Hearing::Follows;
    }
    hear_second_half(r, longest, v)
}
