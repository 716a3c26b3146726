// Matching: who takes a frame, who sends, who replies (01, Receiving, Sending; 02, Req 01; 000, Channel Registers).
// `low` is byte 1 of a frame or of a channel: identifier or tag bits 3 to 0, EXT, RAK, R/W, RTR.
// A frame's first two bytes, `high` and `low`, are no struct: the definitions take two numbers, and would name a record's fields in their place.
#![tactic(auto)]

ghost use Rattle.std.specs.Prelude.{◌≡◌, not};
ghost use Rattle.rules.specs.Definitions.Registers.{both};
ghost use Rattle.rules.specs.Definitions.Channels as rule;

use channels::Layout;
use rules::{Buffer, Channel, Winner};

// ---- the bits of a channel that are read here

// The twelve bits of a tag, a mask or an identifier.
#[tactic(auto, using(std::proofs::lemmas::Bool::Decides::nat_tests), unfolding(rules::specs::Definitions::Channels::twelve))]
fn twelve(high: u8, low: u8) -> u16
    ensures { result ≡ rule.twelve high low }
{
    high as u16 * 16 + low as u16 / 16
}

// The no-acknowledge bit DRAK in +2.
#[tactic(auto, using(std::proofs::lemmas::Bool::Decides::nat_tests, rules::proofs::Bits::masked), unfolding(rules::specs::Definitions::Channels::drak))]
fn drak(pointer: u8) -> bool
    ensures { result ≡ rule.drak pointer }
{
    pointer & Layout::DRAK != 0
}

// ---- channel status, and the message types (000, Message Types)

// RNW, RTR, CHTx, CHRx.
#[tactic(auto, using(std::proofs::lemmas::Bool::Decides::nat_tests), unfolding(rules::specs::Definitions::Channels::status_bits))]
fn status_bits(x: Channel) -> u8
    ensures { result ≡ rule.status_bits x }
{
    x.low % 4 * 4 + x.status % 4
}

// 0,1,-,0.
#[tactic(auto, using(std::proofs::lemmas::Bool::Decides::nat_tests), unfolding(rules::specs::Definitions::Channels::receive_message))]
fn receive_message(bits: u8) -> bool
    ensures { result ≡ rule.receive_message bits }
{
    matches!(bits, 0b0100 | 0b0110)
}

// 1,0,1,0.
#[tactic(auto, using(std::proofs::lemmas::Bool::Decides::nat_tests), unfolding(rules::specs::Definitions::Channels::request_detection))]
fn request_detection(bits: u8) -> bool
    ensures { result ≡ rule.request_detection bits }
{
    bits == 0b1010
}

// 0,0,0,-.
#[tactic(auto, using(std::proofs::lemmas::Bool::Decides::nat_tests), unfolding(rules::specs::Definitions::Channels::transmit_message))]
fn transmit_message(bits: u8) -> bool
    ensures { result ≡ rule.transmit_message bits }
{
    matches!(bits, 0b0000 | 0b0001)
}

// 1,0,0,1.
#[tactic(auto, using(std::proofs::lemmas::Bool::Decides::nat_tests), unfolding(rules::specs::Definitions::Channels::deferred_reply))]
fn deferred_reply(bits: u8) -> bool
    ensures { result ≡ rule.deferred_reply bits }
{
    bits == 0b1001
}

// 1,1,0,0.
#[tactic(auto, using(std::proofs::lemmas::Bool::Decides::nat_tests), unfolding(rules::specs::Definitions::Channels::request_message))]
fn reply_request(bits: u8) -> bool
    ensures { result ≡ rule.request_message bits }
{
    bits == 0b1100
}

// 1,1,-,0.
#[tactic(auto, using(std::proofs::lemmas::Bool::Decides::nat_tests), unfolding(rules::specs::Definitions::Channels::awaits_reply))]
fn awaits_reply(bits: u8) -> bool
    ensures { result ≡ rule.awaits_reply bits }
{
    matches!(bits, 0b1100 | 0b1110)
}

// 1,0,0,0.
#[tactic(auto, using(std::proofs::lemmas::Bool::Decides::nat_tests), unfolding(rules::specs::Definitions::Channels::immediate_reply))]
fn immediate_reply(bits: u8) -> bool
    ensures { result ≡ rule.immediate_reply bits }
{
    bits == 0b1000
}

// ---- who takes a frame

// Every tag bit under a mask one equals the identifier's.
#[tactic(auto, using(std::proofs::lemmas::Bool::Decides::nat_tests), unfolding(rules::specs::Definitions::Channels::matches))]
fn matches(tag: u16, mask: u16, identifier: u16) -> bool
    ensures { result ≡ rule.matches tag mask identifier }
{
    (tag ^ identifier) & mask == 0
}

// The channel's tag matches the frame's identifier under the channel's mask.
#[tactic(auto, using(std::proofs::lemmas::Bool::Decides::nat_tests))]
fn tag_matches(x: Channel, high: u8, low: u8) -> bool
    ensures { result ≡ rule.matches (rule.twelve x.high x.low) (rule.twelve x.mask_high x.mask_low) (rule.twelve high low) }
{
    let tag = twelve(x.high, x.low);
    let mask = twelve(x.mask_high, x.mask_low);
    matches(tag, mask, twelve(high, low))
}

// Whether the channel's status takes a frame of this command, EXT 1: a data frame (R/W 0, RTR 0), a reply request (1, 1) or a reply (1, 0).
#[tactic(auto, using(std::proofs::lemmas::Bool::Decides::nat_tests), unfolding(rules::specs::Definitions::Channels::listens))]
fn listens(x: Channel, low: u8) -> bool
    ensures { result ≡ rule.listens x low }
{
    let bits = status_bits(x);
    let data = low % 4 == 0b00 && receive_message(bits);
    let request = low % 4 == 0b11 && request_detection(bits);
    let reply = low % 4 == 0b10 && awaits_reply(bits);
    channels::extension(low) && (data || request || reply)
}

// Whether channel c takes the frame: it listens, its tag matches under its mask, its link is good.
#[tactic(auto, using(std::proofs::lemmas::Bool::Decides::nat_tests), unfolding(rules::specs::Definitions::Channels::takes))]
fn takes(m: &[u8; 256], c: u8, high: u8, low: u8) -> bool
    ensures { result ≡ rule.takes m.now c high low }
{
    let x = channels::channel_at(m, c);
    listens(x, low) && tag_matches(x, high, low) && channels::buffer_of(m, c).legal
}

// No channel takes the frame.
#[tactic(auto, using(std::proofs::lemmas::Bool::Decides::nat_tests), unfolding(rules::specs::Definitions::Channels::nobody))]
fn nobody() -> Winner
    ensures { result ≡ rule.nobody }
{
    Winner {
        matched: false,
        channel: 0,
        no_acknowledge: false,
        pointer: 0,
        length: 0,
    }
}

// Channel c takes the frame: its own DRAK, and the pointer and length that it uses.
#[tactic(auto, using(std::proofs::lemmas::Bool::Decides::nat_tests), unfolding(rules::specs::Definitions::Channels::winner_of))]
fn winner_of(m: &[u8; 256], c: u8) -> Winner
    ensures { result ≡ rule.winner_of m.now c }
{
    let x = channels::channel_at(m, c);
    let b = channels::buffer_of(m, c);
    Winner {
        matched: true,
        channel: c,
        no_acknowledge: drak(x.pointer),
        pointer: b.pointer,
        length: b.length,
    }
}

// The lowest channel that takes the frame.
#[tactic(auto, using(std::proofs::lemmas::Bool::Decides::nat_tests))]
fn lowest_listening(m: &[u8; 256], high: u8, low: u8) -> Option<u8>
    ensures { result ≡ rule.lowest_listening m.now high low }
{
    (0..channels::CHANNELS).find(|c| takes(m, *c, high, low))
}

// What is held of the channel that takes the frame.
#[tactic(auto, using(std::proofs::lemmas::Bool::Decides::nat_tests), unfolding(rules::specs::Definitions::Channels::won))]
fn won(m: &[u8; 256], x: Option<u8>) -> Winner
    ensures { result ≡ rule.won m.now x }
{
    match x {
        None => nobody(),
        Some(c) => winner_of(m, c),
    }
}

// The winner of a frame, by its first two bytes.
#[tactic(auto, using(std::proofs::lemmas::Bool::Decides::nat_tests), unfolding(rules::specs::Definitions::Channels::winner_for))]
pub fn winner_for(m: &[u8; 256], high: u8, low: u8) -> Winner
    ensures { result ≡ rule.winner_for m.now high low }
{
    won(m, lowest_listening(m, high, low))
}

// ---- who sends

// The channel's status is 0,0,0,-, 1,0,0,1 or 1,1,0,0, and CHER is 0.
#[tactic(auto, using(std::proofs::lemmas::Bool::Decides::nat_tests), unfolding(rules::specs::Definitions::Channels::asks_to_send))]
fn asks_to_send(x: Channel) -> bool
    ensures { result ≡ rule.asks_to_send x }
{
    let bits = status_bits(x);
    (transmit_message(bits) || deferred_reply(bits) || reply_request(bits))
        && !channels::cher(x.status)
}

// Whether the buffer holds a status byte and at most `longest` data bytes.
#[tactic(auto, using(std::proofs::lemmas::Bool::Decides::nat_tests), unfolding(rules::specs::Definitions::Channels::sendable))]
fn sendable(b: Buffer, longest: u8) -> bool
    ensures { result ≡ rule.sendable b longest }
{
    b.legal && b.length as u16 <= longest as u16 + 1
}

// Whether channel c is ready to send. The buffer is tested first: it rules out more channels.
#[tactic(auto, using(std::proofs::lemmas::Bool::Decides::nat_tests), unfolding(rules::specs::Definitions::Channels::ready))]
fn ready(m: &[u8; 256], longest: u8, c: u8) -> bool
    ensures { result ≡ rule.ready m.now longest c }
{
    sendable(channels::buffer_of(m, c), longest) && asks_to_send(channels::channel_at(m, c))
}

// The lowest channel ready to send.
#[tactic(auto, using(std::proofs::lemmas::Bool::Decides::nat_tests))]
pub fn lowest_ready(m: &[u8; 256], longest: u8) -> Option<u8>
    ensures { result ≡ rule.lowest_ready m.now longest }
{
    (0..channels::CHANNELS).find(|c| ready(m, longest, *c))
}

// ---- who replies

// The channel's status is 1,0,0,0, CHER is 0, and its buffer can be sent.
#[tactic(auto, using(std::proofs::lemmas::Bool::Decides::nat_tests))]
fn replies(x: Channel, b: Buffer, longest: u8) -> bool
    ensures { result ≡ both (rule.immediate_reply (rule.status_bits x)) (both (not (rule.cher x.status)) (rule.sendable b longest)) }
{
    immediate_reply(status_bits(x)) && !channels::cher(x.status) && sendable(b, longest)
}

// Whether channel c ends the search for a replier: its tag matches, and it detects requests or replies.
#[tactic(auto, using(std::proofs::lemmas::Bool::Decides::nat_tests), unfolding(rules::specs::Definitions::Channels::settles_reply))]
fn settles_reply(m: &[u8; 256], longest: u8, c: u8, high: u8, low: u8) -> bool
    ensures { result ≡ rule.settles_reply m.now longest high low c }
{
    let x = channels::channel_at(m, c);
    if !tag_matches(x, high, low) {
        return false;
    }
    let buffer = channels::buffer_of(m, c);
    if request_detection(status_bits(x)) {
        return buffer.legal;
    }
    replies(x, buffer, longest)
}

// The lowest channel that settles it.
#[tactic(auto, using(std::proofs::lemmas::Bool::Decides::nat_tests))]
fn lowest_settling(m: &[u8; 256], longest: u8, high: u8, low: u8) -> Option<u8>
    ensures { result ≡ rule.lowest (rule.settles_reply m.now longest high low) rule.channels 0 }
{
    (0..channels::CHANNELS).find(|c| settles_reply(m, longest, *c, high, low))
}

// The channel, if it replies.
#[tactic(auto, using(std::proofs::lemmas::Bool::Decides::nat_tests), unfolding(rules::specs::Definitions::Channels::if_replies))]
fn if_replies(m: &[u8; 256], x: Option<u8>) -> Option<u8>
    ensures { result ≡ rule.if_replies m.now x }
{
    match x {
        Some(c) if immediate_reply(status_bits(channels::channel_at(m, c))) => Some(c),
        _ => None,
    }
}

// The channel that replies to a frame, by its first two bytes.
#[tactic(auto, using(std::proofs::lemmas::Bool::Decides::nat_tests), unfolding(rules::specs::Definitions::Channels::replier_for))]
pub fn replier_for(m: &[u8; 256], longest: u8, high: u8, low: u8) -> Option<u8>
    ensures { result ≡ rule.replier_for m.now longest high low }
{
    if_replies(m, lowest_settling(m, longest, high, low))
}
