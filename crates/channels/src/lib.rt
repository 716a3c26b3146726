// Channels: the bits of byte 1, a channel's bytes, links (01, Memory map; 000, Channel Registers).
// A channel number is 0 to 13; others are taken modulo 14. `low` is byte 1 of a frame or of a channel: identifier or tag bits 3 to 0, EXT, RAK, R/W, RTR.
#![tactic(auto)]

ghost use Rattle.std.specs.Prelude.{◌≡◌, ◌≤◌};
ghost use Rattle.rules.specs.Definitions.Channels as rule;

use rules::{Buffer, Channel};

pub const CHANNELS: u8 = 14;

// A channel's registers: their offsets, and the masks of their bits (000, Channel Register Set Structure). +4 and +5 are plain memory.
#[derive(Clone, Copy)]
pub struct Layout {}

impl Layout {
    pub const FIRST: usize = 0x10;

    pub const SIZE: usize = 8;

    pub const TAG: usize = 0;

    // Tag bits 3 to 0, and the command.
    pub const TAG_COMMAND: usize = 1;

    pub const EXT: u8 = 0b0000_1000;

    pub const RAK: u8 = 0b0000_0100;

    pub const RNW: u8 = 0b0000_0010;

    pub const RTR: u8 = 0b0000_0001;

    pub const POINTER: usize = 2;

    pub const DRAK: u8 = 0b1000_0000;

    // The length M_L, and the status.
    pub const LENGTH_STATUS: usize = 3;

    pub const CHER: u8 = 0b0000_0100;

    pub const CHTX: u8 = 0b0000_0010;

    pub const CHRX: u8 = 0b0000_0001;

    pub const MASK_HIGH: usize = 6;

    pub const MASK_LOW: usize = 7;
}

// ---- the bits of byte 1

// EXT.
#[tactic(auto, using(std::proofs::lemmas::Bool::Decides::nat_tests, rules::proofs::Bits::masked), unfolding(rules::specs::Definitions::Channels::extension))]
pub fn extension(low: u8) -> bool
    ensures { result ≡ rule.extension low }
{
    low & Layout::EXT != 0
}

// RAK.
#[tactic(auto, using(std::proofs::lemmas::Bool::Decides::nat_tests, rules::proofs::Bits::masked), unfolding(rules::specs::Definitions::Channels::acknowledge_asked))]
pub fn acknowledge_asked(low: u8) -> bool
    ensures { result ≡ rule.acknowledge_asked low }
{
    low & Layout::RAK != 0
}

// R/W.
#[tactic(auto, using(std::proofs::lemmas::Bool::Decides::nat_tests, rules::proofs::Bits::masked), unfolding(rules::specs::Definitions::Channels::reads))]
pub fn reads(low: u8) -> bool
    ensures { result ≡ rule.reads low }
{
    low & Layout::RNW != 0
}

// RTR.
#[tactic(auto, using(std::proofs::lemmas::Bool::Decides::nat_tests, rules::proofs::Bits::masked), unfolding(rules::specs::Definitions::Channels::remote))]
pub fn remote(low: u8) -> bool
    ensures { result ≡ rule.remote low }
{
    low & Layout::RTR != 0
}

// ---- a channel's bytes

// The address of channel c.
#[tactic(auto, using(std::proofs::lemmas::Bool::Decides::nat_tests), unfolding(rules::specs::Definitions::Channels::base))]
pub fn base(c: u8) -> usize
    ensures value { result ≡ rule.base c }
    ensures range { result ≤ 120 }
{
    Layout::FIRST + Layout::SIZE * ((c % CHANNELS) as usize)
}

// The bytes of channel c.
#[tactic(auto, using(std::proofs::lemmas::Bool::Decides::nat_tests), unfolding(rules::specs::Definitions::Channels::channel_at))]
pub fn channel_at(m: &[u8; 256], c: u8) -> Channel
    ensures { result ≡ rule.channel_at m.now c }
{
    let at = base(c);
    Channel {
        high: m[at + Layout::TAG],
        low: m[at + Layout::TAG_COMMAND],
        pointer: m[at + Layout::POINTER],
        status: m[at + Layout::LENGTH_STATUS],
        mask_high: m[at + Layout::MASK_HIGH],
        mask_low: m[at + Layout::MASK_LOW],
    }
}

// The length M_L in +3.
#[tactic(auto, using(std::proofs::lemmas::Bool::Decides::nat_tests), unfolding(rules::specs::Definitions::Channels::length_of))]
fn length_of(status: u8) -> u8
    ensures { result ≡ rule.length_of status }
{
    status / 8
}

// CHER in +3.
#[tactic(auto, using(std::proofs::lemmas::Bool::Decides::nat_tests, rules::proofs::Bits::masked), unfolding(rules::specs::Definitions::Channels::cher))]
pub fn cher(status: u8) -> bool
    ensures { result ≡ rule.cher status }
{
    status & Layout::CHER != 0
}

// ---- links

// The buffer of a bad link.
#[tactic(auto, using(std::proofs::lemmas::Bool::Decides::nat_tests), unfolding(rules::specs::Definitions::Channels::no_buffer))]
fn no_buffer() -> Buffer
    ensures { result ≡ rule.no_buffer }
{
    Buffer {
        legal: false,
        pointer: 0,
        length: 0,
    }
}

// The buffer by a channel's own pointer and length.
#[tactic(auto, using(std::proofs::lemmas::Bool::Decides::nat_tests), unfolding(rules::specs::Definitions::Channels::own_buffer))]
fn own_buffer(x: Channel) -> Buffer
    ensures { result ≡ rule.own_buffer x }
{
    let length = length_of(x.status);
    if length == 0 {
        return no_buffer();
    }
    Buffer {
        legal: true,
        pointer: x.pointer % 128,
        length,
    }
}

// The buffer of the channel that channel c links to: not above 13, not itself, not another link.
#[tactic(auto, using(std::proofs::lemmas::Bool::Decides::nat_tests), unfolding(rules::specs::Definitions::Channels::linked_buffer))]
fn linked_buffer(m: &[u8; 256], c: u8, link: u8) -> Buffer
    ensures { result ≡ rule.linked_buffer m.now c link }
{
    if CHANNELS <= link || link == c {
        return no_buffer();
    }
    own_buffer(channel_at(m, link))
}

// The buffer that channel c uses, its link resolved.
#[tactic(auto, using(std::proofs::lemmas::Bool::Decides::nat_tests), unfolding(rules::specs::Definitions::Channels::buffer_of))]
pub fn buffer_of(m: &[u8; 256], c: u8) -> Buffer
    ensures { result ≡ rule.buffer_of m.now c }
{
    let x = channel_at(m, c);
    if length_of(x.status) == 0 {
        return linked_buffer(m, c, x.pointer % 16);
    }
    own_buffer(x)
}
