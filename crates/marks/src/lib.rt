// What the controller writes to a channel: the marks in its status byte, and its tag (01, Receiving, Sending; 000, Channel Registers).
// The map is lent and changed in place. A channel number is taken modulo 14.
#![tactic(auto)]

ghost use Rattle.std.specs.Prelude.{◌≡◌, ◌+◌, get_or, set};
ghost use Rattle.std.specs.Int.Bits.{bit_or};
ghost use Rattle.rules.specs.Definitions.Channels as channel;
ghost use Rattle.rules.specs.Definitions.Mailbox as rule;

use channels::Layout;

// ---- a channel of the map

// The tag of channel c rewritten with the identifier received; the command bits stay.
#[tactic(auto, using(std::proofs::lemmas::Bool::Decides::nat_tests), unfolding(rules::specs::Definitions::Mailbox::retagged))]
pub fn retag(m: &mut [u8; 256], c: u8, high: u8, low: u8)
    ensures { m.new ≡ rule.retagged m.old c high low }
{
    let at = channels::base(c);
    let kept = m[at + Layout::TAG_COMMAND] % 16;
    m[at + Layout::TAG] = high;
    m[at + Layout::TAG_COMMAND] = low / 16 * 16 + kept;
}

// A mark's bit set in the status byte of channel c.
#[tactic(auto, using(std::proofs::lemmas::Bool::Decides::nat_tests))]
fn set_mark(m: &mut [u8; 256], c: u8, mark: u8)
    ensures { m.new ≡ set m.old (channel.base c + 3) (bit_or (get_or m.old (channel.base c + 3) 0) mark) }
{
    m[channels::base(c) + Layout::LENGTH_STATUS] |= mark;
}

// CHER set in channel c.
#[tactic(auto, using(std::proofs::lemmas::Bool::Decides::nat_tests, crate::proofs::Marks::cher_set))]
pub fn mark_cher(m: &mut [u8; 256], c: u8)
    ensures { m.new ≡ rule.marked_cher m.old c }
{
    set_mark(m, c, Layout::CHER);
}

// CHTx set in channel c.
#[tactic(auto, using(std::proofs::lemmas::Bool::Decides::nat_tests, crate::proofs::Marks::chtx_set))]
pub fn mark_chtx(m: &mut [u8; 256], c: u8)
    ensures { m.new ≡ rule.marked_chtx m.old c }
{
    set_mark(m, c, Layout::CHTX);
}

// CHRx set in channel c.
#[tactic(auto, using(std::proofs::lemmas::Bool::Decides::nat_tests, crate::proofs::Marks::chrx_set))]
pub fn mark_chrx(m: &mut [u8; 256], c: u8)
    ensures { m.new ≡ rule.marked_chrx m.old c }
{
    set_mark(m, c, Layout::CHRX);
}
