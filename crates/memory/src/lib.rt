// The mailbox, and the frame that a channel sends or replies with from it (01, Receiving, Sending; 02, Req 01, Req 04; 000, Mailbox).
// The map is lent and changed in place. A channel number is taken modulo 14.
#![tactic(auto)]

ghost use Rattle.std.specs.Prelude.{◌≡◌, ◌∷◌, ◌+◌, ◌*◌, ◌/◌, ◌%◌, ◌≤◌, ◌<◌, length, set, take, replicate};
ghost use Rattle.std.proofs.lemmas.List.Edits.{sets};
ghost use Rattle.line.specs.Check as check;
ghost use Rattle.line.specs.Frame as frame;
ghost use Rattle.rules.specs.Definitions.Channels as channel;
ghost use Rattle.rules.specs.Definitions.Mailbox as rule;

use channels::Layout;
use rules::Coded;

// ---- the mailbox

// The address k places behind a pointer; 0xFF is followed by 0x80.
#[tactic(auto, using(std::proofs::lemmas::Bool::Decides::nat_tests), unfolding(rules::specs::Definitions::Mailbox::mailbox_at))]
fn mailbox_at(pointer: u8, k: usize) -> usize
    requires { k ≤ frame.longest_data + 2 }
    ensures value { result ≡ rule.mailbox_at pointer k }
    ensures range { result < 256 }
{
    0x80 + (pointer as usize + k) % 128
}

// RAK, R/W, RTR and the count n in five bits.
#[tactic(auto, using(std::proofs::lemmas::Bool::Decides::nat_tests), unfolding(rules::specs::Definitions::Mailbox::status_byte))]
fn status_byte(low: u8, n: u8) -> u8
    ensures { result ≡ rule.status_byte low n }
{
    low % 8 * 32 + n % 32
}

// Data and check, from the place behind the status byte on.
#[tactic(auto, using(std::proofs::lemmas::Bool::Decides::nat_tests, crate::proofs::Laying::lay_next, crate::proofs::Laying::lay_end))]
fn lay(m: &mut [u8; 256], pointer: u8, bytes: &[u8])
    requires { length bytes.now ≤ frame.longest_data + 2 }
    ensures { m.new ≡ rule.laid_from m.old pointer 1 bytes.now }
{
    for (k, byte) in bytes.iter().enumerate() {
        m[mailbox_at(pointer, k + 1)] = *byte;
    }
}

// How many places behind the status byte a frame of n data bytes fills: the check has two where M_L leaves them.
#[tactic(auto, using(std::proofs::lemmas::Bool::Decides::nat_tests, crate::proofs::Laying::filled_spare, crate::proofs::Laying::filled_tight))]
fn places_filled(length: u8, n: u8) -> usize
    ensures value { result ≡ rule.places_filled length n }
    ensures range { result ≤ n + 2 }
{
    let count = n as usize;
    if count + 3 <= length as usize {
        return count + 2;
    }
    count
}

// A frame in the mailbox: the status byte, n data bytes behind it, the check where M_L leaves two places, and no other byte.
// A frame's bytes are CODED_BYTES: no more than these are laid.
#[tactic(auto, using(std::proofs::lemmas::Bool::Decides::nat_tests, crate::proofs::Laying::stored_is, crate::proofs::Laying::all_taken))]
pub fn store(m: &mut [u8; 256], pointer: u8, length: u8, bytes: [u8; line::CODED_BYTES], n: u8)
    ensures { m.new ≡ rule.stored m.old pointer length bytes n }
{
    let first = mailbox_at(pointer, 0);
    m[first] = status_byte(bytes[1], n);
    let end = (2 + places_filled(length, n)).min(line::CODED_BYTES);
    lay(m, pointer, &bytes[2..end]);
}

// ---- the frame that a channel sends

// The data bytes that a length M_L holds.
#[tactic(auto, using(std::proofs::lemmas::Bool::Decides::nat_tests), unfolding(rules::specs::Definitions::Mailbox::data_in))]
fn data_in(length: u8) -> u8
    ensures value { result ≡ rule.data_in length }
    ensures range { result ≤ frame.longest_data }
{
    if length == 0 {
        return 0;
    }
    (length - 1) % line::COUNTS
}

// Identifier and command as two bytes, and zeros.
#[tactic(auto, using(std::proofs::lemmas::Bool::Decides::nat_tests), unfolding(rules::specs::Definitions::Channels::twelve))]
fn headed(high: u8, low: u8) -> [u8; line::CODED_BYTES]
    ensures { result ≡ (channel.twelve high low / 16) ∷ (channel.twelve high low % 16 * 16 + low % 16) ∷ replicate (frame.longest_data + 2) 0 }
{
    let mut bytes = [0u8; line::CODED_BYTES];
    bytes[0] = high;
    bytes[1] = low;
    bytes
}

// The n data bytes behind a pointer, into a frame's bytes.
#[tactic(auto, using(std::proofs::lemmas::Bool::Decides::nat_tests, crate::proofs::Laying::copy_next, crate::proofs::Laying::copy_end))]
fn copy(bytes: &mut [u8; line::CODED_BYTES], m: &[u8; 256], pointer: u8, n: u8)
    requires { n ≤ frame.longest_data }
    ensures { bytes.new ≡ sets bytes.old 2 (rule.mailbox_bytes m.now pointer 1 n) }
{
    for k in 0..n as usize {
        bytes[k + 2] = m[mailbox_at(pointer, k + 1)];
    }
}

// The check as two bytes behind the data, a zero bit behind it.
#[tactic(auto, using(std::proofs::lemmas::Bool::Decides::nat_tests))]
fn seal(bytes: &mut [u8; line::CODED_BYTES], n: u8)
    requires { n ≤ frame.longest_data }
    ensures { bytes.new ≡ set (set bytes.old (n + 2) (check.check (frame.byte_bits (take (n + 2) bytes.old)) / 128)) (n + 3) (check.check (frame.byte_bits (take (n + 2) bytes.old)) % 128 * 2) }
{
    let end = n as usize + 2;
    let check = frame_check::check_of(&bytes[..end]);
    bytes[end] = (check / 128) as u8;
    bytes[end + 1] = (check % 128 * 2) as u8;
}

// A frame by its first two bytes, with n data bytes of channel c's, from pointer + 1, and its check.
#[tactic(auto, using(std::proofs::lemmas::Bool::Decides::nat_tests, crate::proofs::Laying::with_coded))]
fn coded_with(m: &[u8; 256], c: u8, high: u8, low: u8, n: u8) -> Coded
    requires { n ≤ frame.longest_data }
    ensures { result ≡ rule.coded (rule.frame_with m.now c high low n) }
{
    let b = channels::buffer_of(m, c);
    let mut bytes = headed(high, low);
    copy(&mut bytes, m, b.pointer, n);
    seal(&mut bytes, n);
    Coded { n, bytes }
}

// The data bytes that channel c's length holds.
#[tactic(auto, using(std::proofs::lemmas::Bool::Decides::nat_tests))]
fn data_of(m: &[u8; 256], c: u8) -> u8
    ensures value { result ≡ rule.data_in (channel.buffer_of m.now c).length }
    ensures range { result ≤ frame.longest_data }
{
    data_in(channels::buffer_of(m, c).length)
}

// The frame that channel c sends: its tag and command, M_L - 1 data bytes from pointer + 1, and the check. A request has no data.
#[tactic(auto, using(std::proofs::lemmas::Bool::Decides::nat_tests, crate::proofs::Laying::sent_request, crate::proofs::Laying::sent_data))]
pub fn coded_of(m: &[u8; 256], c: u8) -> Coded
    ensures { result ≡ rule.coded (rule.sent_frame m.now c) }
{
    let at = channels::base(c);
    let high = m[at + Layout::TAG];
    let low = m[at + Layout::TAG_COMMAND];
    if low % 4 == 3 {
        return coded_with(m, c, high, low, 0);
    }
    let n = data_of(m, c);
    coded_with(m, c, high, low, n)
}

// The frame that channel c replies with: identifier and command are given.
#[tactic(auto, using(std::proofs::lemmas::Bool::Decides::nat_tests), unfolding(rules::specs::Definitions::Mailbox::reply_frame))]
pub fn reply_of(m: &[u8; 256], c: u8, high: u8, low: u8) -> Coded
    ensures { result ≡ rule.coded (rule.reply_frame m.now c high low) }
{
    coded_with(m, c, high, low, data_of(m, c))
}
