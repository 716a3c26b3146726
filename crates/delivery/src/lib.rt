// What another module's frame does to the channel that takes it (01, Receiving; 02, Req 04).
#![tactic(auto)]

ghost use Rattle.std.specs.Prelude.{◌≡◌};
ghost use Rattle.rules.specs.Definitions.Delivery as rule;

use rules::{Delivery, Hearing, Reception};

// A valid frame is stored where it fits, else it overflows.
#[tactic(auto, using(std::proofs::lemmas::Bool::Decides::nat_tests), unfolding(rules::specs::Definitions::Delivery::delivered))]
fn delivered(r: &Reception) -> Delivery
    ensures { result ≡ rule.delivered r.now }
{
    if hearing::fits(r.winner, reception::data_count(r.nibbles)) {
        return Delivery::Stored;
    }
    Delivery::Overflowed
}

// What a sample does to a channel that has matched.
#[tactic(auto, using(std::proofs::lemmas::Bool::Decides::nat_tests), unfolding(rules::specs::Definitions::Delivery::delivery_to))]
fn delivery_to(h: Hearing, r: &Reception) -> Delivery
    ensures { result ≡ rule.delivery_to h r.now }
{
    match h {
        Hearing::Silent | Hearing::Follows => Delivery::Nothing,
        Hearing::Fault(_) => Delivery::Spoiled,
        Hearing::Good => delivered(r),
    }
}

// What a sample does to the channel that takes the frame, if one has matched.
#[tactic(auto, using(std::proofs::lemmas::Bool::Decides::nat_tests), unfolding(rules::specs::Definitions::Delivery::delivery_of))]
pub fn delivery_of(h: Hearing, r: &Reception) -> Delivery
    ensures { result ≡ rule.delivery_of h r.now }
{
    if r.winner.matched {
        return delivery_to(h, r);
    }
    Delivery::Nothing
}

// ---- the memory map

// Status byte, data and, where M_L leaves two places, the check to the mailbox, the identifier to the tag, CHRx.
#[tactic(auto, using(std::proofs::lemmas::Bool::Decides::nat_tests), unfolding(rules::specs::Definitions::Delivery::memory_stored))]
fn store(m: &mut [u8; 256], r: &Reception)
    ensures { m.new ≡ rule.memory_stored m.old r.now }
{
    let w = r.winner;
    memory::store(
        m,
        w.pointer,
        w.length,
        r.bytes,
        reception::data_count(r.nibbles),
    );
    marks::retag(m, w.channel, r.bytes[0], r.bytes[1]);
    marks::mark_chrx(m, w.channel);
}

// What a delivery writes to the map: the frame, or CHER.
#[tactic(auto, using(std::proofs::lemmas::Bool::Decides::nat_tests), unfolding(rules::specs::Definitions::Delivery::memory_delivered))]
pub fn deliver(m: &mut [u8; 256], d: Delivery, r: &Reception)
    ensures { m.new ≡ rule.memory_delivered d m.old r.now }
{
    match d {
        Delivery::Nothing => {}
        Delivery::Stored => store(m, r),
        Delivery::Overflowed | Delivery::Spoiled => marks::mark_cher(m, r.winner.channel),
    }
}
