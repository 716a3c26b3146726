// How a sending service ends, and the marks that this sets in its channel (01, Sending; 02, Req 01; 000, Retries, Rearbitrate and Abort).
#![tactic(auto)]

ghost use Rattle.std.specs.Prelude.{◌≡◌};
ghost use Rattle.line.specs.Bits.{pick};
ghost use Rattle.rules.specs.Definitions.Service as rule;
ghost use Rattle.rules.specs.declared.Ending.TheVariants as endings;

use rules::{Coded, Delivery, Effort, Ending, Reception, Service, Stage, Verdict};

// No service.
#[tactic(auto, using(std::proofs::lemmas::Bool::Decides::nat_tests), unfolding(rules::specs::Definitions::Service::resting))]
pub fn resting() -> Service
    ensures { result ≡ rule.resting }
{
    Service {
        channel: 0,
        abort: false,
        rear: false,
        effort: Effort {
            frame: Coded {
                n: 0,
                bytes: [0u8; line::CODED_BYTES],
            },
            setting: 0,
            progress: stage::at_stage(Stage::Resting, 0),
            counters: stage::no_counts(),
        },
    }
}

// ---- the end of a service

// Between attempts: exhaustion is judged first, then an abort, then REAR.
#[tactic(auto, using(std::proofs::lemmas::Bool::Decides::nat_tests), unfolding(rules::specs::Definitions::Service::stopped))]
pub fn stopped(s: &Service) -> Ending
    ensures { result ≡ rule.stopped s.now }
{
    if !stage::between_attempts(s.effort.progress) {
        return Ending::Going;
    }
    if attempt::exhausted(&s.effort) {
        return Ending::Exhausted;
    }
    if s.abort {
        return Ending::Aborted;
    }
    if s.rear {
        return Ending::Rearbitrated;
    }
    Ending::Going
}

// How the service ends in this slot: success, or as between attempts.
#[tactic(auto, using(std::proofs::lemmas::Bool::Decides::nat_tests), unfolding(rules::specs::Definitions::Service::ending_of))]
pub fn ending_of(w: Verdict, s: &Service) -> Ending
    ensures { result ≡ rule.ending_of w s.now }
{
    match w {
        Verdict::Done => Ending::Sent,
        _ => stopped(s),
    }
}

// A reply that the channel of a waiting request stores: a frame with R/W 1 and RTR 0.
#[tactic(auto, using(std::proofs::lemmas::Bool::Decides::nat_tests), unfolding(rules::specs::Definitions::Service::fulfils))]
pub fn fulfils(d: Delivery, r: &Reception, s: &Service) -> bool
    ensures { result ≡ rule.fulfils d r.now s.now }
{
    matches!(d, Delivery::Stored)
        && stage::between_attempts(s.effort.progress)
        && attempt::is_request(&s.effort.frame)
        && r.winner.channel == s.channel
        && r.bytes[1] % 4 == 0b10
}

// How the service ends in this slot: fulfilled by what is delivered, or by the attempt. s has the sample counted; fulfils was asked before.
#[tactic(auto, using(std::proofs::lemmas::Bool::Decides::nat_tests))]
pub fn end_in(fulfilled: bool, w: Verdict, s: &Service) -> Ending
    ensures { result ≡ pick fulfilled endings.Fulfilled (rule.ending_of w s.now) }
{
    if fulfilled {
        return Ending::Fulfilled;
    }
    ending_of(w, s)
}

// The service, or none once it has ended.
#[tactic(auto, using(std::proofs::lemmas::Bool::Decides::nat_tests), unfolding(rules::specs::Definitions::Service::settled))]
pub fn settle(s: &mut Service, x: Ending)
    ensures { s.new ≡ rule.settled x s.old }
{
    match x {
        Ending::Going => {}
        _ => *s = resting(),
    }
}

// Success and abort set CHTx, exhaustion CHER and CHTx, REAR nothing.
#[tactic(auto, using(std::proofs::lemmas::Bool::Decides::nat_tests), unfolding(rules::specs::Definitions::Service::memory_ended, rules::specs::Definitions::Mailbox::marked_chtx, rules::specs::Definitions::Mailbox::marked_cher))]
pub fn end_memory(m: &mut [u8; 256], x: Ending, channel: u8)
    ensures { m.new ≡ rule.memory_ended x m.old channel }
{
    match x {
        Ending::Sent | Ending::Aborted => marks::mark_chtx(m, channel),
        Ending::Exhausted => {
            marks::mark_cher(m, channel);
            marks::mark_chtx(m, channel);
        }
        Ending::Going | Ending::Rearbitrated | Ending::Fulfilled => {}
    }
}
