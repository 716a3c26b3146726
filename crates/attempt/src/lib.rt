// An attempt to send: its judgement slot by slot, and what it spends (01, Sending; 02, Req 01).
#![tactic(auto)]

ghost use Rattle.std.specs.Prelude.{◌≡◌, ℕ, ◌<◌};
ghost use Rattle.rules.specs.Definitions.Attempt as rule;
ghost use Rattle.rules.specs.Definitions.Service as service_rule;
ghost use Rattle.rules.specs.Definitions.Mailbox as mailbox;
ghost use Rattle.rules.specs.Definitions.Setters as setter;
ghost use Rattle.attempt.specs.Following as place;
ghost use Rattle.attempt.specs.Level as level;

use line::{Half, Part};
use registers::Code;
use rules::{
    Attempts, Coded, Counters, Delivery, Effort, Hearing, Progress, Stage, Timeslots, Verdict,
};

// ---- counts: they stop at their largest

// One slot more.
#[tactic(auto, using(std::proofs::lemmas::Bool::Decides::nat_tests), unfolding(rules::specs::Definitions::Attempt::more_slots))]
fn more_slots(t: Timeslots) -> Timeslots
    ensures { result ≡ rule.more_slots t }
{
    Timeslots(t.0.saturating_add(1))
}

// One attempt more.
#[tactic(auto, using(std::proofs::lemmas::Bool::Decides::nat_tests), unfolding(rules::specs::Definitions::Attempt::more_attempts))]
fn more_attempts(t: Attempts) -> Attempts
    ensures { result ≡ rule.more_attempts t }
{
    Attempts(t.0.saturating_add(1))
}

// ---- the sender's judgement

// The second slot of an acknowledge that is present.
const PRESENT: u8 = 0;

// The level due where d is driven: in the second slot of the acknowledge that of a present one, where RAK asks for it.
#[tactic(auto, using(std::proofs::lemmas::Bool::Decides::nat_tests), unfolding(crate::specs::Level::due_level))]
fn due(n: u8, low: u8, k: u16, d: u8) -> u8
    ensures { result ≡ level.due_level n low k d }
{
    if k == 51 + 10 * u16::from(n) && channels::acknowledge_asked(low) {
        return PRESENT;
    }
    d
}

// A plain bit or first half of a pair.
#[tactic(auto, using(std::proofs::lemmas::Bool::Decides::nat_tests), unfolding(rules::specs::Definitions::Attempt::open_half))]
fn open_half(h: Half) -> bool
    ensures { result ≡ rule.open_half h }
{
    !matches!(h, Half::Second)
}

// Identifier, command or data: there contention may be lost.
#[tactic(auto, using(std::proofs::lemmas::Bool::Decides::nat_tests), unfolding(rules::specs::Definitions::Attempt::arbitrated))]
fn arbitrated(p: Part) -> bool
    ensures { result ≡ rule.arbitrated p }
{
    matches!(p, Part::Identifier | Part::Command | Part::Data)
}

// The check.
#[tactic(auto, using(std::proofs::lemmas::Bool::Decides::nat_tests), unfolding(rules::specs::Definitions::Attempt::in_check))]
fn in_check(p: Part) -> bool
    ensures { result ≡ rule.in_check p }
{
    matches!(p, Part::Check)
}

// The acknowledge.
#[tactic(auto, using(std::proofs::lemmas::Bool::Decides::nat_tests), unfolding(rules::specs::Definitions::Attempt::in_acknowledge))]
fn in_acknowledge(p: Part) -> bool
    ensures { result ≡ rule.in_acknowledge p }
{
    matches!(p, Part::Acknowledge)
}

// A difference in part p; o: recessive is driven in a plain bit or first half.
#[tactic(auto, using(std::proofs::lemmas::Bool::Decides::nat_tests), unfolding(rules::specs::Definitions::Attempt::difference_in))]
fn difference_in(p: Part, o: bool) -> Verdict
    ensures { result ≡ rule.difference_in p o }
{
    if o && arbitrated(p) {
        return Verdict::Lost;
    }
    if o && in_check(p) {
        return Verdict::Failed(Code::FCSE);
    }
    if in_acknowledge(p) {
        return Verdict::Failed(Code::ACKE);
    }
    Verdict::Failed(Code::CV)
}

// A sample unlike the level due, where d is driven.
#[tactic(auto, using(std::proofs::lemmas::Bool::Decides::nat_tests), unfolding(rules::specs::Definitions::Attempt::difference))]
fn difference(n: u8, k: u16, d: u8) -> Verdict
    ensures { result ≡ rule.difference n k d }
{
    difference_in(
        line::part_of(n, k),
        d == 1 && open_half(line::half_of(n, k)),
    )
}

// R/W 1 and RTR 1.
#[tactic(auto, using(std::proofs::lemmas::Bool::Decides::nat_tests), unfolding(rules::specs::Definitions::Mailbox::asks_reply))]
fn asks_reply(low: u8) -> bool
    ensures { result ≡ mailbox.asks_reply low }
{
    low % 4 == 3
}

// A reply request.
#[tactic(auto, using(std::proofs::lemmas::Bool::Decides::nat_tests), unfolding(rules::specs::Definitions::Attempt::is_request))]
pub fn is_request(x: &Coded) -> bool
    ensures { result ≡ rule.is_request x.now }
{
    asks_reply(x.bytes[1])
}

// RTR's first half.
const RTR_SLOT: u16 = 28;

// What a sample in slot k of a frame that the model sends is for it: n data bytes, `low` its byte 1, d the level driven. Where it goes on, the next slot has its number.
#[tactic(auto, using(std::proofs::lemmas::Bool::Decides::nat_tests, crate::proofs::Room::ends), unfolding(crate::specs::Level::judge_level, crate::specs::Following::following, line::specs::Frame::size))]
pub fn judge_level(n: u8, low: u8, k: u16, d: u8, v: u8) -> Verdict
    ensures value { result ≡ level.judge_level n low k d v }
    ensures room { place.following result k < 65536 }
{
    if v == due(n, low, k, d) {
        if u32::from(k) + 1 < 60 + 10 * u32::from(n) {
            return Verdict::Goes;
        }
        return Verdict::Done;
    }
    if k == RTR_SLOT && asks_reply(low) {
        return Verdict::Answered;
    }
    difference(n, k, d)
}

// A good end, for an answered request: success where a channel stores the frame.
#[tactic(auto, using(std::proofs::lemmas::Bool::Decides::nat_tests), unfolding(rules::specs::Definitions::Service::good_for))]
fn good_for(d: Delivery) -> Verdict
    ensures { result ≡ service_rule.good_for d }
{
    match d {
        Delivery::Nothing | Delivery::Spoiled => Verdict::Failed(Code::CV),
        Delivery::Stored => Verdict::Done,
        Delivery::Overflowed => Verdict::Failed(Code::BOV),
    }
}

// What a sample of the frame that answers it is for an attempt. It never goes on as the model's own frame.
#[tactic(auto, using(std::proofs::lemmas::Bool::Decides::nat_tests, crate::proofs::Room::good_room), unfolding(rules::specs::Definitions::Service::answered_as, crate::specs::Following::following))]
pub fn answered_as(h: Hearing, d: Delivery) -> Verdict
    ensures value { result ≡ service_rule.answered_as h d }
    ensures room { (k : ℕ) → place.following result k < 65536 }
{
    match h {
        Hearing::Silent | Hearing::Follows => Verdict::Answered,
        Hearing::Fault(code) => Verdict::Failed(code),
        Hearing::Good => good_for(d),
    }
}

// ---- what the attempt spends

// One slot more.
#[tactic(auto, using(std::proofs::lemmas::Bool::Decides::nat_tests), unfolding(rules::specs::Definitions::Attempt::slot_spent))]
fn spend_slot(c: &mut Counters)
    ensures { c.new ≡ rule.slot_spent c.old }
{
    c.slots = more_slots(c.slots);
}

// One slot and one lost attempt more: no retry is spent.
#[tactic(auto, using(std::proofs::lemmas::Bool::Decides::nat_tests), unfolding(rules::specs::Definitions::Attempt::lost_spent, rules::specs::Definitions::Attempt::slot_spent))]
fn spend_lost(c: &mut Counters)
    ensures { c.new ≡ rule.lost_spent c.old }
{
    spend_slot(c);
    c.lost = more_attempts(c.lost);
}

// One slot and one error more.
#[tactic(auto, using(std::proofs::lemmas::Bool::Decides::nat_tests), unfolding(rules::specs::Definitions::Attempt::error_spent, rules::specs::Definitions::Attempt::slot_spent))]
fn spend_error(c: &mut Counters)
    ensures { c.new ≡ rule.error_spent c.old }
{
    spend_slot(c);
    c.errors = more_attempts(c.errors);
}

// One slot more; then the place is p.
#[tactic(auto, using(std::proofs::lemmas::Bool::Decides::nat_tests))]
fn go_on(e: &mut Effort, p: Progress)
    ensures { e.new ≡ setter.with_counters (setter.with_progress e.old p) (rule.slot_spent e.old.counters) }
{
    e.progress = p;
    spend_slot(&mut e.counters);
}

// The effort after a sample that is w for the attempt: it goes on to its next slot, has ended, or is answered. The place stops at its largest; a place below that goes by the rule.
#[tactic(auto, using(std::proofs::lemmas::Bool::Decides::nat_tests, crate::proofs::Room::advanced_is), unfolding(rules::specs::Definitions::Attempt::advance, crate::specs::Following::following, crate::specs::Following::next_place, crate::specs::Following::advanced))]
pub fn advance(e: &mut Effort, w: Verdict)
    ensures total { e.new ≡ place.advanced w e.old }
    ensures ruled { place.following w e.old.progress.at < 65536 → e.new ≡ rule.advance w e.old }
{
    match w {
        Verdict::Unjudged => {}
        Verdict::Goes => go_on(
            e,
            stage::at_stage(Stage::Sending, e.progress.at.saturating_add(1)),
        ),
        Verdict::Lost => {
            e.progress = stage::at_stage(Stage::Waiting, 0);
            spend_lost(&mut e.counters);
        }
        Verdict::Failed(_) => {
            e.progress = stage::at_stage(Stage::Waiting, 0);
            spend_error(&mut e.counters);
        }
        Verdict::Done => go_on(e, stage::at_stage(Stage::Waiting, 0)),
        Verdict::Answered => go_on(e, stage::at_stage(Stage::Receiving, 0)),
    }
}

// ---- the end of the service

// Error R + 1.
#[tactic(auto, using(std::proofs::lemmas::Bool::Decides::nat_tests), unfolding(rules::specs::Definitions::Attempt::exhausted))]
pub fn exhausted(e: &Effort) -> bool
    ensures { result ≡ rule.exhausted e.now }
{
    u32::from(e.setting) < e.counters.errors.0
}
