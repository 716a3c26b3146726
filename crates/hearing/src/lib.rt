// The receiver's judgement of a sample, and the level that it drives (01, Receiving).
#![tactic(auto)]

ghost use Rattle.std.specs.Prelude.{◌≡◌};
ghost use Rattle.rules.specs.Definitions.Hearing as rule;

use registers::Code;
use rules::{Hearing, Line, Phase, Reception, Winner};

// ---- start, acknowledge, end of frame

// A start that breaks is CV.
#[tactic(auto, using(std::proofs::lemmas::Bool::Decides::nat_tests), unfolding(rules::specs::Definitions::Hearing::hear_start))]
fn hear_start(at: u8, v: u8) -> Hearing
    ensures { result ≡ rule.hear_start at v }
{
    if v == line::start_level(u16::from(at)) {
        return Hearing::Follows;
    }
    Hearing::Fault(Code::CV)
}

// Whether n data bytes and the status byte are at most M_L.
#[tactic(auto, using(std::proofs::lemmas::Bool::Decides::nat_tests), unfolding(rules::specs::Definitions::Hearing::fits))]
pub fn fits(w: Winner, n: u8) -> bool
    ensures { result ≡ rule.fits w n }
{
    n < w.length
}

// Whether the model drives the acknowledge: matched and fitting, RAK 1, DRAK 0. The check is right where the acknowledge is reached.
#[tactic(auto, using(std::proofs::lemmas::Bool::Decides::nat_tests), unfolding(rules::specs::Definitions::Hearing::acknowledges))]
fn acknowledges(r: &Reception) -> bool
    ensures { result ≡ rule.acknowledges r.now }
{
    let w = r.winner;
    w.matched
        && fits(w, reception::data_count(r.nibbles))
        && channels::acknowledge_asked(r.bytes[1])
        && !w.no_acknowledge
}

// Whether an acknowledge is FV: a pattern other than 10 and 11, 10 with RAK 0, 11 where the model drove 10.
#[tactic(auto, using(std::proofs::lemmas::Bool::Decides::nat_tests), unfolding(rules::specs::Definitions::Hearing::acknowledge_wrong))]
fn acknowledge_wrong(asked: bool, drove: bool, first: u8, second: u8) -> bool
    ensures { result ≡ rule.acknowledge_wrong asked drove first second }
{
    if first == 0 {
        return true;
    }
    if second == 0 {
        return !asked;
    }
    drove
}

// The acknowledge is judged in its second slot.
#[tactic(auto, using(std::proofs::lemmas::Bool::Decides::nat_tests), unfolding(rules::specs::Definitions::Hearing::hear_acknowledge))]
fn hear_acknowledge(r: &Reception, v: u8) -> Hearing
    ensures { result ≡ rule.hear_acknowledge r.now v }
{
    if r.place.at == 0 {
        return Hearing::Follows;
    }
    let asked = channels::acknowledge_asked(r.bytes[1]);
    if acknowledge_wrong(asked, acknowledges(r), r.bits % 2, v) {
        return Hearing::Fault(Code::FV);
    }
    Hearing::Follows
}

// End of frame: all 1, the eighth ends a good frame.
#[tactic(auto, using(std::proofs::lemmas::Bool::Decides::nat_tests), unfolding(rules::specs::Definitions::Hearing::hear_end))]
fn hear_end(at: u8, v: u8) -> Hearing
    ensures { result ≡ rule.hear_end at v }
{
    if v == 0 {
        return Hearing::Fault(Code::CV);
    }
    if at < 7 {
        return Hearing::Follows;
    }
    Hearing::Good
}

// ---- the judgement

// What a sample is while a frame is under way. `longest` is the most data bytes.
#[tactic(auto, using(std::proofs::lemmas::Bool::Decides::nat_tests), unfolding(rules::specs::Definitions::Hearing::hear_frame, rules::specs::Definitions::Hearing::hear_in))]
#[inline(always)]
pub fn hear_frame(r: &Reception, longest: u8, v: u8) -> Hearing
    ensures { result ≡ rule.hear_frame r.now longest v }
{
    match r.place.phase {
        Phase::Quiet => Hearing::Silent,
        Phase::Start => hear_start(r.place.at, v),
        Phase::Body => body::hear_body(r, longest, v),
        Phase::Acknowledge => hear_acknowledge(r, v),
        Phase::End => hear_end(r.place.at, v),
    }
}

// What a sample is with no frame under way: a 0 begins one where the line takes a start.
#[tactic(auto, using(std::proofs::lemmas::Bool::Decides::nat_tests), unfolding(rules::specs::Definitions::Hearing::hear_quiet))]
pub fn hear_quiet(l: Line, v: u8) -> Hearing
    ensures { result ≡ rule.hear_quiet l v }
{
    if v == 0 && free_line::takes_start(l) {
        return Hearing::Follows;
    }
    Hearing::Silent
}

// ---- the level that a receiver drives

// The acknowledge: first slot recessive, second dominant where the model acknowledges.
#[tactic(auto, using(std::proofs::lemmas::Bool::Decides::nat_tests), unfolding(rules::specs::Definitions::Hearing::acknowledge_level))]
fn acknowledge_level(at: u8, r: &Reception) -> u8
    ensures { result ≡ rule.acknowledge_level at r.now }
{
    if at != 0 && acknowledges(r) {
        return 0;
    }
    1
}

// The level that a receiver drives: dominant only in the second acknowledge slot.
#[tactic(auto, using(std::proofs::lemmas::Bool::Decides::nat_tests), unfolding(rules::specs::Definitions::Hearing::receiver_level, rules::specs::Definitions::Hearing::receiver_in))]
pub fn receiver_level(r: &Reception) -> u8
    ensures { result ≡ rule.receiver_level r.now }
{
    match r.place.phase {
        Phase::Acknowledge => acknowledge_level(r.place.at, r),
        Phase::Quiet | Phase::Start | Phase::Body | Phase::End => 1,
    }
}
