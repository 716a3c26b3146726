// What a sample, the choice, the end of a service and that of a reply do to 0x05, 0x06, 0x07 and 0x09 (01, Receiving and Sending; 02, Req 01).
#![tactic(auto)]

ghost use Rattle.std.specs.Prelude.{◌≡◌, true};
ghost use Rattle.rules.specs.Definitions.Delivery as delivery;
ghost use Rattle.rules.specs.Definitions.Service as rule;
ghost use Rattle.rules.specs.Definitions.Setters as setter;

use registers::Code;
use rules::{Delivery, Ending, Hearing, Reception, Report, Retries, Service, Verdict};

// ---- 0x07, and a frame of another module

// Each error replaces 0x07 (house).
#[tactic(auto, using(std::proofs::lemmas::Bool::Decides::nat_tests))]
fn set_error(x: &mut Report, code: u8)
    ensures { x.new ≡ setter.with_error x.old code }
{
    x.error = code;
}

// RE.
#[tactic(auto, using(std::proofs::lemmas::Bool::Decides::nat_tests), unfolding(rules::specs::Definitions::Delivery::receive_error))]
fn raise_re(x: &mut Report)
    ensures { x.new ≡ delivery.receive_error x.old }
{
    x.flags.re = true;
}

// ROK if RAK is 1, else RNOK; 0x06 shows the channel, retries 0.
#[tactic(auto, using(std::proofs::lemmas::Bool::Decides::nat_tests), unfolding(rules::specs::Definitions::Delivery::report_stored))]
fn report_stored(x: &mut Report, asked: bool, channel: u8)
    ensures { x.new ≡ delivery.report_stored x.old asked channel }
{
    x.message = Retries { count: 0, channel };
    if asked {
        x.flags.rok = true;
    } else {
        x.flags.rnok = true;
    }
}

// A fault's code goes to 0x07, matched or not.
#[tactic(auto, using(std::proofs::lemmas::Bool::Decides::nat_tests), unfolding(rules::specs::Definitions::Delivery::report_heard))]
fn report_heard(x: &mut Report, h: Hearing)
    ensures { x.new ≡ delivery.report_heard h x.old }
{
    match h {
        Hearing::Fault(code) => set_error(x, code),
        Hearing::Silent | Hearing::Follows | Hearing::Good => {}
    }
}

// ROK or RNOK for a frame stored; RE for an error, with BOV where the frame did not fit.
#[tactic(auto, using(std::proofs::lemmas::Bool::Decides::nat_tests), unfolding(rules::specs::Definitions::Delivery::report_delivered))]
fn report_delivered(x: &mut Report, d: Delivery, r: &Reception)
    ensures { x.new ≡ delivery.report_delivered d x.old r.now }
{
    match d {
        Delivery::Nothing => {}
        Delivery::Stored => {
            let asked = channels::acknowledge_asked(r.bytes[1]);
            report_stored(x, asked, r.winner.channel);
        }
        Delivery::Overflowed => {
            set_error(x, Code::BOV);
            raise_re(x);
        }
        Delivery::Spoiled => raise_re(x),
    }
}

// ---- a service

// Retry fields show the smaller of errors and R.
#[tactic(auto, using(std::proofs::lemmas::Bool::Decides::nat_tests), unfolding(rules::specs::Definitions::Service::retries_of))]
fn retries_of(s: &Service) -> Retries
    ensures { result ≡ rule.retries_of s.now }
{
    let errors = s.effort.counters.errors;
    if errors.0 < u32::from(s.effort.setting) {
        return Retries {
            count: (errors.0 % 256) as u8,
            channel: s.channel,
        };
    }
    Retries {
        count: s.effort.setting,
        channel: s.channel,
    }
}

// 0x05, at the choice and at each error.
#[tactic(auto, using(std::proofs::lemmas::Bool::Decides::nat_tests), unfolding(rules::specs::Definitions::Service::report_sending))]
pub fn report_sending(x: &mut Report, s: &Service)
    ensures { x.new ≡ rule.report_sending x.old s.now }
{
    x.sending = retries_of(s);
}

// 0x07 and 0x05 after an error in a sample; s is the service with its error counted.
#[tactic(auto, using(std::proofs::lemmas::Bool::Decides::nat_tests), unfolding(rules::specs::Definitions::Service::report_judged))]
fn report_judged(x: &mut Report, w: Verdict, s: &Service)
    ensures { x.new ≡ rule.report_judged w x.old s.now }
{
    match w {
        Verdict::Failed(code) => {
            set_error(x, code);
            report_sending(x, s);
        }
        _ => {}
    }
}

// TOK, and 0x06.
#[tactic(auto, using(std::proofs::lemmas::Bool::Decides::nat_tests))]
fn report_success(x: &mut Report, message: Retries)
    ensures { x.new ≡ setter.with_flags (setter.with_message x.old message) (setter.with_tok x.old.flags true) }
{
    x.message = message;
    x.flags.tok = true;
}

// TE, and 0x06.
#[tactic(auto, using(std::proofs::lemmas::Bool::Decides::nat_tests))]
fn report_exhaustion(x: &mut Report, message: Retries)
    ensures { x.new ≡ setter.with_flags (setter.with_message x.old message) (setter.with_te x.old.flags true) }
{
    x.message = message;
    x.flags.te = true;
}

// 0x06 is written on success and exhaustion; abort and REAR leave the registers.
#[tactic(auto, using(std::proofs::lemmas::Bool::Decides::nat_tests), unfolding(rules::specs::Definitions::Service::report_ended))]
pub fn report_ended(x: &mut Report, e: Ending, s: &Service)
    ensures { x.new ≡ rule.report_ended e x.old s.now }
{
    match e {
        Ending::Sent => report_success(x, retries_of(s)),
        Ending::Exhausted => report_exhaustion(x, retries_of(s)),
        Ending::Going | Ending::Aborted | Ending::Rearbitrated | Ending::Fulfilled => {}
    }
}

// What a sample of an immediate reply does: success with retries 0, or RE.
#[tactic(auto, using(std::proofs::lemmas::Bool::Decides::nat_tests), unfolding(rules::specs::Definitions::Service::report_replied, rules::specs::Definitions::Delivery::receive_error))]
pub fn report_reply(x: &mut Report, q: Verdict, c: u8)
    ensures { x.new ≡ rule.report_replied q x.old c }
{
    match q {
        Verdict::Failed(_) => raise_re(x),
        Verdict::Done => report_success(
            x,
            Retries {
                count: 0,
                channel: c,
            },
        ),
        _ => {}
    }
}

// ---- the sample

// 0x07, then what the frame did, then 0x05 at an error, then the end of the service; s has the sample counted.
#[tactic(auto, using(std::proofs::lemmas::Bool::Decides::nat_tests))]
pub fn report_after(
    x: &mut Report,
    w: Verdict,
    h: Hearing,
    d: Delivery,
    e: Ending,
    r: &Reception,
    s: &Service,
)
    ensures { x.new ≡ rule.report_ended e (rule.report_judged w (delivery.report_delivered d (delivery.report_heard h x.old) r.now) s.now) s.now }
{
    report_heard(x, h);
    report_delivered(x, d, r);
    report_judged(x, w, s);
    report_ended(x, e, s);
}
