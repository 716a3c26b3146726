// What a sample does: judged, then its effects on memory map, registers, line, frame, service and reply, in place (01, Receiving and Sending; 02, Req 01).
#![tactic(auto)]

ghost use Rattle.std.specs.Prelude.{◌≡◌, ◌<◌};
ghost use Rattle.rules.specs.Definitions.Slots as rule;
ghost use Rattle.rules.specs.Definitions.Attempt as sending;
ghost use Rattle.rules.specs.Definitions.Hearing as hearing_rule;
ghost use Rattle.rules.specs.Definitions.Service as service_rule;
ghost use Rattle.line.specs.Frame as frame;
ghost use Rattle.attempt.specs.Following as behind;
ghost use Rattle.judging.specs.Ordinary as ordinary;
ghost use Rattle.judging.specs.Judged as judged;

use rules::{
    Coded, Core, Delivery, Effort, Ending, Hearing, ImmediateReply, Line, Reception, Role, Service,
    Verdict,
};

// What the model is in the frame under way; what a sample is for the attempt, for the line and for the reply.
#[derive(Clone, Copy)]
struct Judgement {
    role: Role,
    verdict: Verdict,
    hearing: Hearing,
    reply: Verdict,
}

// ---- what a sample is

// The model's own frame, for the line: it goes on, is another's once lost or answered, ends in an error, or ends well.
#[tactic(auto, using(std::proofs::lemmas::Bool::Decides::nat_tests), unfolding(rules::specs::Definitions::Service::hear_own))]
fn hear_own(w: Verdict) -> Hearing
    ensures { result ≡ service_rule.hear_own w }
{
    match w {
        Verdict::Unjudged => Hearing::Silent,
        Verdict::Goes => Hearing::Follows,
        Verdict::Lost => Hearing::Follows,
        Verdict::Failed(code) => Hearing::Fault(code),
        Verdict::Done => Hearing::Good,
        Verdict::Answered => Hearing::Follows,
    }
}

// The model's own frame is not stored and touches no receiving channel.
#[tactic(auto, using(std::proofs::lemmas::Bool::Decides::nat_tests), unfolding(rules::specs::Definitions::Slots::delivers))]
fn delivers(x: Role, h: Hearing, r: &Reception) -> Delivery
    ensures { result ≡ rule.delivers x h r.now }
{
    match x {
        Role::Receiver | Role::Asker => delivery::delivery_of(h, r),
        Role::Sender => Delivery::Nothing,
        Role::Nobody | Role::Replier => Delivery::Nothing,
    }
}

// For the line, but for a frame of the model's own.
#[tactic(auto, using(std::proofs::lemmas::Bool::Decides::nat_tests), unfolding(crate::specs::Judged::hears))]
fn hears(x: Role, r: &Reception, l: Line, v: u8) -> Hearing
    ensures { result ≡ judged.hears x r.now l v }
{
    if place::receives(x) {
        return hearing::hear_frame(r, line::LONGEST, v);
    }
    hearing::hear_quiet(l, v)
}

// Slot k of a frame that the model sends; the next has its number.
#[tactic(auto, using(std::proofs::lemmas::Bool::Decides::nat_tests, attempt::proofs::Level::level_judged))]
pub fn judge_slot(f: &Coded, k: u16, v: u8) -> Verdict
    ensures value { result ≡ sending.judge_slot f.now k v }
    ensures room { behind.following result k < 65536 }
{
    attempt::judge_level(f.n, f.bytes[1], k, driver::level_at(f, k), v)
}

// For the attempt under way; h is what the sample is for another module's frame.
#[tactic(auto, using(std::proofs::lemmas::Bool::Decides::nat_tests), unfolding(crate::specs::Judged::tried, attempt::specs::Following::following))]
fn tried(x: Role, e: &Effort, h: Hearing, r: &Reception, v: u8) -> Verdict
    ensures value { result ≡ judged.tried x e.now h r.now v }
    ensures room { behind.following result e.now.progress.at < 65536 }
{
    match x {
        Role::Sender => judge_slot(&e.frame, e.progress.at, v),
        Role::Asker => attempt::answered_as(h, delivery::delivery_of(h, r)),
        Role::Nobody | Role::Receiver | Role::Replier => Verdict::Unjudged,
    }
}

// For the reply under way.
#[tactic(auto, using(std::proofs::lemmas::Bool::Decides::nat_tests), unfolding(crate::specs::Judged::reply_verdict, rules::specs::Definitions::Service::judge_reply, attempt::specs::Following::following))]
fn reply_verdict(x: Role, y: &ImmediateReply, v: u8) -> Verdict
    ensures value { result ≡ judged.reply_verdict x y.now v }
    ensures room { behind.following result y.now.at < 65536 }
{
    match x {
        Role::Replier => judge_slot(&y.frame, y.at, v),
        Role::Nobody | Role::Receiver | Role::Sender | Role::Asker => Verdict::Unjudged,
    }
}

// For the line: h is what the sample is but for a frame of the model's own, w what it is for the attempt, q for the reply.
#[tactic(auto, using(std::proofs::lemmas::Bool::Decides::nat_tests), unfolding(crate::specs::Judged::heard))]
fn heard(x: Role, h: Hearing, w: Verdict, q: Verdict) -> Hearing
    ensures { result ≡ judged.heard x h w q }
{
    match x {
        Role::Nobody | Role::Receiver | Role::Asker => h,
        Role::Sender => hear_own(w),
        Role::Replier => hear_own(q),
    }
}

// Judged by what the model is in the frame under way.
#[tactic(auto, using(std::proofs::lemmas::Bool::Decides::nat_tests, crate::proofs::Ways::tried_is, crate::proofs::Ways::reply_is, crate::proofs::Ways::heard_is), unfolding(rules::specs::Definitions::Slots::heard, rules::specs::Definitions::Slots::verdict))]
fn judge(k: &Core, v: u8) -> Judgement
    ensures role { result.role ≡ rule.role_in k.now }
    ensures verdict { result.verdict ≡ rule.verdict k.now v }
    ensures reply { result.reply ≡ rule.reply_verdict (rule.role_in k.now) k.now v }
    ensures hearing { result.hearing ≡ rule.heard k.now (rule.verdict k.now v) v }
    ensures room { behind.following result.verdict k.now.service.effort.progress.at < 65536 }
    ensures reply_room { behind.following result.reply k.now.reply.at < 65536 }
{
    let role = place::role_of(k.service.effort.progress, k.reply.going, k.reception.place);
    let h = hears(role, &k.reception, k.line, v);
    let verdict = tried(role, &k.service.effort, h, &k.reception, v);
    let reply = reply_verdict(role, &k.reply, v);
    Judgement {
        role,
        verdict,
        hearing: heard(role, h, verdict, reply),
        reply,
    }
}

// ---- the line and the frame

// The slot of a fault does not count among the twelve.
#[tactic(auto, using(std::proofs::lemmas::Bool::Decides::nat_tests), unfolding(rules::specs::Definitions::Hearing::line_after))]
fn take_line(l: &mut Line, h: Hearing, v: u8)
    ensures { l.new ≡ hearing_rule.line_after h l.old v }
{
    match h {
        Hearing::Silent => free_line::count(l, v),
        Hearing::Follows => {}
        Hearing::Fault(_) => *l = free_line::unsettled(),
        Hearing::Good => *l = free_line::after_good(),
    }
}

// A fault and a good end leave no frame.
#[tactic(auto, using(std::proofs::lemmas::Bool::Decides::nat_tests), unfolding(rules::specs::Definitions::Hearing::reception_after))]
#[inline(always)]
fn take_slot(r: &mut Reception, h: Hearing, v: u8)
    ensures { r.new ≡ hearing_rule.reception_after h r.old v }
{
    match h {
        Hearing::Silent => {}
        Hearing::Follows => reception::follow(r, v),
        Hearing::Fault(_) | Hearing::Good => *r = reception::quiet(),
    }
}

// The frame, and its winner in the last command slot, whoever sends; it is held (house).
#[tactic(auto, using(std::proofs::lemmas::Bool::Decides::nat_tests), unfolding(rules::specs::Definitions::Slots::reception_judged, rules::specs::Definitions::Reception::winner_taken))]
#[inline(always)]
pub fn take_frame(r: &mut Reception, m: &[u8; 256], h: Hearing, v: u8)
    ensures { r.new ≡ rule.reception_judged m.now h r.old v }
{
    take_slot(r, h, v);
    if place::command_ended(r) {
        r.winner = matching::winner_for(m, r.bytes[0], r.bytes[1]);
    }
}

// ---- the immediate reply

// The reply of a channel, or none; it begins at RTR's first half.
#[tactic(auto, using(std::proofs::lemmas::Bool::Decides::nat_tests), unfolding(rules::specs::Definitions::Service::reply_by))]
fn reply_by(m: &[u8; 256], high: u8, low: u8, x: Option<u8>) -> ImmediateReply
    ensures { result ≡ service_rule.reply_by m.now high low x }
{
    match x {
        None => state::no_reply(),
        Some(c) => ImmediateReply {
            going: true,
            channel: c,
            at: 28,
            frame: memory::reply_of(m, c, high, low),
        },
    }
}

// R/W is taken: the reply of the channel that replies.
#[tactic(auto, using(std::proofs::lemmas::Bool::Decides::nat_tests), unfolding(rules::specs::Definitions::Service::reply_taken))]
#[cold]
#[inline(never)]
fn reply_taken(m: &[u8; 256], r: &Reception) -> ImmediateReply
    ensures { result ≡ service_rule.reply_taken m.now frame.longest_data r.now }
{
    let high = r.bytes[0];
    let low = place::reply_low(r);
    reply_by(
        m,
        high,
        low,
        matching::replier_for(m, line::LONGEST, high, low),
    )
}

// The reply goes on, or it has ended.
#[tactic(auto, using(std::proofs::lemmas::Bool::Decides::nat_tests), unfolding(crate::specs::Judged::reply_advanced, attempt::specs::Following::next_place))]
fn move_reply(y: &mut ImmediateReply, q: Verdict)
    ensures { y.new ≡ judged.reply_advanced q y.old }
{
    match q {
        Verdict::Unjudged => {}
        Verdict::Goes => y.at = y.at.saturating_add(1),
        Verdict::Lost | Verdict::Failed(_) | Verdict::Done | Verdict::Answered => {
            *y = state::no_reply();
        }
    }
}

// Taken in the R/W slot of another module's frame; q is what the sample is for the reply, r the frame after it. The place stops at its largest; a place below that goes by the rule.
#[tactic(auto, using(std::proofs::lemmas::Bool::Decides::nat_tests, crate::proofs::Ways::moved_is), unfolding(crate::specs::Judged::reply_left, crate::specs::Judged::reply_after))]
#[inline(always)]
pub fn take_reply(y: &mut ImmediateReply, x: Role, m: &[u8; 256], q: Verdict, r: &Reception)
    ensures total { y.new ≡ judged.reply_left x m.now y.old q r.now }
    ensures ruled { behind.following q y.old.at < 65536 → y.new ≡ judged.reply_after x m.now y.old q r.now }
{
    match x {
        Role::Receiver => {
            if place::reads_asked(r) {
                *y = reply_taken(m, r);
            }
        }
        Role::Replier => move_reply(y, q),
        Role::Nobody | Role::Sender | Role::Asker => {}
    }
}

// ---- map, registers and service

// The frame goes on, or there is none.
#[tactic(auto, using(std::proofs::lemmas::Bool::Decides::nat_tests), unfolding(crate::specs::Ordinary::passes))]
fn passes(h: Hearing) -> bool
    ensures { result ≡ ordinary.passes h }
{
    matches!(h, Hearing::Silent | Hearing::Follows)
}

// No end of a service is due.
#[tactic(auto, using(std::proofs::lemmas::Bool::Decides::nat_tests), unfolding(crate::specs::Ordinary::goes))]
fn goes(x: Ending) -> bool
    ensures { result ≡ ordinary.goes x }
{
    matches!(x, Ending::Going)
}

// The attempt goes on, or there is none and the service does not end.
#[tactic(auto, using(std::proofs::lemmas::Bool::Decides::nat_tests), unfolding(crate::specs::Ordinary::stays))]
fn stays(w: Verdict, s: &Service) -> bool
    ensures { result ≡ ordinary.stays w s.now }
{
    match w {
        Verdict::Unjudged => goes(ending::stopped(s)),
        Verdict::Goes | Verdict::Answered => true,
        Verdict::Lost | Verdict::Failed(_) | Verdict::Done => false,
    }
}

// The marks of an immediate reply: CHER, or CHTx and CHRx.
#[tactic(auto, using(std::proofs::lemmas::Bool::Decides::nat_tests), unfolding(rules::specs::Definitions::Service::memory_replied))]
fn mark_reply(m: &mut [u8; 256], q: Verdict, c: u8)
    ensures { m.new ≡ service_rule.memory_replied q m.old c }
{
    match q {
        Verdict::Unjudged | Verdict::Goes | Verdict::Lost | Verdict::Answered => {}
        Verdict::Failed(_) => marks::mark_cher(m, c),
        Verdict::Done => {
            marks::mark_chtx(m, c);
            marks::mark_chrx(m, c);
        }
    }
}

// The store or CHER first, then the marks of a service that ends, then those of a reply.
#[tactic(auto, using(std::proofs::lemmas::Bool::Decides::nat_tests), unfolding(crate::specs::Judged::effected, rules::specs::Definitions::Slots::memory_judged, rules::specs::Definitions::Slots::report_after, rules::specs::Definitions::Slots::ending, rules::specs::Definitions::Slots::service_judged))]
#[cold]
#[inline(never)]
fn mark(m: &mut [u8; 256], k: &mut Core, j: Judgement)
    requires role { j.role ≡ rule.role_in k.old }
    requires room { behind.following j.verdict k.old.service.effort.progress.at < 65536 }
    ensures map { m.new ≡ rule.memory_judged m.old k.old j.verdict j.reply j.hearing }
    ensures core { k.new ≡ judged.effected k.old j.verdict j.reply j.hearing }
{
    let d = delivers(j.role, j.hearing, &k.reception);
    let fulfilled = ending::fulfils(d, &k.reception, &k.service);
    attempt::advance(&mut k.service.effort, j.verdict);
    let end = ending::end_in(fulfilled, j.verdict, &k.service);
    delivery::deliver(m, d, &k.reception);
    ending::end_memory(m, end, k.service.channel);
    mark_reply(m, j.reply, k.reply.channel);
    reports::report_after(
        &mut k.report,
        j.verdict,
        j.hearing,
        d,
        end,
        &k.reception,
        &k.service,
    );
    reports::report_reply(&mut k.report, j.reply, k.reply.channel);
    ending::settle(&mut k.service, end);
}

// What a sample does to map, registers and service. In the ordinary slot neither map nor registers change.
#[tactic(auto, using(std::proofs::lemmas::Bool::Decides::nat_tests, crate::proofs::Ways::memory_kept))]
fn take_effect(m: &mut [u8; 256], k: &mut Core, j: Judgement)
    requires role { j.role ≡ rule.role_in k.old }
    requires room { behind.following j.verdict k.old.service.effort.progress.at < 65536 }
    requires reply { ordinary.Marks j.reply j.hearing }
    ensures map { m.new ≡ rule.memory_judged m.old k.old j.verdict j.reply j.hearing }
    ensures core { k.new ≡ judged.effected k.old j.verdict j.reply j.hearing }
{
    if passes(j.hearing) && stays(j.verdict, &k.service) {
        attempt::advance(&mut k.service.effort, j.verdict);
        return;
    }
    mark(m, k, j);
}

// ---- the sample

#[tactic(auto, using(std::proofs::lemmas::Bool::Decides::nat_tests), unfolding(rules::specs::Definitions::Hearing::ends_well))]
fn ends_well(h: Hearing) -> bool
    ensures { result ≡ hearing_rule.ends_well h }
{
    matches!(h, Hearing::Good)
}

// Effects first, then line and frame, whose winner is read from the map that the effects leave. The answer is whether a good frame ends.
#[tactic(auto, using(std::proofs::lemmas::Bool::Decides::nat_tests, crate::proofs::Ways::reply_marked, crate::proofs::Ways::reply_after_is), unfolding(crate::specs::Judged::effected, crate::specs::Ordinary::memory_after, crate::specs::Ordinary::core_after, rules::specs::Definitions::Slots::core_judged))]
pub fn take_sample(m: &mut [u8; 256], k: &mut Core, v: u8) -> bool
    ensures map { m.new ≡ ordinary.memory_after m.old k.old v }
    ensures core { k.new ≡ ordinary.core_after m.old k.old v }
    ensures good { result ≡ hearing_rule.ends_well (rule.heard k.old (rule.verdict k.old v) v) }
{
    let j = judge(k, v);
    take_effect(m, k, j);
    take_line(&mut k.line, j.hearing, v);
    take_frame(&mut k.reception, m, j.hearing, v);
    take_reply(&mut k.reply, j.role, m, j.reply, &k.reception);
    ends_well(j.hearing)
}
