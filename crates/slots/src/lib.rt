// A slot of the controller over a lent memory map, in place: the sample is judged with its effects; then a waiting idle, the choice, the start, the answer; then the diagnosis
// (01, Receiving and Sending; 02, Req 01 and Req 05).
#![tactic(auto)]

ghost use Rattle.std.specs.Prelude.{◌≡◌, ◌+◌, ◌<◌, true, false};
ghost use Rattle.rules.specs.Definitions.Service as service_rule;
ghost use Rattle.rules.specs.Definitions.Slots as rule;
ghost use Rattle.rules.specs.Definitions.State as state_rule;
ghost use Rattle.rules.specs.Definitions.Run as run;
ghost use Rattle.rules.specs.Definitions.Answers as answers;
ghost use Rattle.slots.specs.Follow as follow;

use registers::Map;
use rules::{Core, Hearing, Refusal, Role, Stage, Verdict};

// ---- what follows

#[tactic(auto, using(std::proofs::lemmas::Bool::Decides::nat_tests), unfolding(rules::specs::Definitions::Slots::chooses))]
fn chooses(k: &Core) -> bool
    ensures { result ≡ rule.chooses k.now }
{
    modes::is_active(k.activity)
        && !state::serving(&k.service)
        && !place::under_way(k.reception.place)
}

// The service of the lowest channel ready to send, and 0x05.
#[tactic(auto, using(std::proofs::lemmas::Bool::Decides::nat_tests), unfolding(rules::specs::Definitions::Slots::choice_made))]
fn make_choice(k: &mut Core, m: &[u8; 256])
    ensures { k.new ≡ rule.choice_made m.now k.old }
{
    if chooses(k) {
        let s = service::choose(m, line::LONGEST);
        if state::serving(&s) {
            reports::report_sending(&mut k.report, &s);
            k.service = s;
        }
    }
}

#[tactic(auto, using(std::proofs::lemmas::Bool::Decides::nat_tests), unfolding(rules::specs::Definitions::Slots::start_made))]
fn make_start(k: &mut Core, m: &[u8; 256])
    ensures { k.new ≡ rule.start_made m.now k.old }
{
    let autonomous = Map::autonomous(m[Map::TRANSMIT_CONTROL]);
    service::start(&mut k.service, autonomous, k.line, &k.reception);
}

// An idle that waits, no frame under way, or a start sequence that has just ended: else nothing can follow.
#[tactic(auto, using(std::proofs::lemmas::Bool::Decides::nat_tests), unfolding(crate::specs::Follow::begins))]
fn begins(k: &Core) -> bool
    ensures { result ≡ follow.begins k.now }
{
    k.activity.waiting || !place::under_way(k.reception.place) || place::start_ended(&k.reception)
}

#[tactic(auto, using(std::proofs::lemmas::Bool::Decides::nat_tests, crate::proofs::Ways::nothing_follows), unfolding(rules::specs::Definitions::Slots::follows_on))]
fn follow_on(k: &mut Core, m: &[u8; 256])
    ensures { k.new ≡ rule.follows_on m.now k.old }
{
    if begins(k) {
        state::idle_if_due(k);
        make_choice(k, m);
        make_start(k, m);
    }
}

// ---- the level for the next slot

#[tactic(auto, using(std::proofs::lemmas::Bool::Decides::nat_tests), unfolding(rules::specs::Definitions::Slots::drives_as))]
fn drives_as(x: Role, k: &Core) -> u8
    ensures { result ≡ rule.drives_as x k.now }
{
    match x {
        Role::Nobody => 1,
        Role::Receiver | Role::Asker => hearing::receiver_level(&k.reception),
        Role::Sender => driver::level_at(&k.service.effort.frame, k.service.effort.progress.at),
        Role::Replier => driver::level_at(&k.reply.frame, k.reply.at),
    }
}

#[tactic(auto, using(std::proofs::lemmas::Bool::Decides::nat_tests), unfolding(rules::specs::Definitions::Slots::drives))]
#[inline(always)]
fn drives(k: &Core) -> u8
    ensures { result ≡ rule.drives k.now }
{
    let x = place::role_of(k.service.effort.progress, k.reply.going, k.reception.place);
    drives_as(x, k)
}

#[tactic(auto, using(std::proofs::lemmas::Bool::Decides::nat_tests), unfolding(rules::specs::Definitions::Service::own_frame))]
fn own_frame(x: Role) -> bool
    ensures { result ≡ service_rule.own_frame x }
{
    matches!(x, Role::Sender | Role::Replier)
}

// Whether the model drives a dominant level of a frame of its own; asked only where ETIP is set.
#[tactic(auto, using(std::proofs::lemmas::Bool::Decides::nat_tests), unfolding(crate::specs::Follow::own_dominant, rules::specs::Definitions::Slots::drives))]
fn own_dominant(control: u8, k: &Core) -> bool
    ensures { result ≡ follow.own_dominant control k.now }
{
    if !Map::compares_transmission(control) {
        return false;
    }
    let role = place::role_of(k.service.effort.progress, k.reply.going, k.reception.place);
    own_frame(role) && drives_as(role, k) == 0
}

// ---- the slot

// The level for the next slot; whether the model's own frame turns from dominant to recessive, and whether a good frame ends.
#[derive(Clone, Copy)]
struct Motion {
    level: u8,
    turns: bool,
    good: bool,
}

// Any sample.
#[inline(never)]
#[tactic(auto, using(std::proofs::lemmas::Bool::Decides::nat_tests, crate::proofs::Diagnosed::turning_as), unfolding(rules::specs::Definitions::Slots::sampled_slot, rules::specs::Definitions::Slots::judged_slot, judging::specs::Ordinary::memory_after, judging::specs::Ordinary::core_after, rules::specs::Definitions::Slots::ended))]
fn any_slot(m: &mut [u8; 256], k: &mut Core, control: u8, v: u8) -> Motion
    ensures state { answers.controller m.new k.new ≡ rule.sampled_slot (answers.controller m.old k.old) v }
    ensures level { result.level ≡ rule.drives k.new }
    ensures turns { result.turns ≡ follow.turning control k.old k.new }
    ensures good { result.good ≡ rule.ended (answers.controller m.old k.old) v }
{
    let own = own_dominant(control, k);
    let good = judging::take_sample(m, k, v);
    follow_on(k, m);
    let level = drives(k);
    Motion {
        level,
        turns: own & (level == 1),
        good,
    }
}

// ---- the two common samples: they have a short way, by tests that rule out all else

// Another module's frame goes on, with no service and no reply.
#[tactic(auto, using(std::proofs::lemmas::Bool::Decides::nat_tests), unfolding(crate::specs::Follow::receives, crate::specs::Follow::is_resting, crate::specs::Follow::is_followed))]
fn receives(k: &Core, v: u8) -> bool
    ensures { result ≡ follow.receives k.now v }
{
    matches!(k.service.effort.progress.stage, Stage::Resting)
        && !k.reply.going
        && matches!(
            hearing::hear_frame(&k.reception, line::LONGEST, v),
            Hearing::Follows
        )
}

#[tactic(auto, using(std::proofs::lemmas::Bool::Decides::nat_tests, crate::proofs::Short::received_as))]
#[inline(always)]
fn receive(m: &[u8; 256], k: &mut Core, v: u8) -> u8
    requires waits { k.old.activity.waiting ≡ false }
    requires goes { follow.receives k.old v ≡ true }
    ensures state { answers.controller m.now k.new ≡ rule.sampled_slot (answers.controller m.now k.old) v }
    ensures level { result ≡ rule.drives k.new }
{
    judging::take_frame(&mut k.reception, m, Hearing::Follows, v);
    judging::take_reply(
        &mut k.reply,
        Role::Receiver,
        m,
        Verdict::Unjudged,
        &k.reception,
    );
    drives(k)
}

// The model's own frame goes on.
#[tactic(auto, using(std::proofs::lemmas::Bool::Decides::nat_tests, crate::proofs::Short::room), unfolding(crate::specs::Follow::sends, crate::specs::Follow::is_going))]
fn sends(k: &Core, v: u8) -> bool
    ensures value { result ≡ follow.sends k.now v }
    ensures room { result ≡ true → k.now.service.effort.progress.at + 1 < 65536 }
{
    stage::drives_frame(k.service.effort.progress)
        && matches!(
            judging::judge_slot(&k.service.effort.frame, k.service.effort.progress.at, v),
            Verdict::Goes
        )
}

#[tactic(auto, using(std::proofs::lemmas::Bool::Decides::nat_tests, crate::proofs::Short::sent_as, crate::proofs::Short::sent_level), unfolding(attempt::specs::Following::following))]
#[inline(always)]
fn send(m: &[u8; 256], k: &mut Core, v: u8) -> u8
    requires waits { k.old.activity.waiting ≡ false }
    requires goes { follow.sends k.old v ≡ true }
    requires room { k.old.service.effort.progress.at + 1 < 65536 }
    ensures state { answers.controller m.now k.new ≡ rule.sampled_slot (answers.controller m.now k.old) v }
    ensures level { result ≡ rule.drives k.new }
{
    attempt::advance(&mut k.service.effort, Verdict::Goes);
    judging::take_frame(&mut k.reception, m, Hearing::Follows, v);
    drives_as(Role::Sender, k)
}

#[tactic(auto, using(std::proofs::lemmas::Bool::Decides::nat_tests, crate::proofs::Diagnosed::turning_as, crate::proofs::Short::unturned, crate::proofs::Short::received_on, crate::proofs::Short::sent_on))]
fn active_slot(m: &mut [u8; 256], k: &mut Core, control: u8, v: u8) -> Motion
    ensures state { answers.controller m.new k.new ≡ rule.sampled_slot (answers.controller m.old k.old) v }
    ensures level { result.level ≡ rule.drives k.new }
    ensures turns { result.turns ≡ follow.turning control k.old k.new }
    ensures good { result.good ≡ rule.ended (answers.controller m.old k.old) v }
{
    if k.activity.waiting {
        return any_slot(m, k, control, v);
    }
    if receives(k, v) {
        return Motion {
            level: receive(m, k, v),
            turns: false,
            good: false,
        };
    }
    if sends(k, v) {
        let own = own_dominant(control, k);
        let level = send(m, k, v);
        return Motion {
            level,
            turns: own & (level == 1),
            good: false,
        };
    }
    any_slot(m, k, control, v)
}

// Idle: nothing moves, and the level is recessive.
#[tactic(auto, using(std::proofs::lemmas::Bool::Decides::nat_tests), unfolding(crate::specs::Follow::moved_slot, crate::specs::Follow::moved_level, crate::specs::Follow::moved_turns, crate::specs::Follow::moved_good))]
fn take_level(m: &mut [u8; 256], k: &mut Core, control: u8, v: u8) -> Motion
    ensures state { answers.controller m.new k.new ≡ follow.moved_slot (answers.controller m.old k.old) v }
    ensures level { result.level ≡ follow.moved_level k.old k.new }
    ensures turns { result.turns ≡ follow.moved_turns control k.old k.new }
    ensures good { result.good ≡ follow.moved_good (answers.controller m.old k.old) v }
{
    if modes::is_active(k.activity) {
        return active_slot(m, k, control, v);
    }
    Motion {
        level: 1,
        turns: false,
        good: false,
    }
}

// Idle or active: the sample of the input selected as the slot begins; then the diagnosis counts the slot's edges. The answer is TXD, after the transmit inversion.
#[tactic(auto, using(std::proofs::lemmas::Bool::Decides::nat_tests))]
fn awake_slot(m: &mut [u8; 256], k: &mut Core, levels: u16) -> u8
    ensures { run.accept result (answers.controller m.new k.new) ≡ follow.awake_slot (answers.controller m.old k.old) levels }
{
    let control = m[Map::DIAGNOSIS_CONTROL];
    let three = registers::received(m[Map::LINE_CONTROL], levels);
    let v = registers::input_level(three, diagnosing::connected(control, &k.diagnosis));
    let w = take_level(m, k, control, v);
    diagnosing::diagnose(&mut k.diagnosis, control, three, w.turns, w.good);
    registers::transmitted(m[Map::LINE_CONTROL], w.level)
}

// A slot behind number 6: 5; idle and asleep give recessive. Of a state in its ranges it is the slot.
#[tactic(auto, using(std::proofs::lemmas::Bool::Decides::nat_tests, crate::proofs::Diagnosed::asleep_not_active), unfolding(rules::specs::Definitions::Answers::lent, rules::specs::Definitions::Answers::number, rules::specs::Definitions::Answers::refused_by, rules::specs::Definitions::Answers::value_of, rules::specs::Definitions::Run::slot, rules::specs::Definitions::Run::accept, rules::specs::Definitions::Run::refuse, rules::specs::Definitions::Run::unless_refused, rules::specs::Definitions::Run::rested_slot, rules::specs::Definitions::Slots::resting_slot, crate::specs::Follow::awake_slot, crate::specs::Follow::slot_open))]
pub fn slot_in_range(m: &mut [u8; 256], k: &mut Core, levels: u16) -> Result<u8, Refusal>
    ensures total { answers.lent result (answers.controller m.new k.new) ≡ follow.slot_open (answers.controller m.old k.old) levels }
    ensures ruled { state_rule.in_range (answers.controller m.old k.old) ≡ true → answers.lent result (answers.controller m.new k.new) ≡ run.slot (answers.controller m.old k.old) levels }
{
    if 7 < levels {
        return Err(Refusal::Levels);
    }
    if modes::is_asleep(k.activity) {
        return Ok(registers::transmitted(m[Map::LINE_CONTROL], 1));
    }
    Ok(awake_slot(m, k, levels))
}

// A slot: 6, 5.
#[tactic(auto, using(std::proofs::lemmas::Bool::Decides::nat_tests), unfolding(rules::specs::Definitions::Answers::lent, rules::specs::Definitions::Answers::number, rules::specs::Definitions::Answers::refused_by, rules::specs::Definitions::Answers::value_of, rules::specs::Definitions::Run::slot, rules::specs::Definitions::Run::refuse, rules::specs::Definitions::Run::unless_refused))]
pub fn slot_on(m: &mut [u8; 256], k: &mut Core, levels: u16) -> Result<u8, Refusal>
    ensures { answers.lent result (answers.controller m.new k.new) ≡ run.slot (answers.controller m.old k.old) levels }
{
    if !ranges::in_range(m, k) {
        return Err(Refusal::Range);
    }
    slot_in_range(m, k, levels)
}
