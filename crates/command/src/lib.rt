// What an accepted write and a reset do over the lent memory map: commands, flags, abort (01, Memory map).
#![tactic(auto)]

ghost use Rattle.std.specs.Prelude.{◌≡◌};
ghost use Rattle.rules.specs.Definitions.Host as rule;
ghost use Rattle.rules.specs.Definitions.Mailbox as mailbox;
ghost use Rattle.rules.specs.Definitions.Service as service;
ghost use Rattle.rules.specs.Definitions.State as core;
ghost use Rattle.rules.specs.Definitions.Answers as answers;

use channels::Layout;
use diagnosis::Diagnosis;
use registers::Map;
use rules::{Activity, Core, Mode, Service};

// ---- commands: GRES, SLEEP, IDLE, ACTI, and REAR

// GRES: it acts before all else.
#[tactic(auto, using(std::proofs::lemmas::Bool::Decides::nat_tests), unfolding(rules::specs::Definitions::Host::resets, registers::specs::Command::asked))]
fn resets(address: usize, v: u8) -> bool
    ensures { result ≡ rule.resets address v }
{
    address == Map::COMMAND && Map::asked(v).reset
}

// SLEEP: it acts unless GRES does.
#[tactic(auto, using(std::proofs::lemmas::Bool::Decides::nat_tests), unfolding(rules::specs::Definitions::Host::sleeps, registers::specs::Command::asked))]
fn sleeps(address: usize, v: u8) -> bool
    ensures { result ≡ rule.sleeps address v }
{
    address == Map::COMMAND && Map::asked(v).sleep
}

// SLEEP acts at once: service and frame go, registers and flags stay.
#[tactic(auto, using(std::proofs::lemmas::Bool::Decides::nat_tests), unfolding(rules::specs::Definitions::State::slept, rules::specs::Definitions::State::in_mode))]
fn sleep(k: &mut Core)
    ensures { k.new ≡ core.slept k.old }
{
    k.activity = Activity {
        mode: Mode::Asleep,
        waiting: false,
    };
    k.reception = reception::quiet();
    k.service = ending::resting();
    k.reply = state::no_reply();
}

// IDLE waits for the end of the service; whether it is due is asked afterwards.
#[tactic(auto, using(std::proofs::lemmas::Bool::Decides::nat_tests), unfolding(rules::specs::Definitions::State::idle_asked, rules::specs::Definitions::State::in_mode))]
fn ask_idle(k: &mut Core)
    ensures { k.new ≡ core.idle_asked k.old }
{
    if modes::is_active(k.activity) {
        k.activity = Activity {
            mode: Mode::Active,
            waiting: true,
        };
    }
}

// ACTI in active mode only cancels a waiting idle; else twelve recessive slots are wanted.
#[tactic(auto, using(std::proofs::lemmas::Bool::Decides::nat_tests), unfolding(rules::specs::Definitions::State::activated, rules::specs::Definitions::State::in_mode))]
fn activate(k: &mut Core)
    ensures { k.new ≡ core.activated k.old }
{
    if !modes::is_active(k.activity) {
        k.line = free_line::unsettled();
    }
    k.activity = Activity {
        mode: Mode::Active,
        waiting: false,
    };
}

// Only the first one set acts.
#[tactic(auto, using(std::proofs::lemmas::Bool::Decides::nat_tests), unfolding(rules::specs::Definitions::Host::mode_commanded, registers::specs::Command::asked))]
fn command_mode(k: &mut Core, v: u8)
    ensures { k.new ≡ rule.mode_commanded k.old v }
{
    let asked = Map::asked(v);
    if asked.idle {
        ask_idle(k);
    } else if asked.activation {
        activate(k);
    }
}

// REAR without a service is not remembered.
#[tactic(auto, using(std::proofs::lemmas::Bool::Decides::nat_tests), unfolding(rules::specs::Definitions::Service::rear_asked))]
fn ask_rear(s: &mut Service)
    ensures { s.new ≡ service.rear_asked s.old }
{
    s.rear = stage::in_service(s.effort.progress);
}

#[tactic(auto, using(std::proofs::lemmas::Bool::Decides::nat_tests), unfolding(rules::specs::Definitions::Host::rear_commanded, registers::specs::Command::asked))]
fn command_rear(s: &mut Service, v: u8)
    ensures { s.new ≡ rule.rear_commanded s.old v }
{
    if Map::asked(v).rearbitration {
        ask_rear(s);
    }
}

// ---- an accepted write

// The byte as written; commands and interrupt resets act and are not kept.
#[tactic(auto, using(std::proofs::lemmas::Bool::Decides::nat_tests), unfolding(rules::specs::Definitions::Host::kept_byte))]
fn keep_byte(m: &mut [u8; 256], address: usize, v: u8)
    ensures { m.new ≡ rule.kept_byte m.old address v }
{
    if !Map::write_only(address) {
        m[address % 256] = v;
    }
}

#[tactic(auto, using(std::proofs::lemmas::Bool::Decides::nat_tests), unfolding(rules::specs::Definitions::Host::flags_cleared))]
fn clear_flags(k: &mut Core, v: u8)
    ensures { k.new ≡ rule.flags_cleared k.old v }
{
    status::clear(&mut k.report.flags, v);
}

#[tactic(auto, using(std::proofs::lemmas::Bool::Decides::nat_tests), unfolding(rules::specs::Definitions::Host::core_written))]
fn write_core(k: &mut Core, address: usize, v: u8)
    ensures { k.new ≡ rule.core_written k.old address v }
{
    if address == Map::COMMAND {
        command_mode(k, v);
    } else if address == Map::INTERRUPT_RESET {
        clear_flags(k, v);
    }
}

// An abort waits for the end of the attempt.
#[tactic(auto, using(std::proofs::lemmas::Bool::Decides::nat_tests), unfolding(rules::specs::Definitions::Service::abort_asked))]
fn ask_abort(s: &mut Service)
    ensures { s.new ≡ service.abort_asked s.old }
{
    s.abort = true;
}

// Whether a host's write sets CHER of the channel in service.
#[tactic(auto, using(std::proofs::lemmas::Bool::Decides::nat_tests), unfolding(rules::specs::Definitions::Service::aborts))]
fn aborts(s: &Service, address: usize, value: u8) -> bool
    ensures { result ≡ service.aborts s.now address value }
{
    stage::in_service(s.effort.progress)
        && address == channels::base(s.channel) + Layout::LENGTH_STATUS
        && channels::cher(value)
}

// What a write asks of the service: REAR, or an abort.
#[tactic(auto, using(std::proofs::lemmas::Bool::Decides::nat_tests), unfolding(rules::specs::Definitions::Host::service_asked))]
fn ask_service(s: &mut Service, address: usize, v: u8)
    ensures { s.new ≡ rule.service_asked s.old address v }
{
    if address == Map::COMMAND {
        command_rear(s, v);
    } else if aborts(s, address, v) {
        ask_abort(s);
    }
}

// A service asked to stop between attempts ends at once; a waiting idle is then due.
#[tactic(auto, using(std::proofs::lemmas::Bool::Decides::nat_tests), unfolding(rules::specs::Definitions::Host::stopped_core))]
fn stop(k: &mut Core, s: &Service)
    ensures { k.new ≡ rule.stopped_core k.old s.now }
{
    let x = ending::stopped(s);
    reports::report_ended(&mut k.report, x, s);
    k.service = *s;
    ending::settle(&mut k.service, x);
    state::idle_if_due(k);
}

// A pulse by hand; other SDC bits in 0x02.
#[tactic(auto, using(std::proofs::lemmas::Bool::Decides::nat_tests), unfolding(rules::specs::Definitions::Host::diagnosis_written, registers::specs::Command::asked))]
fn write_diagnosis(m: &[u8; 256], x: &mut Diagnosis, address: usize, v: u8)
    ensures { x.new ≡ rule.diagnosis_written m.now x.old address v }
{
    let control = m[Map::DIAGNOSIS_CONTROL];
    if address == Map::COMMAND {
        if Map::asked(v).pulse {
            diagnosing::pulse(x, control);
        }
    } else if address == Map::DIAGNOSIS_CONTROL && Map::rate(control) != Map::rate(v) {
        diagnosing::renew(x);
    }
}

// Service and diagnosis are worked apart, each from the state before the write.
#[tactic(auto, using(std::proofs::lemmas::Bool::Decides::nat_tests), unfolding(rules::specs::Definitions::Host::byte_written, rules::specs::Definitions::Host::kept_byte, rules::specs::Definitions::Service::memory_ended, rules::specs::Definitions::Mailbox::marked_chtx, rules::specs::Definitions::Mailbox::marked_cher))]
fn write_byte(m: &mut [u8; 256], k: &mut Core, address: usize, v: u8)
    ensures { answers.controller m.new k.new ≡ rule.byte_written (answers.controller m.old k.old) address v }
{
    let channel = k.service.channel;
    let mut s = k.service;
    let mut x = k.diagnosis;
    ask_service(&mut s, address, v);
    write_core(k, address, v);
    write_diagnosis(m, &mut x, address, v);
    keep_byte(m, address, v);
    ending::end_memory(m, ending::stopped(&s), channel);
    stop(k, &s);
    k.diagnosis = x;
}

// Reset, by pin or GRES.
#[tactic(auto, using(std::proofs::lemmas::Bool::Decides::nat_tests))]
pub fn reset(m: &mut [u8; 256], k: &mut Core)
    ensures map { m.new ≡ mailbox.reset_memory m.old }
    ensures core { k.new ≡ core.reset_core }
{
    Map::reset_memory(m);
    *k = state::reset_core();
}

// An accepted write: GRES, else SLEEP, else the byte and what it asks.
#[tactic(auto, using(std::proofs::lemmas::Bool::Decides::nat_tests), unfolding(rules::specs::Definitions::Host::host_written, rules::specs::Definitions::Host::reset_all))]
pub fn host_written(m: &mut [u8; 256], k: &mut Core, address: usize, v: u8)
    ensures { answers.controller m.new k.new ≡ rule.host_written (answers.controller m.old k.old) address v }
{
    if resets(address, v) {
        reset(m, k);
    } else if sleeps(address, v) {
        sleep(k);
    } else {
        write_byte(m, k, address, v);
    }
}
