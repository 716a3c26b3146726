// The state but for the memory map: its modes, reset, a waiting idle (01, Memory map).
#![tactic(auto)]

ghost use Rattle.std.specs.Prelude.{◌≡◌};
ghost use Rattle.rules.specs.Definitions.State as rule;
ghost use Rattle.rules.specs.Definitions.Service as service_rule;

use registers::Map;
use rules::{Activity, Coded, Core, ImmediateReply, Mode, Service};

// ---- modes

#[tactic(auto, using(std::proofs::lemmas::Bool::Decides::nat_tests), unfolding(rules::specs::Definitions::State::in_mode))]
fn in_mode(mode: Mode, waiting: bool) -> Activity
    ensures { result ≡ rule.in_mode mode waiting }
{
    Activity { mode, waiting }
}

// There is a service: TXG.
#[tactic(auto, using(std::proofs::lemmas::Bool::Decides::nat_tests), unfolding(rules::specs::Definitions::State::serving))]
pub fn serving(s: &Service) -> bool
    ensures { result ≡ rule.serving s.now }
{
    stage::in_service(s.effort.progress)
}

// ---- reset

// Idle mode, no frame, no service, the registers at their reset values.
#[tactic(auto, using(std::proofs::lemmas::Bool::Decides::nat_tests), unfolding(rules::specs::Definitions::State::reset_core))]
pub fn reset_core() -> Core
    ensures { result ≡ rule.reset_core }
{
    Core {
        activity: in_mode(Mode::Idle, false),
        report: Map::reset_report(),
        line: free_line::unsettled(),
        reception: reception::quiet(),
        service: ending::resting(),
        reply: no_reply(),
        diagnosis: diagnosing::undiagnosed(),
    }
}

// No immediate reply under way.
#[tactic(auto, using(std::proofs::lemmas::Bool::Decides::nat_tests), unfolding(rules::specs::Definitions::Service::no_reply, rules::specs::Definitions::Service::resting))]
pub fn no_reply() -> ImmediateReply
    ensures { result ≡ service_rule.no_reply }
{
    ImmediateReply {
        going: false,
        channel: 0,
        at: 0,
        frame: Coded {
            n: 0,
            bytes: [0u8; line::CODED_BYTES],
        },
    }
}

// ---- IDLE

// Idle acts: the frame under way is dropped.
#[tactic(auto, using(std::proofs::lemmas::Bool::Decides::nat_tests), unfolding(rules::specs::Definitions::State::idled))]
fn idle(k: &mut Core)
    ensures { k.new ≡ rule.idled k.old }
{
    k.activity = in_mode(Mode::Idle, false);
    k.reception = reception::quiet();
    k.reply = no_reply();
}

// A waiting idle acts once there is no service.
#[tactic(auto, using(std::proofs::lemmas::Bool::Decides::nat_tests), unfolding(rules::specs::Definitions::State::idle_due))]
pub fn idle_if_due(k: &mut Core)
    ensures { k.new ≡ rule.idle_due k.old }
{
    if k.activity.waiting && !serving(&k.service) {
        idle(k);
    }
}
