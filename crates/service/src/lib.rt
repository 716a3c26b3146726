// The sending service: choice and start (01, Sending; 000, Retries).
#![tactic(auto)]

ghost use Rattle.std.specs.Prelude.{◌≡◌};
ghost use Rattle.rules.specs.Definitions.Service as rule;

use registers::Map;
use rules::{Effort, Line, Reception, Service, Stage};

// The service of channel c: its frame and MR are copied now.
#[tactic(auto, using(std::proofs::lemmas::Bool::Decides::nat_tests), unfolding(rules::specs::Definitions::Service::chosen, rules::specs::Definitions::Service::resting))]
fn chosen(m: &[u8; 256], c: u8) -> Service
    ensures { result ≡ rule.chosen m.now c }
{
    Service {
        channel: c,
        abort: false,
        rear: false,
        effort: Effort {
            frame: memory::coded_of(m, c),
            setting: Map::retry_setting(m[Map::TRANSMIT_CONTROL]),
            progress: stage::at_stage(Stage::Waiting, 0),
            counters: stage::no_counts(),
        },
    }
}

#[tactic(auto, using(std::proofs::lemmas::Bool::Decides::nat_tests), unfolding(rules::specs::Definitions::Service::choice_of))]
fn choice_of(m: &[u8; 256], x: Option<u8>) -> Service
    ensures { result ≡ rule.choice_of m.now x }
{
    match x {
        None => ending::resting(),
        Some(c) => chosen(m, c),
    }
}

// The service of the lowest channel that is ready to send. By value: where none is ready the rules keep the old service.
#[tactic(auto, using(std::proofs::lemmas::Bool::Decides::nat_tests), unfolding(rules::specs::Definitions::Service::choose))]
pub fn choose(m: &[u8; 256], longest: u8) -> Service
    ensures { result ≡ rule.choose m.now longest }
{
    choice_of(m, matching::lowest_ready(m, longest))
}

// Slot k of the frame is answered: the first level of an attempt.
#[tactic(auto, using(std::proofs::lemmas::Bool::Decides::nat_tests), unfolding(rules::specs::Definitions::Service::opened))]
fn open(s: &mut Service, k: u16)
    ensures { s.new ≡ rule.opened s.old k }
{
    s.effort.progress = stage::at_stage(Stage::Opening, k);
}

// Either type joins a clean start sequence; MT 1 starts at once on a free line.
#[tactic(auto, using(std::proofs::lemmas::Bool::Decides::nat_tests), unfolding(rules::specs::Definitions::Service::started))]
pub fn start(s: &mut Service, autonomous: bool, l: Line, r: &Reception)
    ensures { s.new ≡ rule.started s.old autonomous l r.now }
{
    if !stage::waits(s.effort.progress) {
        return;
    }
    if place::start_ended(r) {
        open(s, 10);
    } else if !place::under_way(r.place) && autonomous && free_line::free(l) {
        open(s, 0);
    }
}
