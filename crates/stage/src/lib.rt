// The stage of a service and its counts (01, Sending).
#![tactic(auto)]

ghost use Rattle.std.specs.Prelude.{◌≡◌};
ghost use Rattle.rules.specs.Definitions.Attempt as rule;

use rules::{Attempts, Counters, Progress, Stage, Timeslots};

// A service starts with nothing spent.
#[tactic(auto, using(std::proofs::lemmas::Bool::Decides::nat_tests), unfolding(rules::specs::Definitions::Attempt::no_counts))]
pub fn no_counts() -> Counters
    ensures { result ≡ rule.no_counts }
{
    Counters {
        slots: Timeslots(0),
        lost: Attempts(0),
        errors: Attempts(0),
    }
}

// A place in a service.
#[tactic(auto, using(std::proofs::lemmas::Bool::Decides::nat_tests), unfolding(rules::specs::Definitions::Attempt::at_stage))]
pub fn at_stage(stage: Stage, at: u16) -> Progress
    ensures { result ≡ rule.at_stage stage at }
{
    Progress { stage, at }
}

// TXG.
#[tactic(auto, using(std::proofs::lemmas::Bool::Decides::nat_tests), unfolding(rules::specs::Definitions::Attempt::is_serving, rules::specs::Definitions::Attempt::in_service))]
pub fn in_service(p: Progress) -> bool
    ensures { result ≡ rule.in_service p }
{
    !matches!(p.stage, Stage::Resting)
}

// In a service and between attempts: a first level answered and not yet sampled is no attempt.
#[tactic(auto, using(std::proofs::lemmas::Bool::Decides::nat_tests), unfolding(rules::specs::Definitions::Attempt::is_between, rules::specs::Definitions::Attempt::between_attempts))]
pub fn between_attempts(p: Progress) -> bool
    ensures { result ≡ rule.between_attempts p }
{
    matches!(p.stage, Stage::Waiting | Stage::Opening)
}

// In a service, with no level answered.
#[tactic(auto, using(std::proofs::lemmas::Bool::Decides::nat_tests), unfolding(rules::specs::Definitions::Attempt::is_waiting, rules::specs::Definitions::Attempt::waits))]
pub fn waits(p: Progress) -> bool
    ensures { result ≡ rule.waits p }
{
    matches!(p.stage, Stage::Waiting)
}

// A level of the frame is driven in the slot to come.
#[tactic(auto, using(std::proofs::lemmas::Bool::Decides::nat_tests), unfolding(rules::specs::Definitions::Attempt::is_driving, rules::specs::Definitions::Attempt::drives_frame))]
pub fn drives_frame(p: Progress) -> bool
    ensures { result ≡ rule.drives_frame p }
{
    matches!(p.stage, Stage::Opening | Stage::Sending)
}

// In an attempt whose request is being answered.
#[tactic(auto, using(std::proofs::lemmas::Bool::Decides::nat_tests), unfolding(rules::specs::Definitions::Attempt::is_answering, rules::specs::Definitions::Attempt::is_answered))]
pub fn is_answered(p: Progress) -> bool
    ensures { result ≡ rule.is_answered p }
{
    matches!(p.stage, Stage::Receiving)
}
