// The modes of the controller (01, Memory map).
#![tactic(auto)]

ghost use Rattle.std.specs.Prelude.{◌≡◌};
ghost use Rattle.rules.specs.Definitions.State as rule;

use rules::{Activity, Mode};

#[tactic(auto, using(std::proofs::lemmas::Bool::Decides::nat_tests), unfolding(rules::specs::Definitions::State::is_active))]
pub fn is_active(a: Activity) -> bool
    ensures { result ≡ rule.is_active a.mode }
{
    matches!(a.mode, Mode::Active)
}

#[tactic(auto, using(std::proofs::lemmas::Bool::Decides::nat_tests), unfolding(rules::specs::Definitions::State::is_asleep))]
pub fn is_asleep(a: Activity) -> bool
    ensures { result ≡ rule.is_asleep a.mode }
{
    matches!(a.mode, Mode::Asleep)
}

#[tactic(auto, using(std::proofs::lemmas::Bool::Decides::nat_tests), unfolding(rules::specs::Definitions::State::is_idle))]
pub fn is_idle(a: Activity) -> bool
    ensures { result ≡ rule.is_idle a.mode }
{
    matches!(a.mode, Mode::Idle)
}
