// What a call answers, as numbers: the refusal's or 0, the value or 0.
#![tactic(auto)]

ghost use Rattle.std.specs.Prelude.{◌≡◌};
ghost use Rattle.rules.specs.Definitions.Answers as rule;

use rules::Refusal;

// The number of the refusal, or 0.
#[tactic(auto, unfolding(rules::specs::Definitions::Answers::refused_by))]
pub fn refused_by<A: Copy>(reply: Result<A, Refusal>) -> u8
    ensures { result ≡ rule.refused_by reply }
{
    reply.err().map_or(0, u8::from)
}

// The value answered, or 0.
#[tactic(auto, unfolding(rules::specs::Definitions::Answers::value_of))]
pub fn value_of(reply: Result<u8, Refusal>) -> u8
    ensures { result ≡ rule.value_of reply }
{
    reply.unwrap_or(0)
}
