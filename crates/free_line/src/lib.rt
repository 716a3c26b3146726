// The line between frames: when it is free and takes a start (01, Sending: Free line).
#![tactic(auto)]

ghost use Rattle.std.specs.Prelude.{◌≡◌};
ghost use Rattle.rules.specs.Definitions.Reception as rule;

use rules::Line;

// After reset, fault or activation: twelve recessive slots are due.
#[tactic(auto, using(std::proofs::lemmas::Bool::Decides::nat_tests), unfolding(rules::specs::Definitions::Reception::unsettled))]
pub fn unsettled() -> Line
    ensures { result ≡ rule.unsettled }
{
    Line {
        good: false,
        count: 0,
    }
}

// After the last slot of a good frame: four are due.
#[tactic(auto, using(std::proofs::lemmas::Bool::Decides::nat_tests), unfolding(rules::specs::Definitions::Reception::unsettled, rules::specs::Definitions::Reception::after_good))]
pub fn after_good() -> Line
    ensures { result ≡ rule.after_good }
{
    Line {
        good: true,
        ..unsettled()
    }
}

// Whether the line is free: four recessive slots in a row after a good frame, else twelve.
#[tactic(auto, using(std::proofs::lemmas::Bool::Decides::nat_tests), unfolding(rules::specs::Definitions::Reception::free))]
pub fn free(l: Line) -> bool
    ensures { result ≡ rule.free l }
{
    if l.good {
        return 4 <= l.count;
    }
    12 <= l.count
}

// Whether a start sequence is taken: from the slot after a good frame on, else only on a free line.
#[tactic(auto, using(std::proofs::lemmas::Bool::Decides::nat_tests), unfolding(rules::specs::Definitions::Reception::takes_start))]
pub fn takes_start(l: Line) -> bool
    ensures { result ≡ rule.takes_start l }
{
    l.good || free(l)
}

// A slot with no frame: a 1 counts, a 0 starts the count again.
#[tactic(auto, using(std::proofs::lemmas::Bool::Decides::nat_tests), unfolding(rules::specs::Definitions::Reception::counted))]
pub fn count(l: &mut Line, v: u8)
    ensures { l.new ≡ rule.counted l.old v }
{
    if v == 0 {
        l.count = 0;
    } else if l.count < 12 {
        l.count += 1;
    }
}
