// Whether a host access is open, to a state in its ranges: the first refusals of a write and a read behind 6 (01, Numbers refused).
#![tactic(auto)]

ghost use Rattle.std.specs.Prelude.{◌≡◌};
ghost use Rattle.rules.specs.Definitions.Run as run;
ghost use Rattle.access.specs.Open as rule;

use rules::{Core, Refusal};

// 7, 1.
#[tactic(auto, using(std::proofs::lemmas::Bool::Decides::nat_tests), unfolding(crate::specs::Open::open_refusals, rules::specs::Definitions::Run::first_due))]
pub fn open(k: &Core, address: u16) -> Result<(), Refusal>
    ensures { result ≡ run.first_due (rule.open_refusals k.now address) }
{
    if modes::is_asleep(k.activity) {
        return Err(Refusal::Asleep); // 7 before 1
    }
    if 255 < address {
        return Err(Refusal::Address);
    }
    Ok(())
}
