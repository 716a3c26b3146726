// The controller's six calls. State is changed in place; each answers what the step rule says (01, Numbers refused; Session and listing).
#![tactic(auto)]

ghost use Rattle.std.specs.Prelude.{◌≡◌};
ghost use Rattle.rules.specs.Definitions.Run as run;
ghost use Rattle.rules.specs.Definitions.Answers as answers;
ghost use Rattle.rules.specs.declared.Event.TheVariants as event;

use registers::Map;
use rules::{Controller, Refusal};
pub use status::interrupt;

// A fresh controller: a reset one with zero channels and mailbox.
#[tactic(auto, using(std::proofs::lemmas::Bool::Decides::nat_tests), unfolding(rules::specs::Definitions::Run::fresh, rules::specs::Definitions::Host::reset_all))]
pub fn fresh() -> Controller
    ensures { result ≡ run.fresh }
{
    let mut memory = [0u8; 256];
    Map::reset_memory(&mut memory);
    Controller {
        memory,
        core: state::reset_core(),
    }
}

#[tactic(auto, using(std::proofs::lemmas::Bool::Decides::nat_tests), unfolding(rules::specs::Definitions::Answers::done, rules::specs::Definitions::Run::step))]
pub fn pin_reset(c: &mut Controller) -> Result<(), Refusal>
    ensures { answers.done result c.new ≡ run.step c.old event.Reset }
{
    host::pin_reset_on(&mut c.memory, &mut c.core)
}

#[tactic(auto, using(std::proofs::lemmas::Bool::Decides::nat_tests), unfolding(rules::specs::Definitions::Answers::done, rules::specs::Definitions::Run::step))]
pub fn host_write(c: &mut Controller, address: u16, value: u16) -> Result<(), Refusal>
    ensures { answers.done result c.new ≡ run.step c.old (event.Write address value) }
{
    host::host_write_on(&mut c.memory, &mut c.core, address, value)
}

#[tactic(auto, using(std::proofs::lemmas::Bool::Decides::nat_tests), unfolding(rules::specs::Definitions::Answers::lent, rules::specs::Definitions::Run::step))]
pub fn host_read(c: &Controller, address: u16) -> Result<u8, Refusal>
    ensures { answers.lent result c.now ≡ run.step c.now (event.Read address) }
{
    host_read::host_read_on(&c.memory, &c.core, address)
}

#[tactic(auto, using(std::proofs::lemmas::Bool::Decides::nat_tests), unfolding(rules::specs::Definitions::Answers::lent, rules::specs::Definitions::Run::step))]
pub fn slot(c: &mut Controller, levels: u16) -> Result<u8, Refusal>
    ensures { answers.lent result c.new ≡ run.step c.old (event.Slot levels) }
{
    slots::slot_on(&mut c.memory, &mut c.core, levels)
}
