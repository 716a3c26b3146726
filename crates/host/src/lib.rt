// Pin reset and host write over a lent memory map, and their refusals (01, Memory map; Numbers refused).
#![tactic(auto)]

ghost use Rattle.std.specs.Prelude.{◌≡◌, true};
ghost use Rattle.rules.specs.Definitions.Host as rule;
ghost use Rattle.rules.specs.Definitions.State as state_rule;
ghost use Rattle.rules.specs.Definitions.Run as run;
ghost use Rattle.rules.specs.Definitions.Answers as answers;
ghost use Rattle.access.specs.Open as behind;
ghost use Rattle.host.specs.Plain as plain_rule;

use registers::Map;
use rules::{Core, Refusal};

// Pin reset: 6.
#[tactic(auto, using(std::proofs::lemmas::Bool::Decides::nat_tests), unfolding(rules::specs::Definitions::Answers::done, rules::specs::Definitions::Answers::number, rules::specs::Definitions::Answers::refused_by, rules::specs::Definitions::Run::pin_reset, rules::specs::Definitions::Run::accept, rules::specs::Definitions::Run::refuse, rules::specs::Definitions::Run::unless_refused, rules::specs::Definitions::Host::reset_all))]
pub fn pin_reset_on(m: &mut [u8; 256], k: &mut Core) -> Result<(), Refusal>
    ensures { answers.done result (answers.controller m.new k.new) ≡ run.pin_reset (answers.controller m.old k.old) }
{
    if !ranges::in_range(m, k) {
        return Err(Refusal::Range);
    }
    command::reset(m, k);
    Ok(()) // the reset is made
}

// 2, 3, 8.
#[tactic(auto, using(std::proofs::lemmas::Bool::Decides::nat_tests), unfolding(rules::specs::Definitions::Host::write_refusals, rules::specs::Definitions::Run::first_due))]
fn writable(address: u16, value: u16) -> Result<(), Refusal>
    ensures { result ≡ run.first_due (rule.write_refusals address value) }
{
    let a = address as usize;
    if 255 < value {
        return Err(Refusal::Value);
    }
    if Map::read_only(a) || Map::reserved(a) {
        return Err(Refusal::Unwritable);
    }
    if Map::fixed_bits(a, (value % 256) as u8) {
        return Ok(());
    }
    Err(Refusal::FixedBits)
}

// A byte of a channel or the mailbox, with no service and no idle that waits: a write only keeps it.
#[tactic(auto, using(std::proofs::lemmas::Bool::Decides::nat_tests), unfolding(crate::specs::Plain::plain))]
fn plain(k: &Core, address: u16) -> bool
    ensures { result ≡ plain_rule.plain k.now address }
{
    16 <= address && !state::serving(&k.service) && !k.activity.waiting
}

// An accepted write.
#[tactic(auto, using(std::proofs::lemmas::Bool::Decides::nat_tests, crate::proofs::Kept::kept_alone))]
fn write(m: &mut [u8; 256], k: &mut Core, address: u16, v: u8)
    ensures { answers.controller m.new k.new ≡ rule.host_written (answers.controller m.old k.old) address v }
{
    if plain(k, address) {
        m[(address % 256) as usize] = v;
        return;
    }
    command::host_written(m, k, address as usize, v);
}

// A host write behind number 6: 7, 1, 2, 3, 8. To a state in its ranges it is the host write.
#[tactic(auto, using(std::proofs::lemmas::Bool::Decides::nat_tests, access::proofs::Opened::opened, access::proofs::Opened::refused_open, rules::proofs::Refusals::accepted, rules::proofs::Refusals::refused_first, rules::proofs::Refusals::refused_second), unfolding(rules::specs::Definitions::Answers::done, rules::specs::Definitions::Answers::refused_by, rules::specs::Definitions::Run::host_write, rules::specs::Definitions::Run::accept, rules::specs::Definitions::Run::refuse, access::specs::Open::write_open))]
pub fn host_write_in_range(
    m: &mut [u8; 256],
    k: &mut Core,
    address: u16,
    value: u16,
) -> Result<(), Refusal>
    ensures total { answers.done result (answers.controller m.new k.new) ≡ behind.write_open (answers.controller m.old k.old) address value }
    ensures ruled { state_rule.in_range (answers.controller m.old k.old) ≡ true → answers.done result (answers.controller m.new k.new) ≡ run.host_write (answers.controller m.old k.old) address value }
{
    access::open(k, address)?;
    writable(address, value)?;
    write(m, k, address, (value % 256) as u8);
    Ok(()) // only here the map changes
}

// A host write: 6, 7, 1, 2, 3, 8.
#[tactic(auto, using(std::proofs::lemmas::Bool::Decides::nat_tests), unfolding(rules::specs::Definitions::Answers::done, rules::specs::Definitions::Answers::number, rules::specs::Definitions::Answers::refused_by, rules::specs::Definitions::Run::host_write, rules::specs::Definitions::Run::refuse, rules::specs::Definitions::Run::unless_refused, rules::specs::Definitions::Host::access_refusals))]
pub fn host_write_on(
    m: &mut [u8; 256],
    k: &mut Core,
    address: u16,
    value: u16,
) -> Result<(), Refusal>
    ensures { answers.done result (answers.controller m.new k.new) ≡ run.host_write (answers.controller m.old k.old) address value }
{
    if !ranges::in_range(m, k) {
        return Err(Refusal::Range);
    }
    host_write_in_range(m, k, address, value)
}
