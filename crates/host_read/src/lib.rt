// Host read over a lent memory map: what each register shows, and the refusals (01, Memory map; Numbers refused).
#![tactic(auto)]

ghost use Rattle.std.specs.Prelude.{◌≡◌, true};
ghost use Rattle.rules.specs.Definitions.Host as rule;
ghost use Rattle.rules.specs.Definitions.State as state_rule;
ghost use Rattle.rules.specs.Definitions.Run as run;
ghost use Rattle.rules.specs.Definitions.Answers as answers;
ghost use Rattle.access.specs.Open as behind;

use registers::Map;
use rules::{Core, Refusal};

// ---- an accepted read

#[tactic(auto, using(std::proofs::lemmas::Bool::Decides::nat_tests), unfolding(rules::specs::Definitions::Host::line_status_of))]
fn line_status_of(k: &Core) -> u8
    ensures { result ≡ rule.line_status_of k.now }
{
    status::line_status(
        modes::is_asleep(k.activity),
        modes::is_idle(k.activity),
        &k.diagnosis,
        state::serving(&k.service),
        place::under_way(k.reception.place),
    )
}

// The byte of a register that the controller writes.
#[tactic(auto, using(std::proofs::lemmas::Bool::Decides::nat_tests), unfolding(rules::specs::Definitions::Host::status_read))]
fn status_read(k: &Core, address: usize) -> u8
    ensures { result ≡ rule.status_read k.now address }
{
    match address {
        Map::LINE_STATUS => line_status_of(k),
        Map::TRANSMISSION_STATUS => status::retries_byte(k.report.sending),
        Map::LAST_MESSAGE_STATUS => status::retries_byte(k.report.message),
        Map::LAST_ERROR_STATUS => k.report.error,
        _ => status::interrupt_status(k.report.flags),
    }
}

#[tactic(auto, using(std::proofs::lemmas::Bool::Decides::nat_tests), unfolding(rules::specs::Definitions::Host::byte_read))]
fn byte_read(m: &[u8; 256], k: &Core, address: usize) -> u8
    ensures { result ≡ rule.byte_read (answers.controller m.now k.now) address }
{
    if Map::read_only(address) {
        return status_read(k, address);
    }
    m[address % 256]
}

// ---- the call

// 4.
#[tactic(auto, using(std::proofs::lemmas::Bool::Decides::nat_tests), unfolding(rules::specs::Definitions::Host::read_refusals, rules::specs::Definitions::Run::first_due))]
fn readable(address: u16) -> Result<(), Refusal>
    ensures { result ≡ run.first_due (rule.read_refusals address) }
{
    let a = address as usize;
    if Map::write_only(a) {
        return Err(Refusal::Unreadable);
    }
    if Map::reserved(a) {
        return Err(Refusal::Unreadable); // 4, as write only
    }
    Ok(())
}

// A host read behind number 6: 7, 1, 4. Of a state in its ranges it is the host read.
#[tactic(auto, using(std::proofs::lemmas::Bool::Decides::nat_tests, access::proofs::Opened::opened, access::proofs::Opened::refused_open, rules::proofs::Refusals::accepted, rules::proofs::Refusals::refused_first, rules::proofs::Refusals::refused_second), unfolding(rules::specs::Definitions::Answers::lent, rules::specs::Definitions::Answers::refused_by, rules::specs::Definitions::Answers::value_of, rules::specs::Definitions::Run::host_read, rules::specs::Definitions::Run::accept, rules::specs::Definitions::Run::refuse, access::specs::Open::read_open))]
pub fn host_read_in_range(m: &[u8; 256], k: &Core, address: u16) -> Result<u8, Refusal>
    ensures total { answers.lent result (answers.controller m.now k.now) ≡ behind.read_open (answers.controller m.now k.now) address }
    ensures ruled { state_rule.in_range (answers.controller m.now k.now) ≡ true → answers.lent result (answers.controller m.now k.now) ≡ run.host_read (answers.controller m.now k.now) address }
{
    access::open(k, address)?;
    readable(address)?;
    Ok(byte_read(m, k, address as usize))
}

// A host read: 6, 7, 1, 4.
#[tactic(auto, using(std::proofs::lemmas::Bool::Decides::nat_tests), unfolding(rules::specs::Definitions::Answers::lent, rules::specs::Definitions::Answers::number, rules::specs::Definitions::Answers::refused_by, rules::specs::Definitions::Answers::value_of, rules::specs::Definitions::Run::host_read, rules::specs::Definitions::Run::refuse, rules::specs::Definitions::Run::unless_refused, rules::specs::Definitions::Host::access_refusals))]
pub fn host_read_on(m: &[u8; 256], k: &Core, address: u16) -> Result<u8, Refusal>
    ensures { answers.lent result (answers.controller m.now k.now) ≡ run.host_read (answers.controller m.now k.now) address }
{
    if !ranges::in_range(m, k) {
        return Err(Refusal::Range);
    }
    host_read_in_range(m, k, address)
}
