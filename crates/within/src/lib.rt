// The controller's calls over a lent memory map and a lent row, for C: the ordinary slot and a write that only keeps its byte in place, every other event by the state that the row says.
// Each answers what the step rule says; a refused call writes nothing.
#![tactic(auto)]

ghost use Rattle.std.specs.Prelude.{◌≡◌, true, false, ltb};
ghost use Rattle.rules.specs.Definitions.Host as host_rule;
ghost use Rattle.rules.specs.Definitions.State as state_rule;
ghost use Rattle.rules.specs.Definitions.Run as run;
ghost use Rattle.rules.specs.Definitions.Answers as answers;
ghost use Rattle.rules.specs.declared.Event.TheVariants as event;
ghost use Rattle.row.specs.Row as row_rule;
ghost use Rattle.within.specs.Lent as rule;

use ordinary::Taken;
use registers::Map;
use row::At;
use rules::{Core, Event, Refusal};

// A fresh controller, whatever was lent.
#[tactic(auto, unfolding(rules::specs::Definitions::Run::fresh, rules::specs::Definitions::Host::reset_all))]
pub fn fresh(m: &mut [u8; 256], s: &mut [u8; row::ROW])
    ensures { answers.controller m.new (row_rule.core_of s.new) ≡ run.fresh }
{
    *m = [0; 256];
    Map::reset_memory(m);
    row::put_core(s, &controller::fresh().core);
}

// An event, by its call: the byte read, the level of TXD or 0; or why not.
#[tactic(auto, unfolding(rules::specs::Definitions::Run::step, rules::specs::Definitions::Answers::done, rules::specs::Definitions::Answers::lent, rules::specs::Definitions::Answers::refused_by, rules::specs::Definitions::Answers::value_of))]
fn take(m: &mut [u8; 256], k: &mut Core, e: Event) -> Result<u8, Refusal>
    ensures { answers.lent result (answers.controller m.new k.new) ≡ run.step (answers.controller m.old k.old) e }
{
    match e {
        Event::Reset => host::pin_reset_on(m, k)?,
        Event::Write(address, value) => host::host_write_on(m, k, address, value)?,
        Event::Read(address) => return host_read::host_read_on(m, k, address),
        Event::Slot(levels) => return slots::slot_on(m, k, levels),
    }
    Ok(0)
}

// By the state that the row says: a refused event leaves map and row as they were.
#[tactic(auto, using(crate::proofs::Refusals::kept_map, crate::proofs::Refusals::kept_core, crate::proofs::Refusals::unchanged, crate::proofs::Refusals::not_refused))]
fn other(m: &mut [u8; 256], s: &mut [u8; row::ROW], e: Event) -> Result<u8, Refusal>
    ensures answer { answers.lent result (answers.controller m.new (row_rule.core_of s.new)) ≡ run.step (answers.controller m.old (row_rule.core_of s.old)) e }
    ensures kept { rule.Unchanged (answers.refused_by result) m.old s.old m.new s.new }
{
    let mut k = row::core_of(s);
    let value = take(m, &mut k, e)?;
    row::put_core(s, &k);
    Ok(value)
}

// ---- pin reset, slot

// Pin reset: 6.
pub fn pin_reset(m: &mut [u8; 256], s: &mut [u8; row::ROW]) -> Result<u8, Refusal>
    ensures answer { answers.lent result (answers.controller m.new (row_rule.core_of s.new)) ≡ run.step (answers.controller m.old (row_rule.core_of s.old)) event.Reset }
    ensures kept { rule.Unchanged (answers.refused_by result) m.old s.old m.new s.new }
{
    other(m, s, Event::Reset)
}

#[tactic(auto, using(std::proofs::lemmas::Bool::Decides::nat_tests, crate::proofs::Refusals::open_step, crate::proofs::Refusals::not_refused), unfolding(ordinary::specs::Ways::Took, rules::specs::Definitions::Answers::lent, rules::specs::Definitions::Answers::refused_by, rules::specs::Definitions::Answers::value_of, rules::specs::Definitions::Run::accept))]
fn open_slot(m: &mut [u8; 256], s: &mut [u8; row::ROW], levels: u16) -> Result<u8, Refusal>
    requires range { state_rule.in_range (answers.controller m.old (row_rule.core_of s.old)) ≡ true }
    requires levels { ltb 7 levels ≡ false }
    ensures answer { answers.lent result (answers.controller m.new (row_rule.core_of s.new)) ≡ run.step (answers.controller m.old (row_rule.core_of s.old)) (event.Slot levels) }
    ensures kept { rule.Unchanged (answers.refused_by result) m.old s.old m.new s.new }
{
    match ordinary::slot(m, s, levels) {
        Taken::Drives(level) => Ok(level),
        Taken::Other => other(m, s, Event::Slot(levels)),
    }
}

// A slot: 6, 5. The ordinary slot is made in place over the row.
#[tactic(auto, using(std::proofs::lemmas::Bool::Decides::nat_tests, crate::proofs::Refusals::levels_refused, crate::proofs::Refusals::range_refused, crate::proofs::Refusals::unchanged))]
pub fn slot(m: &mut [u8; 256], s: &mut [u8; row::ROW], levels: u16) -> Result<u8, Refusal>
    ensures answer { answers.lent result (answers.controller m.new (row_rule.core_of s.new)) ≡ run.step (answers.controller m.old (row_rule.core_of s.old)) (event.Slot levels) }
    ensures kept { rule.Unchanged (answers.refused_by result) m.old s.old m.new s.new }
{
    if !row::in_range(m, s) {
        return Err(Refusal::Range);
    }
    if 7 < levels {
        return Err(Refusal::Levels);
    }
    open_slot(m, s, levels)
}

// ---- a host write

// Whether an access to a channel or the mailbox is accepted: the state in its ranges, not asleep.
#[tactic(auto, using(std::proofs::lemmas::Bool::Decides::nat_tests, ordinary::proofs::OwnFrame::and_true, crate::proofs::Access::wakes), unfolding(row::specs::Row::core_of, row::specs::Row::core_by))]
fn plain(m: &[u8; 256], s: &[u8; row::ROW], address: u16) -> bool
    ensures { result ≡ true → rule.Plain m.now s.now address }
{
    (16 <= address) & ((address < 256) & ((s[At::MODE] < 2) & (row::in_range(m, s))))
}

// Whether such a write only keeps its byte: no service, and no idle that waits.
#[tactic(auto, using(std::proofs::lemmas::Bool::Decides::nat_tests, rules::proofs::Logic::not_true, ordinary::proofs::OwnFrame::and_true, crate::proofs::Access::resting), unfolding(rules::specs::Definitions::Attempt::in_service, rules::specs::Definitions::Attempt::between_attempts, row::specs::Row::core_of, row::specs::Row::core_by))]
fn kept_alone(m: &[u8; 256], s: &[u8; row::ROW], address: u16, value: u16) -> bool
    ensures { result ≡ true → rule.KeptAlone m.now s.now address value }
{
    (value < 256) & ((s[At::WAITING] != 1) & ((s[At::STAGE] == 0) & (plain(m, s, address))))
}

// A host write: 6, 7, 1, 2, 3, 8. One that only keeps its byte is made in place.
#[tactic(auto, using(std::proofs::lemmas::Bool::Decides::nat_tests, crate::proofs::Access::written_alone, crate::proofs::Refusals::not_refused), unfolding(rules::specs::Definitions::Answers::lent, rules::specs::Definitions::Answers::refused_by, rules::specs::Definitions::Answers::value_of, rules::specs::Definitions::Run::accept))]
pub fn host_write(
    m: &mut [u8; 256],
    s: &mut [u8; row::ROW],
    address: u16,
    value: u16,
) -> Result<u8, Refusal>
    ensures answer { answers.lent result (answers.controller m.new (row_rule.core_of s.new)) ≡ run.step (answers.controller m.old (row_rule.core_of s.old)) (event.Write address value) }
    ensures kept { rule.Unchanged (answers.refused_by result) m.old s.old m.new s.new }
{
    if kept_alone(m, s, address, value) {
        m[(address % 256) as usize] = (value % 256) as u8;
        return Ok(0);
    }
    other(m, s, Event::Write(address, value))
}

// ---- any event, host read, interrupt

// An event over the row: a refused one leaves map and row as they were.
#[tactic(auto, using(crate::proofs::Refusals::unwritten))]
pub fn call(m: &mut [u8; 256], s: &mut [u8; row::ROW], e: Event) -> Result<u8, Refusal>
    ensures answer { answers.lent result (answers.controller m.new (row_rule.core_of s.new)) ≡ run.step (answers.controller m.old (row_rule.core_of s.old)) e }
    ensures kept { rule.Unchanged (answers.refused_by result) m.old s.old m.new s.new }
{
    match e {
        Event::Write(address, value) => host_write(m, s, address, value),
        Event::Slot(levels) => slot(m, s, levels),
        Event::Reset => pin_reset(m, s),
        Event::Read(address) => host_read(m, s, address),
    }
}

// A host read: map and row lent for reading alone.
#[tactic(auto, unfolding(rules::specs::Definitions::Run::step))]
pub fn host_read(m: &[u8; 256], s: &[u8; row::ROW], address: u16) -> Result<u8, Refusal>
    ensures { answers.lent result (answers.controller m.now (row_rule.core_of s.now)) ≡ run.step (answers.controller m.now (row_rule.core_of s.now)) (event.Read address) }
{
    host_read::host_read_on(m, &row::core_of(s), address)
}

// The interrupt line.
#[tactic(auto, unfolding(rules::specs::Definitions::Host::interrupt_line, row::specs::Row::core_of, row::specs::Row::core_by))]
pub fn interrupt(m: &[u8; 256], s: &[u8; row::ROW]) -> bool
    ensures { result ≡ host_rule.interrupt_line (answers.controller m.now (row_rule.core_of s.now)) }
{
    status::asserted(row::flags_of(s), m[Map::INTERRUPT_ENABLE])
}
