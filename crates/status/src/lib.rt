// The registers that the controller itself writes, as bytes; a write to 0x0B, and the interrupt line (01, Memory map; 000, Control and Status Registers).
#![tactic(auto)]

ghost use Rattle.std.specs.Prelude.{◌≡◌, ◌+◌, ◌*◌, ◌≤◌};
ghost use Rattle.rules.specs.Definitions.Registers as rule;
ghost use Rattle.rules.specs.Definitions.Host as host_rule;

use diagnosis::Diagnosis;
use registers::Map;
use rules::{Controller, Flags, Retries};

// SPG, IDG and Sc of 0x04.
#[tactic(auto, using(std::proofs::lemmas::Bool::Decides::nat_tests), unfolding(rules::specs::Definitions::Registers::bit))]
fn high_bits(asleep: bool, idle: bool, sc: bool) -> u8
    ensures value { result ≡ rule.bit asleep * 64 + rule.bit idle * 32 + rule.bit sc * 16 }
    ensures range { result ≤ 112 }
{
    u8::from(asleep) * Map::SPG + u8::from(idle) * Map::IDG + u8::from(sc) * Map::SC
}

// The byte of 0x04.
#[tactic(auto, using(std::proofs::lemmas::Bool::Decides::nat_tests), unfolding(rules::specs::Definitions::Registers::line_status, rules::specs::Definitions::Registers::bit))]
pub fn line_status(asleep: bool, idle: bool, x: &Diagnosis, txg: bool, rxg: bool) -> u8
    ensures { result ≡ rule.line_status asleep idle x.now txg rxg }
{
    let c = x.condition;
    high_bits(asleep, idle, x.sc)
        + u8::from(diagnosing::fault_on_data_bar(c)) * Map::SB
        + u8::from(diagnosing::fault_on_data(c)) * Map::SA
        + u8::from(txg) * Map::TXG
        + u8::from(rxg) * Map::RXG
}

// The byte of 0x05 and of 0x06.
#[tactic(auto, using(std::proofs::lemmas::Bool::Decides::nat_tests), unfolding(rules::specs::Definitions::Registers::retries_byte))]
pub fn retries_byte(r: Retries) -> u8
    ensures { result ≡ rule.retries_byte r }
{
    r.count % 16 * 16 + r.channel % 16
}

// The byte of 0x09.
#[tactic(auto, using(std::proofs::lemmas::Bool::Decides::nat_tests), unfolding(rules::specs::Definitions::Registers::interrupt_status, rules::specs::Definitions::Registers::bit))]
pub fn interrupt_status(f: Flags) -> u8
    ensures { result ≡ rule.interrupt_status f }
{
    u8::from(f.rst) * Map::RST
        + u8::from(f.te) * Map::TE
        + u8::from(f.tok) * Map::TOK
        + u8::from(f.re) * Map::RE
        + u8::from(f.rok) * Map::ROK
        + u8::from(f.rnok) * Map::RNOK
}

// A status bit, unless it is reset.
#[tactic(auto, using(std::proofs::lemmas::Bool::Decides::nat_tests), unfolding(rules::specs::Definitions::Registers::unless))]
fn unless(flag: bool, reset: bool) -> bool
    ensures { result ≡ rule.unless flag reset }
{
    flag && !reset
}

// The status bits once a value is written to 0x0B.
#[tactic(auto, using(std::proofs::lemmas::Bool::Decides::nat_tests, rules::proofs::Bits::masked), unfolding(rules::specs::Definitions::Registers::cleared))]
pub fn clear(f: &mut Flags, value: u8)
    ensures { f.new ≡ rule.cleared f.old value }
{
    f.rst = unless(f.rst, value & Map::RST != 0);
    f.te = unless(f.te, value & Map::TE != 0);
    f.tok = unless(f.tok, value & Map::TOK != 0);
    f.re = unless(f.re, value & Map::RE != 0);
    f.rok = unless(f.rok, value & Map::ROK != 0);
    f.rnok = unless(f.rnok, value & Map::RNOK != 0);
}

// Whether status and enable share a one.
#[tactic(auto, using(std::proofs::lemmas::Bool::Decides::nat_tests), unfolding(rules::specs::Definitions::Registers::asserted))]
pub fn asserted(f: Flags, enable: u8) -> bool
    ensures { result ≡ rule.asserted f enable }
{
    interrupt_status(f) & enable != 0
}

// The interrupt line.
#[tactic(auto, using(std::proofs::lemmas::Bool::Decides::nat_tests), unfolding(rules::specs::Definitions::Host::interrupt_line))]
pub fn interrupt(c: &Controller) -> bool
    ensures { result ≡ host_rule.interrupt_line c.now }
{
    asserted(c.core.report.flags, c.memory[Map::INTERRUPT_ENABLE])
}
