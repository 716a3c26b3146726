// The control registers (01, Memory map; 000, Control and Status Registers).
// 0x00, 0x01, 0x02 and 0x0A stand in the memory map. 0x05 to 0x07 and 0x09 are kept as numbers and bools, 0x04 is not kept; crate status makes their bytes.
#![tactic(auto)]

ghost use Rattle.std.specs.Prelude.{◌≡◌, ◌<◌};
ghost use Rattle.rules.specs.Definitions.Registers as rule;
ghost use Rattle.rules.specs.Definitions.Mailbox as memory;
ghost use Rattle.diagnosis.specs.Control as diagnosis;
ghost use Rattle.diagnosis.specs.Rules as wires;
ghost use Rattle.registers.specs.Command as map;

use rules::{Flags, Report, Retries};

// What a write of the command register asks for.
#[derive(Clone, Copy)]
pub struct Command {
    pub reset: bool,
    pub sleep: bool,
    pub idle: bool,
    pub activation: bool,
    pub rearbitration: bool,
    pub pulse: bool,
}

// The register map: address, reset value and reserved bits of each control register, and the masks of its bits (000, Control and Status Registers).
#[derive(Clone, Copy)]
pub struct Map {}

impl Map {
    // Line control: read and write.
    pub const LINE_CONTROL: usize = 0x00;

    pub const LINE_CONTROL_RESET: u8 = 0x00;

    pub const LINE_CONTROL_RESERVED: u8 = 0b0000_0100;

    pub const IVTX: u8 = 0b0000_0010;

    pub const IVRX: u8 = 0b0000_0001;

    // Transmit control: read and write. Its reserved bits are the version's, which must be 001.
    pub const TRANSMIT_CONTROL: usize = 0x01;

    pub const TRANSMIT_CONTROL_RESET: u8 = 0x02;

    pub const TRANSMIT_CONTROL_RESERVED: u8 = 0b0000_1110;

    pub const VERSION: u8 = 0b0000_0010;

    pub const MT: u8 = 0b0000_0001;

    // Diagnosis control: read and write.
    pub const DIAGNOSIS_CONTROL: usize = 0x02;

    pub const DIAGNOSIS_CONTROL_RESET: u8 = 0x00;

    pub const DIAGNOSIS_CONTROL_RESERVED: u8 = 0;

    pub const SDC0: u8 = 0b0001_0000;

    pub const ETIP: u8 = 0b0000_0010;

    pub const ESDC: u8 = 0b0000_0001;

    // Command: write only, no reset value. Its reserved bits must be zero.
    pub const COMMAND: usize = 0x03;

    pub const COMMAND_RESERVED: u8 = 0b0000_0110;

    pub const GRES: u8 = 0b1000_0000;

    pub const SLEEP: u8 = 0b0100_0000;

    pub const IDLE: u8 = 0b0010_0000;

    pub const ACTI: u8 = 0b0001_0000;

    pub const REAR: u8 = 0b0000_1000;

    pub const MSDC: u8 = 0b0000_0001;

    // Line status: read only.
    pub const LINE_STATUS: usize = 0x04;

    pub const LINE_STATUS_RESET: u8 = 0x20;

    pub const LINE_STATUS_RESERVED: u8 = 0b1000_0000;

    pub const SPG: u8 = 0b0100_0000;

    pub const IDG: u8 = 0b0010_0000;

    pub const SC: u8 = 0b0001_0000;

    pub const SB: u8 = 0b0000_1000;

    pub const SA: u8 = 0b0000_0100;

    pub const TXG: u8 = 0b0000_0010;

    pub const RXG: u8 = 0b0000_0001;

    // Transmission status: read only.
    pub const TRANSMISSION_STATUS: usize = 0x05;

    pub const TRANSMISSION_STATUS_RESET: u8 = 0x00;

    pub const TRANSMISSION_STATUS_RESERVED: u8 = 0;

    // Last message status: read only.
    pub const LAST_MESSAGE_STATUS: usize = 0x06;

    pub const LAST_MESSAGE_STATUS_RESET: u8 = 0x00;

    pub const LAST_MESSAGE_STATUS_RESERVED: u8 = 0;

    // Last error status: read only.
    pub const LAST_ERROR_STATUS: usize = 0x07;

    pub const LAST_ERROR_STATUS_RESET: u8 = 0x00;

    pub const LAST_ERROR_STATUS_RESERVED: u8 = 0b1001_0000;

    // Interrupt status: read only. Enable and reset have the same places.
    pub const INTERRUPT_STATUS: usize = 0x09;

    pub const INTERRUPT_STATUS_RESET: u8 = 0x80;

    pub const INTERRUPT_STATUS_RESERVED: u8 = 0b0110_0000;

    pub const RST: u8 = 0b1000_0000;

    pub const TE: u8 = 0b0001_0000;

    pub const TOK: u8 = 0b0000_1000;

    pub const RE: u8 = 0b0000_0100;

    pub const ROK: u8 = 0b0000_0010;

    pub const RNOK: u8 = 0b0000_0001;

    // Interrupt enable: read and write.
    pub const INTERRUPT_ENABLE: usize = 0x0A;

    pub const INTERRUPT_ENABLE_RESET: u8 = 0x80;

    pub const INTERRUPT_ENABLE_RESERVED: u8 = 0b0110_0000;

    // Interrupt reset: write only, no reset value.
    pub const INTERRUPT_RESET: usize = 0x0B;

    pub const INTERRUPT_RESET_RESERVED: u8 = 0b0110_0000;

    // Reserved: 0x08, 0x0C to 0x0F.
    pub const RESERVED: usize = 0x08;

    pub const RESERVED_FROM: usize = 0x0C;

    pub const RESERVED_TO: usize = 0x0F;

    // The reset value of a register; 0 where it has none.
    #[tactic(auto, using(std::proofs::lemmas::Bool::Decides::nat_tests, line::proofs::Tables::at), unfolding(rules::specs::Definitions::Registers::reset_value, rules::specs::Definitions::Registers::row_at, rules::specs::Definitions::Registers::reset_values, line::proofs::Tables::values))]
    fn reset_value(address: usize) -> u8
        requires { address < 16 }
        ensures { result ≡ rule.reset_value address }
    {
        RESETS[address]
    }

    // The bits of a register that document 000 reserves or marks X, and the version.
    #[tactic(auto, using(std::proofs::lemmas::Bool::Decides::nat_tests, line::proofs::Tables::at), unfolding(rules::specs::Definitions::Registers::reserved_bits, rules::specs::Definitions::Registers::row_at, rules::specs::Definitions::Registers::reserved_rows, line::proofs::Tables::values))]
    fn reserved_bits(address: usize) -> u8
        requires { address < 16 }
        ensures { result ≡ rule.reserved_bits address }
    {
        RESERVED_BITS[address]
    }

    // Whether a host may only read the address.
    #[tactic(auto, using(std::proofs::lemmas::Bool::Decides::nat_tests), unfolding(rules::specs::Definitions::Registers::read_only))]
    pub fn read_only(address: usize) -> bool
        ensures { result ≡ rule.read_only address }
    {
        (Map::LINE_STATUS <= address && address <= Map::LAST_ERROR_STATUS)
            || address == Map::INTERRUPT_STATUS
    }

    // Whether a host may only write the address.
    #[tactic(auto, using(std::proofs::lemmas::Bool::Decides::nat_tests), unfolding(rules::specs::Definitions::Registers::write_only))]
    pub fn write_only(address: usize) -> bool
        ensures { result ≡ rule.write_only address }
    {
        address == Map::COMMAND || address == Map::INTERRUPT_RESET
    }

    // Whether a host may neither read nor write the address.
    #[tactic(auto, using(std::proofs::lemmas::Bool::Decides::nat_tests), unfolding(rules::specs::Definitions::Registers::reserved))]
    pub fn reserved(address: usize) -> bool
        ensures { result ≡ rule.reserved address }
    {
        address == Map::RESERVED || (Map::RESERVED_FROM <= address && address <= Map::RESERVED_TO)
    }

    // Whether the reserved bits of 0x01 (version 001) and of 0x03 (zeros) are as they must be. The others are kept as written (house).
    #[tactic(auto, using(std::proofs::lemmas::Bool::Decides::nat_tests), unfolding(rules::specs::Definitions::Registers::fixed_bits))]
    pub fn fixed_bits(address: usize, value: u8) -> bool
        ensures { result ≡ rule.fixed_bits address value }
    {
        if address == Map::TRANSMIT_CONTROL {
            return value & Map::reserved_bits(Map::TRANSMIT_CONTROL) == Map::VERSION;
        }
        if address == Map::COMMAND {
            return value & Map::reserved_bits(Map::COMMAND) == 0;
        }
        true
    }

    // 0x00: IVRX.
    #[tactic(auto, using(std::proofs::lemmas::Bool::Decides::nat_tests, rules::proofs::Bits::masked), unfolding(rules::specs::Definitions::Registers::inverts_receive))]
    fn inverts_receive(control: u8) -> bool
        ensures { result ≡ rule.inverts_receive control }
    {
        control & Map::IVRX != 0
    }

    // 0x00: IVTX.
    #[tactic(auto, using(std::proofs::lemmas::Bool::Decides::nat_tests, rules::proofs::Bits::masked), unfolding(rules::specs::Definitions::Registers::inverts_transmit))]
    fn inverts_transmit(control: u8) -> bool
        ensures { result ≡ rule.inverts_transmit control }
    {
        control & Map::IVTX != 0
    }

    // 0x01: the retry setting MR.
    #[tactic(auto, using(std::proofs::lemmas::Bool::Decides::nat_tests), unfolding(rules::specs::Definitions::Registers::retry_setting))]
    pub fn retry_setting(control: u8) -> u8
        ensures { result ≡ rule.retry_setting control }
    {
        control / 16
    }

    // 0x01: the module type MT; an autonomous module may send a start sequence.
    #[tactic(auto, using(std::proofs::lemmas::Bool::Decides::nat_tests, rules::proofs::Bits::masked), unfolding(rules::specs::Definitions::Registers::autonomous))]
    pub fn autonomous(control: u8) -> bool
        ensures { result ≡ rule.autonomous control }
    {
        control & Map::MT != 0
    }

    // 0x02: SDC[3:0].
    #[tactic(auto, using(std::proofs::lemmas::Bool::Decides::nat_tests), unfolding(diagnosis::specs::Control::rate))]
    pub fn rate(control: u8) -> u8
        ensures { result ≡ diagnosis.rate control }
    {
        control / Map::SDC0
    }

    // 0x02: the slots of an SDC period.
    #[tactic(auto, using(std::proofs::lemmas::Bool::Decides::nat_tests, crate::proofs::Dividers::shifted), unfolding(diagnosis::specs::Control::divider, diagnosis::specs::Control::rate))]
    pub fn divider(control: u8) -> u32
        ensures { result ≡ diagnosis.divider control }
    {
        64u32 << Map::rate(control)
    }

    // 0x02: Ma and Mb, bits 3 and 2.
    #[tactic(auto, using(std::proofs::lemmas::Bool::Decides::nat_tests), unfolding(diagnosis::specs::Control::selection))]
    pub fn selection(control: u8) -> u8
        ensures { result ≡ diagnosis.selection control }
    {
        control / 4 % 4
    }

    // 0x02: Ma and Mb 11.
    #[tactic(auto, using(std::proofs::lemmas::Bool::Decides::nat_tests), unfolding(diagnosis::specs::Control::automatic))]
    pub fn automatic(control: u8) -> bool
        ensures { result ≡ diagnosis.automatic control }
    {
        Map::selection(control) == 3
    }

    // 0x02: ETIP.
    #[tactic(auto, using(std::proofs::lemmas::Bool::Decides::nat_tests, rules::proofs::Bits::masked), unfolding(diagnosis::specs::Control::compares_transmission))]
    pub fn compares_transmission(control: u8) -> bool
        ensures { result ≡ diagnosis.compares_transmission control }
    {
        control & Map::ETIP != 0
    }

    // 0x02: ESDC.
    #[tactic(auto, using(std::proofs::lemmas::Bool::Decides::nat_tests, rules::proofs::Bits::masked), unfolding(diagnosis::specs::Control::divider_runs))]
    pub fn divider_runs(control: u8) -> bool
        ensures { result ≡ diagnosis.divider_runs control }
    {
        control & Map::ESDC != 0
    }

    // 0x03: GRES, SLEEP, IDLE, ACTI, REAR, MSDC.
    #[tactic(auto, using(std::proofs::lemmas::Bool::Decides::nat_tests, rules::proofs::Bits::masked), unfolding(crate::specs::Command::asked, rules::specs::Definitions::Registers::asks_reset, rules::specs::Definitions::Registers::asks_sleep, rules::specs::Definitions::Registers::asks_idle, rules::specs::Definitions::Registers::asks_activation, rules::specs::Definitions::Registers::asks_rearbitration, rules::specs::Definitions::Registers::asks_pulse))]
    pub fn asked(command: u8) -> Command
        ensures { result ≡ map.asked command }
    {
        Command {
            reset: command & Map::GRES != 0,
            sleep: command & Map::SLEEP != 0,
            idle: command & Map::IDLE != 0,
            activation: command & Map::ACTI != 0,
            rearbitration: command & Map::REAR != 0,
            pulse: command & Map::MSDC != 0,
        }
    }

    // Reset of the registers in the memory map; channels and mailbox stay.
    #[tactic(auto, using(std::proofs::lemmas::Bool::Decides::nat_tests), unfolding(rules::specs::Definitions::Mailbox::reset_memory, rules::specs::Definitions::Mailbox::rows_written, rules::specs::Definitions::Registers::reset_values, rules::specs::Definitions::Registers::read_only, rules::specs::Definitions::Registers::reset_value, rules::specs::Definitions::Registers::row_at))]
    pub fn reset_memory(m: &mut [u8; 256])
        ensures { m.new ≡ memory.reset_memory m.old }
    {
        m[Map::LINE_CONTROL] = Map::reset_value(Map::LINE_CONTROL);
        m[Map::TRANSMIT_CONTROL] = Map::reset_value(Map::TRANSMIT_CONTROL);
        m[Map::DIAGNOSIS_CONTROL] = Map::reset_value(Map::DIAGNOSIS_CONTROL);
        m[Map::INTERRUPT_ENABLE] = Map::reset_value(Map::INTERRUPT_ENABLE);
    }

    // Reset of the registers that the controller writes.
    #[tactic(auto, using(std::proofs::lemmas::Bool::Decides::nat_tests), unfolding(rules::specs::Definitions::Registers::reset_report))]
    pub fn reset_report() -> Report
        ensures { result ≡ rule.reset_report }
    {
        Report {
            sending: Retries {
                count: Map::TRANSMISSION_STATUS_RESET / 16,
                channel: Map::TRANSMISSION_STATUS_RESET % 16,
            },
            message: Retries {
                count: Map::LAST_MESSAGE_STATUS_RESET / 16,
                channel: Map::LAST_MESSAGE_STATUS_RESET % 16,
            },
            error: Map::LAST_ERROR_STATUS_RESET,
            flags: Flags {
                rst: Map::INTERRUPT_STATUS_RESET & Map::RST != 0,
                te: Map::INTERRUPT_STATUS_RESET & Map::TE != 0,
                tok: Map::INTERRUPT_STATUS_RESET & Map::TOK != 0,
                re: Map::INTERRUPT_STATUS_RESET & Map::RE != 0,
                rok: Map::INTERRUPT_STATUS_RESET & Map::ROK != 0,
                rnok: Map::INTERRUPT_STATUS_RESET & Map::RNOK != 0,
            },
        }
    }
}

// By address, 0x00 to 0x0F.
static RESETS: [u8; 16] = [
    Map::LINE_CONTROL_RESET,
    Map::TRANSMIT_CONTROL_RESET,
    Map::DIAGNOSIS_CONTROL_RESET,
    0,
    Map::LINE_STATUS_RESET,
    Map::TRANSMISSION_STATUS_RESET,
    Map::LAST_MESSAGE_STATUS_RESET,
    Map::LAST_ERROR_STATUS_RESET,
    0,
    Map::INTERRUPT_STATUS_RESET,
    Map::INTERRUPT_ENABLE_RESET,
    0,
    0,
    0,
    0,
    0,
];

static RESERVED_BITS: [u8; 16] = [
    Map::LINE_CONTROL_RESERVED,
    Map::TRANSMIT_CONTROL_RESERVED,
    Map::DIAGNOSIS_CONTROL_RESERVED,
    Map::COMMAND_RESERVED,
    Map::LINE_STATUS_RESERVED,
    Map::TRANSMISSION_STATUS_RESERVED,
    Map::LAST_MESSAGE_STATUS_RESERVED,
    Map::LAST_ERROR_STATUS_RESERVED,
    0,
    Map::INTERRUPT_STATUS_RESERVED,
    Map::INTERRUPT_ENABLE_RESERVED,
    Map::INTERRUPT_RESET_RESERVED,
    0,
    0,
    0,
    0,
];

// The codes of the last error, 0x07. They are numbers: 0x07 is a byte of the lent state, and the rules speak of its value.
#[derive(Clone, Copy)]
pub struct Code {}

impl Code {
    pub const FV: u8 = 1;

    pub const CV: u8 = 2;

    pub const ACKE: u8 = 4;

    pub const FCSE: u8 = 8;

    pub const BOV: u8 = 32;
}

// ---- levels

// The level of an input among RxD0 + 2 RxD1 + 4 RxD2.
#[tactic(auto, using(std::proofs::lemmas::Bool::Decides::nat_tests), unfolding(diagnosis::specs::Rules::input_level))]
pub fn input_level(levels: u8, input: u8) -> u8
    ensures { result ≡ wires.input_level levels input }
{
    if input == 1 {
        return levels / 2 % 2;
    }
    if input == 2 {
        return levels / 4 % 2;
    }
    levels % 2
}

// A level, inverted or not.
#[tactic(auto, using(std::proofs::lemmas::Bool::Decides::nat_tests), unfolding(rules::specs::Definitions::Registers::inverted))]
fn inverted(level: u8, inverts: bool) -> u8
    ensures { result ≡ rule.inverted level inverts }
{
    if inverts {
        return 1 - level % 2;
    }
    level
}

// The levels of the three inputs of a slot after the receive inversion.
#[tactic(auto, using(std::proofs::lemmas::Bool::Decides::nat_tests), unfolding(rules::specs::Definitions::Registers::received))]
pub fn received(control: u8, levels: u16) -> u8
    ensures { result ≡ rule.received control levels }
{
    if Map::inverts_receive(control) {
        return (7 - levels % 8) as u8;
    }
    (levels % 8) as u8
}

// TXD: the level after the transmit inversion.
#[tactic(auto, using(std::proofs::lemmas::Bool::Decides::nat_tests), unfolding(rules::specs::Definitions::Registers::transmitted))]
pub fn transmitted(control: u8, level: u8) -> u8
    ensures { result ≡ rule.transmitted control level }
{
    inverted(level, Map::inverts_transmit(control))
}
