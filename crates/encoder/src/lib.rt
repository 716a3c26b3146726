// From a frame to its slots, by the table of five-slot patterns. Each part is laid into slots of exactly its length.
#![tactic(auto)]

ghost use Rattle.std.specs.Prelude.{◌≡◌, ◌++◌, ◌+◌, ◌*◌, ◌≤◌, ◌<◌, length};
ghost use Rattle.std.specs.List.{flat_map};
ghost use Rattle.line.specs.Bits as bits;
ghost use Rattle.line.specs.LineCode as code;
ghost use Rattle.line.specs.Check as check;
ghost use Rattle.line.specs.Frame as frame;
ghost use Rattle.codec.specs.Encode as rule;

use codec::Refusal;

// The most data bytes of a frame.
const LONGEST: usize = line::LONGEST as usize;

// Nibbles, five slots each.
#[tactic(auto, using(std::proofs::lemmas::Bool::Decides::nat_tests, line::proofs::Laws::pattern_length, line::proofs::Laws::pattern_mod, crate::proofs::Puts::nibbles_next))]
fn put_nibbles(slots: &mut [u8], nibbles: &[u8])
    requires { length slots.old ≡ 5 * length nibbles.now }
    ensures { slots.new ≡ flat_map code.pattern nibbles.now }
{
    for (k, nibble) in nibbles.iter().enumerate() {
        slots[5 * k..5 * k + 5].copy_from_slice(&line::pattern(*nibble));
    }
}

// Identifier and command.
#[tactic(auto, using(std::proofs::lemmas::Bool::Decides::nat_tests, crate::proofs::Puts::header_code))]
fn put_header(slots: &mut [u8], identifier: u16, command: u8)
    requires { (length slots.old ≡ 20) × (identifier < 4096) × (command < 16) }
    ensures { slots.new ≡ code.line_code (bits.bits 12 identifier ++ bits.bits 4 command) }
{
    let nibbles = [
        (identifier / 256) as u8,
        (identifier / 16 % 16) as u8,
        (identifier % 16) as u8,
        command,
    ];
    put_nibbles(slots, &nibbles);
}

// Data bytes, two nibbles each.
#[tactic(auto, using(std::proofs::lemmas::Bool::Decides::nat_tests, crate::proofs::Puts::bytes_next, crate::proofs::Puts::bytes_end))]
fn put_bytes(slots: &mut [u8], bytes: &[u8])
    requires { length slots.old ≡ 10 * length bytes.now }
    ensures { slots.new ≡ code.line_code (frame.byte_bits bytes.now) }
{
    for (k, byte) in bytes.iter().enumerate() {
        put_nibbles(&mut slots[10 * k..10 * k + 10], &[*byte / 16, *byte % 16]);
    }
}

// The check's fifteen bits: three nibbles and three plain bits.
#[tactic(auto, using(std::proofs::lemmas::Bool::Decides::nat_tests, crate::proofs::Puts::check_code))]
fn put_check(slots: &mut [u8], check: u16)
    requires { (length slots.old ≡ 18) × (check < 32768) }
    ensures { slots.new ≡ code.line_code (bits.bits 15 check) }
{
    let (nibbles, plain) = slots.split_at_mut(15);
    put_nibbles(
        nibbles,
        &[
            (check / 2048) as u8,
            (check / 128 % 16) as u8,
            (check / 8 % 16) as u8,
        ],
    );
    plain.copy_from_slice(&[
        (check / 4 % 2) as u8,
        (check / 2 % 2) as u8,
        (check % 2) as u8,
    ]);
}

// End of data, acknowledge and end of frame.
#[tactic(auto, using(std::proofs::lemmas::Bool::Decides::nat_tests), unfolding(line::specs::Frame::end_of_data, line::specs::Frame::acknowledge_slots, line::specs::Frame::end_of_frame))]
fn put_closing(slots: &mut [u8], acknowledge: bool)
    requires { length slots.old ≡ 12 }
    ensures { slots.new ≡ frame.closing_slots acknowledge }
{
    slots.copy_from_slice(if acknowledge {
        &[0, 0, 1, 0, 1, 1, 1, 1, 1, 1, 1, 1]
    } else {
        &[0, 0, 1, 1, 1, 1, 1, 1, 1, 1, 1, 1]
    });
}

// The check over identifier, command and data.
#[tactic(auto, using(std::proofs::lemmas::Bool::Decides::nat_tests, crate::proofs::Puts::check_bits))]
fn check_of_frame(identifier: u16, command: u8, bytes: &[u8]) -> u16
    requires { (identifier < 4096) × (command < 16) }
    ensures { result ≡ check.check (bits.bits 12 identifier ++ (bits.bits 4 command ++ frame.byte_bits bytes.now)) }
{
    let low = (identifier % 16 * 16) as u8 + command;
    frame_check::check_behind((identifier / 16) as u8, low, bytes)
}

// All slots of a frame.
#[tactic(auto, using(std::proofs::lemmas::Bool::Decides::nat_tests, line::proofs::Laws::check_below, crate::proofs::Puts::whole_frame), unfolding(line::specs::Frame::covered))]
fn put_frame(slots: &mut [u8], identifier: u16, command: u8, bytes: &[u8], acknowledge: bool)
    requires { (identifier < 4096) × (command < 16) × (length bytes.now ≤ frame.longest_data) × (length slots.old ≡ 60 + 10 * length bytes.now) }
    ensures { slots.new ≡ frame.slots (rule.given identifier command bytes.now acknowledge) }
{
    let (start, rest) = slots.split_at_mut(10);
    let (header, rest) = rest.split_at_mut(20);
    let (data, rest) = rest.split_at_mut(10 * bytes.len());
    let (check, closing) = rest.split_at_mut(18);
    start.copy_from_slice(&line::start());
    put_header(header, identifier, command);
    put_bytes(data, bytes);
    put_check(check, check_of_frame(identifier, command, bytes));
    put_closing(closing, acknowledge);
}

// The frame's slots, into lent room, and how many; or why there are none.
#[tactic(auto, using(std::proofs::lemmas::Bool::Decides::nat_tests, line::proofs::Laws::slots_length), unfolding(codec::specs::Encode::encoded, codec::specs::Encode::encoded_room, codec::specs::Answer::laid, line::specs::Frame::size))]
pub fn encode(
    identifier: u32,
    command: u32,
    bytes: &[u8],
    acknowledge: bool,
    room: &mut [u8],
) -> Result<usize, Refusal>
    ensures answer { result ≡ rule.encoded frame.longest_data (length room.old) (rule.given identifier command bytes.now acknowledge) }
    ensures room { room.new ≡ rule.encoded_room room.old (rule.given identifier command bytes.now acknowledge) result }
{
    if 4095 < identifier {
        return Err(Refusal::Identifier);
    }
    if 15 < command {
        return Err(Refusal::Command);
    }
    if LONGEST < bytes.len() {
        return Err(Refusal::Bytes);
    }
    let size = 60 + 10 * bytes.len();
    if room.len() < size {
        return Err(Refusal::Room);
    }
    put_frame(
        &mut room[..size],
        identifier as u16,
        command as u8,
        bytes,
        acknowledge,
    );
    Ok(size)
}
