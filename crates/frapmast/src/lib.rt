// Codec, player and controller for C: library/frapmast.h declares these calls and says how they are made.
#![tactic(auto)]

ghost use Rattle.std.specs.Prelude.{◌≡◌};
ghost use Rattle.codec.specs.Encode.{given};
ghost use Rattle.bench_record.specs.Record as player_rule;
ghost use Rattle.rules.specs.Definitions.Host as host_rule;
ghost use Rattle.rules.specs.Definitions.Run as run;
ghost use Rattle.rules.specs.Definitions.Answers as answers;
ghost use Rattle.rules.specs.declared.Event.TheVariants as event;
ghost use Rattle.row.specs.Row as row_rule;
ghost use Rattle.within.specs.Lent as lent;
ghost use Rattle.frapmast.specs.Calls as rule;

// The frame's slots, into lent room, and how many; or the refusal's number.
#[unsafe(no_mangle)]
#[tactic(auto, unfolding(crate::specs::Calls::encode_number, crate::specs::Calls::slot_count))]
pub extern "C" fn frapmast_encode(
    identifier: u32,
    command: u32,
    bytes: &[u8],
    acknowledge: bool,
    room: &mut [u8],
    count: &mut usize,
) -> u8
    ensures answer { result ≡ rule.encode_number (rule.encoding room.old (given identifier command bytes.now acknowledge)) }
    ensures count { count.new ≡ rule.slot_count (rule.encoding room.old (given identifier command bytes.now acknowledge)) }
    ensures room { room.new ≡ rule.room_encoded room.old (given identifier command bytes.now acknowledge) }
{
    match encoder::encode(identifier, command, bytes, acknowledge, room) {
        Ok(n) => {
            *count = n;
            0
        }
        Err(why) => {
            *count = 0;
            u8::from(why)
        }
    }
}

// The frame that the slots are: its head, and its data bytes in lent room; or the refusal's number.
#[unsafe(no_mangle)]
#[tactic(auto, unfolding(crate::specs::Calls::decode_number, crate::specs::Calls::head, crate::specs::Calls::flag))]
pub extern "C" fn frapmast_decode(slots: &[u8], room: &mut [u8], head: &mut [u16; 4]) -> u8
    ensures answer { result ≡ rule.decode_number (rule.decoding room.old slots.now) }
    ensures head { head.new ≡ rule.head (rule.decoding room.old slots.now) }
    ensures room { room.new ≡ rule.room_decoded room.old slots.now }
{
    match decoder::decode(slots, room) {
        Ok(h) => {
            *head = [
                h.identifier,
                u16::from(h.command),
                u16::from(h.count),
                u16::from(h.acknowledge),
            ];
            0
        }
        Err(why) => {
            *head = [0, 0, 0, 0];
            u8::from(why)
        }
    }
}

// The session's listing, in lent room, and its length; or 13, and nothing is written.
#[unsafe(no_mangle)]
#[tactic(auto, unfolding(bench_record::specs::Record::number, crate::specs::Calls::listing_length))]
pub extern "C" fn frapmast_play(session: &[u8], room: &mut [u8], length: &mut usize) -> u8
    ensures answer { result ≡ player_rule.number (rule.playing room.old session.now) }
    ensures length { length.new ≡ rule.listing_length (rule.playing room.old session.now) }
    ensures room { room.new ≡ rule.room_played room.old session.now }
{
    match player::play(session, room) {
        Some(n) => {
            *length = n;
            0
        }
        None => {
            *length = 0;
            13
        }
    }
}

// ---- the controller: a lent map and a lent row are its state

// A fresh controller, whatever was lent.
#[unsafe(no_mangle)]
pub extern "C" fn frapmast_fresh(map: &mut [u8; 256], row: &mut [u8; row::ROW])
    ensures { answers.controller map.new (row_rule.core_of row.new) ≡ run.fresh }
{
    within::fresh(map, row);
}

// Pin reset: the refusal's number or 0.
#[unsafe(no_mangle)]
#[tactic(auto, unfolding(rules::specs::Definitions::Answers::lent))]
pub extern "C" fn frapmast_reset(map: &mut [u8; 256], row: &mut [u8; row::ROW]) -> u8
    ensures answer { result ≡ (run.step (answers.controller map.old (row_rule.core_of row.old)) event.Reset).refused }
    ensures state { answers.controller map.new (row_rule.core_of row.new) ≡ (run.step (answers.controller map.old (row_rule.core_of row.old)) event.Reset).next }
    ensures kept { lent.Unchanged result map.old row.old map.new row.new }
{
    answers::refused_by(within::pin_reset(map, row))
}

// A host write: the refusal's number or 0.
#[unsafe(no_mangle)]
#[tactic(auto, unfolding(rules::specs::Definitions::Answers::lent))]
pub extern "C" fn frapmast_write(
    map: &mut [u8; 256],
    row: &mut [u8; row::ROW],
    address: u16,
    value: u16,
) -> u8
    ensures answer { result ≡ (run.step (answers.controller map.old (row_rule.core_of row.old)) (event.Write address value)).refused }
    ensures state { answers.controller map.new (row_rule.core_of row.new) ≡ (run.step (answers.controller map.old (row_rule.core_of row.old)) (event.Write address value)).next }
    ensures kept { lent.Unchanged result map.old row.old map.new row.new }
{
    answers::refused_by(within::host_write(map, row, address, value))
}

// A host read: the refusal's number or 0, and the byte read or 0.
#[unsafe(no_mangle)]
#[tactic(auto, unfolding(rules::specs::Definitions::Answers::lent))]
pub extern "C" fn frapmast_read(
    map: &[u8; 256],
    row: &[u8; row::ROW],
    address: u16,
    value: &mut u8,
) -> u8
    ensures answer { result ≡ (run.step (answers.controller map.now (row_rule.core_of row.now)) (event.Read address)).refused }
    ensures value { value.new ≡ (run.step (answers.controller map.now (row_rule.core_of row.now)) (event.Read address)).value }
{
    let a = within::host_read(map, row, address);
    *value = answers::value_of(a);
    answers::refused_by(a)
}

// A slot: the refusal's number or 0, and the level of TXD for the next slot or 0.
#[unsafe(no_mangle)]
#[tactic(auto, unfolding(rules::specs::Definitions::Answers::lent))]
pub extern "C" fn frapmast_slot(
    map: &mut [u8; 256],
    row: &mut [u8; row::ROW],
    levels: u16,
    level: &mut u8,
) -> u8
    ensures answer { result ≡ (run.step (answers.controller map.old (row_rule.core_of row.old)) (event.Slot levels)).refused }
    ensures level { level.new ≡ (run.step (answers.controller map.old (row_rule.core_of row.old)) (event.Slot levels)).value }
    ensures state { answers.controller map.new (row_rule.core_of row.new) ≡ (run.step (answers.controller map.old (row_rule.core_of row.old)) (event.Slot levels)).next }
    ensures kept { lent.Unchanged result map.old row.old map.new row.new }
{
    let a = within::slot(map, row, levels);
    *level = answers::value_of(a);
    answers::refused_by(a)
}

// The interrupt line.
#[unsafe(no_mangle)]
pub extern "C" fn frapmast_interrupt(map: &[u8; 256], row: &[u8; row::ROW]) -> bool
    ensures { result ≡ host_rule.interrupt_line (answers.controller map.now (row_rule.core_of row.now)) }
{
    within::interrupt(map, row)
}
