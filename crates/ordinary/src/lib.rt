// The ordinary slot, in place over the lent row: the map does not change, and nothing is delivered, ended, chosen or replied to (docs/ARCHITECTURE.md).
#![tactic(auto)]

ghost use Rattle.std.specs.Prelude.{◌≡◌, true, false, not, List, ℕ, ◌+◌, ◌%◌, ◌≤◌, ◌<◌, eqb, get_or};
ghost use Rattle.line.specs.Bits.{pick};
ghost use Rattle.line.specs.LineCode as code;
ghost use Rattle.diagnosis.specs.Control as control_rule;
ghost use Rattle.diagnosis.specs.Rules as diagnosis_rule;
ghost use Rattle.rules.specs.Definitions.Longest as longest;
ghost use Rattle.rules.specs.Definitions.Setters as setter;
ghost use Rattle.rules.specs.Definitions.Registers as registers_rule;
ghost use Rattle.rules.specs.Definitions.Channels as channels_rule;
ghost use Rattle.rules.specs.Definitions.Reception as reception_rule;
ghost use Rattle.rules.specs.Definitions.Hearing as hearing_rule;
ghost use Rattle.rules.specs.Definitions.Attempt as attempt_rule;
ghost use Rattle.rules.specs.Definitions.Service as service_rule;
ghost use Rattle.rules.specs.Definitions.State as state_rule;
ghost use Rattle.rules.specs.Definitions.Slots as slots_rule;
ghost use Rattle.rules.specs.declared.Hearing.TheVariants as hearings;
ghost use Rattle.rules.specs.declared.Verdict.TheVariants as verdicts;
ghost use Rattle.driver.specs.Driver as driver_rule;
ghost use Rattle.judging.specs.Ordinary as judging_rule;
ghost use Rattle.row.specs.Row as row_rule;
ghost use Rattle.ordinary.specs.declared.Way.TheVariants as ways;
ghost use Rattle.ordinary.specs.Ways as rule;

use registers::Map;
use row::At;
use rules::{Phase, Place, Progress, Stage};

// What becomes of the sample: not ordinary; the line is counted, with no frame under way; the frame is followed, and whether it is one that the model sends.
#[derive(Clone, Copy)]
enum Way {
    Other,
    Counts,
    Follows(bool, u8),
}

// Whether the slot is ordinary; the level for the next slot; whether the model's own frame turns from dominant to recessive, asked only where ETIP is set.
#[derive(Clone, Copy)]
struct Step {
    taken: bool,
    level: u8,
    turns: bool,
}

// TXD for the next slot; or the slot is not ordinary, and nothing has changed.
#[derive(Clone, Copy)]
pub enum Taken {
    Drives(u8),
    Other,
}

// A byte of the row, with its range.
fn wide(x: u8) -> u16
    ensures value { result ≡ x }
    ensures range { result < 256 }
{
    x as u16
}

// ---- the frame is followed

// The first slot of a phase, with no bits.
#[tactic(auto, using(std::proofs::lemmas::Bool::Decides::nat_tests), unfolding(rules::specs::Definitions::Reception::entered, rules::specs::Definitions::Reception::at_place))]
fn enter(s: &mut [u8; row::ROW], phase: Phase)
    ensures { row_rule.core_of s.new ≡ setter.with_reception (row_rule.core_of s.old) (reception_rule.entered (row_rule.core_of s.old).reception phase) }
{
    row::put_place(s, Place { phase, at: 0 });
    row::put_bits(s, 0);
}

// The winner is taken where four nibbles are whole.
#[tactic(auto, using(std::proofs::lemmas::Bool::Decides::nat_tests), unfolding(rules::specs::Definitions::Reception::winner_taken, row::specs::Row::core_of, row::specs::Row::core_by))]
fn name_winner(m: &[u8; 256], s: &mut [u8; row::ROW])
    ensures { row_rule.core_of s.new ≡ setter.with_reception (row_rule.core_of s.old) (pick (eqb (row_rule.core_of s.old).reception.nibbles 4) (reception_rule.winner_taken (row_rule.core_of s.old).reception m.now) (row_rule.core_of s.old).reception) }
{
    if s[At::NIBBLES] == 4 {
        let w = matching::winner_for(m, s[At::HEARD], s[At::HEARD + 1]);
        row::put_winner(s, w);
    }
}

// One bit more of the nibble under way or of the acknowledge.
#[tactic(auto, using(std::proofs::lemmas::Bool::Decides::nat_tests), unfolding(rules::specs::Definitions::Reception::bit_taken, rules::specs::Definitions::Reception::moved, row::specs::Row::core_of, row::specs::Row::core_by))]
fn take_bit(s: &mut [u8; row::ROW], v: u8)
    requires { row_rule.byte_at s.old 6 < 255 }
    ensures { row_rule.core_of s.new ≡ setter.with_reception (row_rule.core_of s.old) (reception_rule.bit_taken (row_rule.core_of s.old).reception v) }
{
    let at = s[At::SLOT];
    let bits = s[At::BITS];
    row::put_bits(s, bits % 8 * 2 + v % 2);
    row::put_slot(s, at + 1);
}

// The four bits that were taken, laid behind the whole nibbles.
#[tactic(auto, using(std::proofs::lemmas::Bool::Decides::nat_tests, row::proofs::Laws::byte_of), unfolding(rules::specs::Definitions::Reception::bits_laid, rules::specs::Definitions::Reception::with_nibble, row::specs::Row::core_of, row::specs::Row::core_by))]
fn lay_nibble(s: &mut [u8; row::ROW])
    ensures { row_rule.core_of s.new ≡ setter.with_reception (row_rule.core_of s.old) (reception_rule.bits_laid (row_rule.core_of s.old).reception) }
{
    let k = s[At::NIBBLES];
    let i = (wide(k) / 2) as usize;
    let nibble = wide(s[At::BITS]) % 16;
    let b = wide(s[At::HEARD + i % line::CODED_BYTES]);
    if k % 2 == 0 {
        row::put_heard(s, i, (nibble * 16) as u8);
        return;
    }
    row::put_heard(s, i, (b / 16 * 16 + nibble) as u8);
}

// One nibble more; the count stops at its largest.
#[tactic(auto, using(std::proofs::lemmas::Bool::Decides::nat_tests), unfolding(rules::specs::Definitions::Reception::more_nibbles))]
fn more_nibbles(n: u8) -> u8
    ensures { result ≡ reception_rule.more_nibbles n }
{
    if n < line::MOST_NIBBLES {
        return n + 1;
    }
    line::MOST_NIBBLES
}

// A nibble closed by a proper pair.
#[tactic(auto, using(std::proofs::lemmas::Bool::Decides::nat_tests, crate::proofs::Named::nibble_named), unfolding(rules::specs::Definitions::Reception::nibble_taken, rules::specs::Definitions::Reception::entered, row::specs::Row::core_of, row::specs::Row::core_by))]
fn take_nibble(m: &[u8; 256], s: &mut [u8; row::ROW])
    ensures { row_rule.core_of s.new ≡ setter.with_reception (row_rule.core_of s.old) (rule.named m.now (reception_rule.nibble_taken (row_rule.core_of s.old).reception)) }
{
    let n = s[At::NIBBLES];
    lay_nibble(s);
    row::put_nibbles(s, more_nibbles(n));
    enter(s, Phase::Body);
    name_winner(m, s);
}

// The end of data.
#[tactic(auto, using(std::proofs::lemmas::Bool::Decides::nat_tests), unfolding(rules::specs::Definitions::Reception::data_ended, rules::specs::Definitions::Reception::entered))]
fn end_data(s: &mut [u8; row::ROW])
    ensures { row_rule.core_of s.new ≡ setter.with_reception (row_rule.core_of s.old) (reception_rule.data_ended (row_rule.core_of s.old).reception) }
{
    lay_nibble(s);
    enter(s, Phase::Acknowledge);
}

#[tactic(auto, using(std::proofs::lemmas::Bool::Decides::nat_tests, crate::proofs::Named::start_moves, crate::proofs::Named::start_enters), unfolding(rules::specs::Definitions::Reception::moved, rules::specs::Definitions::Reception::entered, row::specs::Row::core_of, row::specs::Row::core_by))]
fn follow_start(m: &[u8; 256], s: &mut [u8; row::ROW])
    ensures { row_rule.core_of s.new ≡ setter.with_reception (row_rule.core_of s.old) (rule.named m.now (reception_rule.follow_start (row_rule.core_of s.old).reception)) }
{
    let at = s[At::SLOT];
    if at < 9 {
        row::put_slot(s, at + 1);
        return;
    }
    enter(s, Phase::Body);
    name_winner(m, s);
}

#[tactic(auto, using(std::proofs::lemmas::Bool::Decides::nat_tests, crate::proofs::Named::body_bit, crate::proofs::Named::body_ends, crate::proofs::Named::body_nibble), unfolding(row::specs::Row::core_of, row::specs::Row::core_by))]
fn follow_body(m: &[u8; 256], s: &mut [u8; row::ROW], v: u8)
    ensures { row_rule.core_of s.new ≡ setter.with_reception (row_rule.core_of s.old) (rule.named m.now (reception_rule.follow_body (row_rule.core_of s.old).reception v)) }
{
    if s[At::SLOT] < 4 {
        take_bit(s, v);
        return;
    }
    if v == s[At::BITS] % 2 {
        end_data(s);
        return;
    }
    take_nibble(m, s);
}

#[tactic(auto, using(std::proofs::lemmas::Bool::Decides::nat_tests), unfolding(rules::specs::Definitions::Reception::follow_acknowledge, row::specs::Row::core_of, row::specs::Row::core_by))]
fn follow_acknowledge(s: &mut [u8; row::ROW], v: u8)
    ensures { row_rule.core_of s.new ≡ setter.with_reception (row_rule.core_of s.old) (reception_rule.follow_acknowledge (row_rule.core_of s.old).reception v) }
{
    if s[At::SLOT] == 0 {
        take_bit(s, v);
        return;
    }
    enter(s, Phase::End);
}

#[tactic(auto, using(std::proofs::lemmas::Bool::Decides::nat_tests), unfolding(rules::specs::Definitions::Reception::follow_end, rules::specs::Definitions::Reception::moved, row::specs::Row::core_of, row::specs::Row::core_by))]
fn follow_end(s: &mut [u8; row::ROW])
    ensures { row_rule.core_of s.new ≡ setter.with_reception (row_rule.core_of s.old) (reception_rule.follow_end (row_rule.core_of s.old).reception) }
{
    let at = s[At::SLOT];
    if at < 7 {
        row::put_slot(s, at + 1);
    }
}

// The frame once a sample that is no fault is taken, and its winner in the last command slot.
#[tactic(auto, using(std::proofs::lemmas::Bool::Decides::nat_tests, crate::proofs::Named::begun_named, crate::proofs::Named::acknowledge_named, crate::proofs::Named::end_named, crate::proofs::Named::end_phase), unfolding(rules::specs::Definitions::Slots::reception_judged, rules::specs::Definitions::Hearing::reception_after, rules::specs::Definitions::Reception::followed, rules::specs::Definitions::Reception::follow_in, crate::specs::Ways::named, row::specs::Row::core_of, row::specs::Row::core_by))]
fn follow(m: &[u8; 256], s: &mut [u8; row::ROW], v: u8)
    ensures { row_rule.core_of s.new ≡ setter.with_reception (row_rule.core_of s.old) (slots_rule.reception_judged m.now hearings.Follows (row_rule.core_of s.old).reception v) }
{
    let phase = s[At::PHASE];
    match phase {
        0 => row::put_reception(s, reception::begun()),
        1 => follow_start(m, s),
        2 => follow_body(m, s, v),
        3 => follow_acknowledge(s, v),
        _ => follow_end(s),
    }
}

// ---- receiving

// Whether a sample of the body is neither the end of data, nor a fault, nor R/W 1, behind which a reply may begin.
#[tactic(auto, using(std::proofs::lemmas::Bool::Decides::nat_tests), unfolding(crate::specs::Ways::body_goes, row::specs::Row::core_of, row::specs::Row::core_by))]
fn body_goes(s: &[u8; row::ROW], v: u8) -> bool
    ensures { result ≡ rule.body_goes (row_rule.core_of s.now).reception v }
{
    if s[At::SLOT] < 4 {
        return !((s[At::NIBBLES] == 3) & ((s[At::SLOT] == 2) & (v % 2 == 1)));
    }
    (v != s[At::BITS] % 2) & (s[At::NIBBLES] < line::MOST_NIBBLES)
}

// Whether the model drives the acknowledge.
#[tactic(auto, using(std::proofs::lemmas::Bool::Decides::nat_tests), unfolding(rules::specs::Definitions::Hearing::acknowledges, rules::specs::Definitions::Hearing::fits, row::specs::Row::core_of, row::specs::Row::core_by))]
fn acknowledges(s: &[u8; row::ROW]) -> bool
    ensures { result ≡ hearing_rule.acknowledges (row_rule.core_of s.now).reception }
{
    if s[At::MATCHED] == 1 {
        if reception::data_count(s[At::NIBBLES]) < s[At::LENGTH] {
            return (channels::acknowledge_asked(s[At::HEARD + 1])) & (s[At::NO_ACKNOWLEDGE] != 1);
        }
        return false;
    }
    false
}

// Whether an acknowledge of 10 or 11 is right; 00 and 01 are not.
#[tactic(auto, using(std::proofs::lemmas::Bool::Decides::nat_tests), unfolding(crate::specs::Ways::acknowledge_goes, row::specs::Row::core_of, row::specs::Row::core_by))]
fn acknowledge_goes(s: &[u8; row::ROW], v: u8) -> bool
    ensures { result ≡ rule.acknowledge_goes (row_rule.core_of s.now).reception v }
{
    if s[At::SLOT] == 0 {
        return true;
    }
    if s[At::BITS] % 2 == 0 {
        return false;
    }
    if v == 0 {
        return channels::acknowledge_asked(s[At::HEARD + 1]);
    }
    !acknowledges(s)
}

// Whether a start, an end of frame goes on.
#[tactic(auto, using(std::proofs::lemmas::Bool::Decides::nat_tests), unfolding(crate::specs::Ways::end_goes, row::specs::Row::core_of, row::specs::Row::core_by))]
fn end_goes(s: &[u8; row::ROW], v: u8) -> bool
    ensures { result ≡ rule.end_goes (row_rule.core_of s.now).reception v }
{
    (v != 0) & (s[At::SLOT] < 7)
}

// A service that waits joins behind the start: its last slot is not ordinary then.
#[tactic(auto, using(std::proofs::lemmas::Bool::Decides::nat_tests, crate::proofs::Tests::rests, crate::proofs::Tests::either), unfolding(crate::specs::Ways::start_goes, rules::specs::Definitions::State::serving, rules::specs::Definitions::Attempt::in_service, row::specs::Row::core_of, row::specs::Row::core_by))]
fn start_goes(s: &[u8; row::ROW], v: u8) -> bool
    ensures { result ≡ rule.start_goes (row_rule.core_of s.now).reception (not (state_rule.serving (row_rule.core_of s.now).service)) v }
{
    let at = s[At::SLOT];
    if v == line::start_level(wide(at)) {
        return (at < 9) | (s[At::STAGE] == 0);
    }
    false
}

// Whether the frame of another module goes on.
#[tactic(auto, using(std::proofs::lemmas::Bool::Decides::nat_tests, crate::proofs::Named::end_phase), unfolding(crate::specs::Ways::frame_goes, crate::specs::Ways::goes_in, row::specs::Row::core_of, row::specs::Row::core_by))]
fn frame_goes(s: &[u8; row::ROW], v: u8) -> bool
    ensures { result ≡ rule.frame_goes (row_rule.core_of s.now) v }
{
    let phase = s[At::PHASE];
    match phase {
        0 => false,
        1 => start_goes(s, v),
        2 => body_goes(s, v),
        3 => acknowledge_goes(s, v),
        _ => end_goes(s, v),
    }
}

// The level that a receiver drives.
#[tactic(auto, using(std::proofs::lemmas::Bool::Decides::nat_tests, crate::proofs::Named::recessive), unfolding(rules::specs::Definitions::Hearing::receiver_level, rules::specs::Definitions::Hearing::receiver_in, rules::specs::Definitions::Hearing::acknowledge_level, row::specs::Row::core_of, row::specs::Row::core_by))]
fn receiver_level(s: &[u8; row::ROW]) -> u8
    ensures { result ≡ hearing_rule.receiver_level (row_rule.core_of s.now).reception }
{
    if s[At::PHASE] == 3 {
        if s[At::SLOT] == 0 {
            return 1;
        }
        if acknowledges(s) {
            return 0;
        }
        return 1;
    }
    1
}

// ---- no frame under way

#[tactic(auto, using(std::proofs::lemmas::Bool::Decides::nat_tests), unfolding(crate::specs::Ways::is_nothing))]
fn nobody_ready(m: &[u8; 256]) -> bool
    ensures { result ≡ rule.is_nothing (channels_rule.lowest_ready m.now longest.capacity) }
{
    match matching::lowest_ready(m, line::LONGEST) {
        None => true,
        Some(_) => false,
    }
}

#[tactic(auto, using(std::proofs::lemmas::Bool::Decides::nat_tests, crate::proofs::Tests::rests, crate::proofs::Tests::nothing_ready, crate::proofs::OwnFrame::and_both), unfolding(crate::specs::Ways::Judged, crate::specs::Ways::Carries, rules::specs::Definitions::State::serving, rules::specs::Definitions::Attempt::in_service, row::specs::Row::core_of, row::specs::Row::core_by))]
fn quiet_way(m: &[u8; 256], s: &[u8; row::ROW], v: u8) -> Way
    requires listens { rule.Listens (row_rule.core_of s.now) }
    requires quiet { reception_rule.under_way (row_rule.core_of s.now).reception.place ≡ false }
    ensures { rule.Judged result m.now (row_rule.core_of s.now) v }
{
    let begins = (v == 0) & (free_line::takes_start(row::line_of(s)));
    if begins {
        return Way::Follows(false, 1);
    }
    if s[At::STAGE] == 0 {
        if nobody_ready(m) {
            return Way::Counts;
        }
        return Way::Other;
    }
    Way::Counts
}

// The line is counted; a service that waits opens its attempt on a free line.
#[tactic(auto, using(std::proofs::lemmas::Bool::Decides::nat_tests, crate::proofs::Moving::counted_moves, crate::proofs::Moving::opening, crate::proofs::Moving::staying, crate::proofs::Moving::opened_level, crate::proofs::Moving::quiet_level, crate::proofs::Tests::listening, crate::proofs::OwnFrame::and_both, crate::proofs::Effects::count_alone), unfolding(rules::specs::Definitions::Attempt::waits, rules::specs::Definitions::Attempt::is_waiting, rules::specs::Definitions::Attempt::drives_frame, rules::specs::Definitions::Service::opened, rules::specs::Definitions::Attempt::at_stage, row::specs::Row::core_of, row::specs::Row::core_by))]
fn count(m: &[u8; 256], s: &mut [u8; row::ROW], v: u8) -> Step
    requires counting { rule.Counting m.now (row_rule.core_of s.old) v }
    requires active { state_rule.is_active (row_rule.core_of s.old).activity.mode ≡ true }
    ensures taken { result.taken ≡ true }
    ensures moves { (control : ℕ) → rule.Moves m.now (row_rule.core_of s.old) control v (row_rule.core_of s.new) result.level result.turns }
{
    let mut l = row::line_of(s);
    free_line::count(&mut l, v);
    row::put_count(s, l.count);
    if s[At::STAGE] == 1 {
        if Map::autonomous(m[Map::TRANSMIT_CONTROL]) & free_line::free(l) {
            row::put_progress(
                s,
                Progress {
                    stage: Stage::Opening,
                    at: 0,
                },
            );
            return Step {
                taken: true,
                level: 0,
                turns: false,
            };
        }
    }
    Step {
        taken: true,
        level: 1,
        turns: false,
    }
}

// ---- sending

// A nibble of the frame to be sent, the high half of a byte first.
#[tactic(auto, using(std::proofs::lemmas::Bool::Decides::nat_tests, row::proofs::Laws::byte_of), unfolding(driver::specs::Driver::nibble_at, row::specs::Row::core_of, row::specs::Row::core_by))]
fn nibble_at(s: &[u8; row::ROW], i: u16) -> u8
    requires { i < 68 }
    ensures value { result ≡ driver_rule.nibble_at (row_rule.core_of s.now).service.effort.frame.bytes i }
    ensures range { result < 16 }
{
    let b = wide(s[At::OWN + (i / 2) as usize]);
    if i % 2 == 0 {
        return (b / 16) as u8;
    }
    (b % 16) as u8
}

// A slot of the five of a nibble.
#[tactic(auto, using(std::proofs::lemmas::Bool::Decides::nat_tests, crate::proofs::Tests::slot_0, crate::proofs::Tests::slot_1, crate::proofs::Tests::slot_2, crate::proofs::Tests::slot_3, crate::proofs::Tests::slot_4))]
fn pattern_level(nibble: u8, j: u16) -> u8
    requires nibble_bound { nibble < 16 }
    requires slot { j < 5 }
    ensures { result ≡ get_or (code.pattern (nibble % 16)) j 0 }
{
    match j {
        0 => nibble / 8 % 2,
        1 => nibble / 4 % 2,
        2 => nibble / 2 % 2,
        3 => nibble % 2,
        _ => 1 - nibble % 2,
    }
}

#[tactic(auto, using(std::proofs::lemmas::Bool::Decides::nat_tests), unfolding(driver::specs::Driver::slot_coded))]
fn slot_coded(s: &[u8; row::ROW], k: u16) -> u8
    requires { k < 338 }
    ensures { result ≡ driver_rule.slot_coded (row_rule.core_of s.now).service.effort.frame.bytes k }
{
    pattern_level(nibble_at(s, k / 5), k % 5)
}

// The level of slot k of the frame to be sent.
#[tactic(auto, using(std::proofs::lemmas::Bool::Decides::nat_tests, crate::proofs::OwnFrame::own_level), unfolding(row::specs::Row::core_of, row::specs::Row::core_by))]
fn level_at(s: &[u8; row::ROW], k: u16) -> u8
    requires { row_rule.byte_at s.now 12 ≤ 30 }
    ensures { result ≡ attempt_rule.level_at (row_rule.core_of s.now).service.effort.frame k }
{
    let long = 10 * wide(s[At::OWN_DATA]);
    if k < 10 {
        return line::start_level(k);
    }
    if k < 48 + long {
        return slot_coded(s, k - 10);
    }
    if k < 50 + long {
        return 0;
    }
    1
}

// The level due in slot k.
#[tactic(auto, using(std::proofs::lemmas::Bool::Decides::nat_tests), unfolding(crate::specs::Ways::due_from, row::specs::Row::core_of, row::specs::Row::core_by))]
fn due(s: &[u8; row::ROW], k: u16, d: u8) -> u8
    ensures { result ≡ rule.due_from (row_rule.core_of s.now).service.effort.frame k d }
{
    if k == 51 + 10 * wide(s[At::OWN_DATA]) {
        if channels::acknowledge_asked(s[At::OWN + 1]) {
            return 0;
        }
        return d;
    }
    d
}

#[derive(Clone, Copy)]
struct Levels {
    now: u8,
    next: u8,
}

#[tactic(auto, using(std::proofs::lemmas::Bool::Decides::nat_tests, crate::proofs::Tests::slot_first, crate::proofs::OwnFrame::same_nibble, crate::proofs::OwnFrame::next_nibble), unfolding(driver::specs::Driver::slot_coded, row::specs::Row::core_of, row::specs::Row::core_by))]
fn coded_levels(s: &[u8; row::ROW], k: u16) -> Levels
    requires { k < 337 }
    ensures now { result.now ≡ driver_rule.slot_coded (row_rule.core_of s.now).service.effort.frame.bytes k }
    ensures next { result.next ≡ driver_rule.slot_coded (row_rule.core_of s.now).service.effort.frame.bytes (k + 1) }
{
    let i = k / 5;
    let j = k % 5;
    let nibble = nibble_at(s, i);
    let now = pattern_level(nibble, j);
    if j < 4 {
        return Levels {
            now,
            next: pattern_level(nibble, j + 1),
        };
    }
    Levels {
        now,
        next: nibble_at(s, i + 1) / 8,
    }
}

#[tactic(auto, using(std::proofs::lemmas::Bool::Decides::nat_tests, crate::proofs::OwnFrame::and_true, crate::proofs::OwnFrame::coded_level, crate::proofs::OwnFrame::coded_next), unfolding(row::specs::Row::core_of, row::specs::Row::core_by))]
fn levels_at(s: &[u8; row::ROW], k: u16) -> Levels
    requires s_bound { row_rule.byte_at s.now 12 ≤ 30 }
    requires room { k < 65535 }
    ensures now { result.now ≡ attempt_rule.level_at (row_rule.core_of s.now).service.effort.frame k }
    ensures next { result.next ≡ attempt_rule.level_at (row_rule.core_of s.now).service.effort.frame (k + 1) }
{
    if (10 <= k) & (k < 47 + 10 * wide(s[At::OWN_DATA])) {
        return coded_levels(s, k - 10);
    }
    Levels {
        now: level_at(s, k),
        next: level_at(s, k + 1),
    }
}

#[tactic(auto, using(std::proofs::lemmas::Bool::Decides::nat_tests, crate::proofs::OwnFrame::and_true, crate::proofs::Tests::slot_goes), unfolding(crate::specs::Ways::Judged, line::specs::Frame::size, row::specs::Row::core_of, row::specs::Row::core_by))]
fn send_way(s: &[u8; row::ROW], v: u8) -> Way
    requires waits { (row_rule.core_of s.now).activity.waiting ≡ false }
    requires drives { attempt_rule.drives_frame (row_rule.core_of s.now).service.effort.progress ≡ true }
    ensures { (m : List ℕ) → rule.Judged result m (row_rule.core_of s.now) v }
{
    let n = s[At::OWN_DATA];
    let k = row::next_of(s);
    if (n <= line::LONGEST) & (k < 59 + 10 * wide(n)) {
        let x = levels_at(s, k);
        if v == due(s, k, x.now) {
            return Way::Follows(true, x.next);
        }
        return Way::Other;
    }
    Way::Other
}

// The next slot of the frame, and one slot more spent.
#[tactic(auto, using(std::proofs::lemmas::Bool::Decides::nat_tests, crate::proofs::Effects::moving, crate::proofs::Effects::spent_more, crate::proofs::Effects::spent_most), unfolding(rules::specs::Definitions::Attempt::at_stage, row::specs::Row::core_of, row::specs::Row::core_by))]
fn spend(s: &mut [u8; row::ROW], k: u16)
    requires k_value { k ≡ (row_rule.core_of s.old).service.effort.progress.at }
    requires room { k < 65535 }
    ensures { row_rule.core_of s.new ≡ setter.with_service (row_rule.core_of s.old) (slots_rule.service_judged verdicts.Goes (row_rule.core_of s.old).service) }
{
    row::put_progress(
        s,
        Progress {
            stage: Stage::Sending,
            at: k + 1,
        },
    );
    let n = row::slots_of(s);
    if n < 4294967295 {
        row::put_slots(s, n + 1);
    }
}

#[tactic(auto, using(std::proofs::lemmas::Bool::Decides::nat_tests))]
fn own_dominant(s: &[u8; row::ROW], control: u8, k: u16) -> bool
    requires { row_rule.byte_at s.now 12 ≤ 30 }
    ensures { result ≡ pick (control_rule.compares_transmission control) (eqb (attempt_rule.level_at (row_rule.core_of s.now).service.effort.frame k) 0) false }
{
    if Map::compares_transmission(control) {
        return level_at(s, k) == 0;
    }
    false
}

#[tactic(auto, using(std::proofs::lemmas::Bool::Decides::nat_tests, crate::proofs::OwnFrame::and_both), unfolding(row::specs::Row::core_of, row::specs::Row::core_by))]
fn sent(s: &mut [u8; row::ROW], control: u8, level: u8) -> Step
    requires s_bound { (row_rule.core_of s.old).service.effort.frame.n ≤ 30 }
    requires room { (row_rule.core_of s.old).service.effort.progress.at < 65535 }
    ensures taken { result.taken ≡ true }
    ensures level { result.level ≡ level }
    ensures turns { result.turns ≡ registers_rule.both (pick (control_rule.compares_transmission control) (eqb (attempt_rule.level_at (row_rule.core_of s.old).service.effort.frame (row_rule.core_of s.old).service.effort.progress.at) 0) false) (eqb level 1) }
    ensures state { row_rule.core_of s.new ≡ setter.with_service (row_rule.core_of s.old) (slots_rule.service_judged verdicts.Goes (row_rule.core_of s.old).service) }
{
    let k = row::next_of(s);
    let dominant = own_dominant(s, control, k);
    spend(s, k);
    Step {
        taken: true,
        level,
        turns: dominant & (level == 1),
    }
}

// ---- the slot but for the diagnosis

// Whether a service between attempts goes on.
#[tactic(auto, using(std::proofs::lemmas::Bool::Decides::nat_tests, crate::proofs::Tests::goes_waiting), unfolding(rules::specs::Definitions::Service::stopped, rules::specs::Definitions::Attempt::between_attempts, rules::specs::Definitions::Attempt::is_between, rules::specs::Definitions::Attempt::exhausted, judging::specs::Ordinary::goes, row::specs::Row::core_of, row::specs::Row::core_by))]
fn goes_on(s: &[u8; row::ROW]) -> bool
    requires { row_rule.byte_at s.now 68 < 2 }
    ensures { result ≡ judging_rule.goes (service_rule.stopped (row_rule.core_of s.now).service) }
{
    if s[At::STAGE] == 0 {
        return true;
    }
    let c = row::counters_of(s);
    (c.errors.0 <= wide(s[At::SETTING]) as u32) & ((s[At::ABORT] != 1) & (s[At::REAR] != 1))
}

#[tactic(auto, using(std::proofs::lemmas::Bool::Decides::nat_tests, crate::proofs::Tests::listens, crate::proofs::Tests::carried), unfolding(crate::specs::Ways::Judged, crate::specs::Ways::Carries, rules::specs::Definitions::Reception::under_way, rules::specs::Definitions::Reception::is_under_way, row::specs::Row::core_of, row::specs::Row::core_by))]
fn rest_way(m: &[u8; 256], s: &[u8; row::ROW], v: u8) -> Way
    requires waits { (row_rule.core_of s.now).activity.waiting ≡ false }
    requires rests { row_rule.byte_at s.now 68 < 2 }
    ensures { rule.Judged result m.now (row_rule.core_of s.now) v }
{
    if s[At::GOING] == 1 {
        return Way::Other;
    }
    if goes_on(s) {
        if s[At::PHASE] == 0 {
            return quiet_way(m, s, v);
        }
        if frame_goes(s, v) {
            return Way::Follows(false, 1);
        }
        return Way::Other;
    }
    Way::Other
}

#[tactic(auto, using(std::proofs::lemmas::Bool::Decides::nat_tests, crate::proofs::Tests::driven), unfolding(crate::specs::Ways::Judged, rules::specs::Definitions::Attempt::drives_frame, row::specs::Row::core_of, row::specs::Row::core_by))]
fn way_of(m: &[u8; 256], s: &[u8; row::ROW], v: u8) -> Way
    ensures { rule.Judged result m.now (row_rule.core_of s.now) v }
{
    if s[At::WAITING] == 1 {
        return Way::Other;
    }
    let stage = s[At::STAGE];
    match stage {
        0 | 1 => rest_way(m, s, v),
        2 | 3 => send_way(s, v),
        _ => Way::Other,
    }
}

#[tactic(auto, using(std::proofs::lemmas::Bool::Decides::nat_tests, crate::proofs::Moving::as_sends, crate::proofs::Moving::as_receives, crate::proofs::Moving::received, crate::proofs::Moving::sent, crate::proofs::Moving::own_turn), unfolding(line::specs::Frame::size))]
fn carried(m: &[u8; 256], s: &mut [u8; row::ROW], control: u8, v: u8, sends: bool, next: u8) -> Step
    requires { rule.Judged (ways.Follows sends next) m.now (row_rule.core_of s.old) v }
    ensures taken { result.taken ≡ true }
    ensures moves { rule.Moves m.now (row_rule.core_of s.old) control v (row_rule.core_of s.new) result.level result.turns }
{
    follow(m, s, v);
    if sends {
        return sent(s, control, next);
    }
    Step {
        taken: true,
        level: receiver_level(s),
        turns: false,
    }
}

#[tactic(auto, using(std::proofs::lemmas::Bool::Decides::nat_tests, crate::proofs::Moving::awake_active), unfolding(crate::specs::Ways::Judged, crate::specs::Ways::Stepped))]
fn active(m: &[u8; 256], s: &mut [u8; row::ROW], control: u8, v: u8) -> Step
    requires { state_rule.is_active (row_rule.core_of s.old).activity.mode ≡ true }
    ensures { rule.Stepped result.taken m.now s.old control v s.new result.level result.turns }
{
    match way_of(m, s, v) {
        Way::Other => Step {
            taken: false,
            level: 1,
            turns: false,
        },
        Way::Counts => count(m, s, v),
        Way::Follows(sends, next) => carried(m, s, control, v, sends, next),
    }
}

// Idle: nothing moves, and the level is recessive. Asleep is not ordinary.
#[tactic(auto, using(std::proofs::lemmas::Bool::Decides::nat_tests, crate::proofs::Moving::awake_idle), unfolding(crate::specs::Ways::Stepped, rules::specs::Definitions::State::is_active, row::specs::Row::core_of, row::specs::Row::core_by))]
fn moved(m: &[u8; 256], s: &mut [u8; row::ROW], control: u8, v: u8) -> Step
    ensures { rule.Stepped result.taken m.now s.old control v s.new result.level result.turns }
{
    let mode = s[At::MODE];
    match mode {
        0 => Step {
            taken: true,
            level: 1,
            turns: false,
        },
        1 => active(m, s, control, v),
        _ => Step {
            taken: false,
            level: 1,
            turns: false,
        },
    }
}

// ---- the slot

// The diagnosis by value.
#[tactic(auto, using(std::proofs::lemmas::Bool::Decides::nat_tests), unfolding(row::specs::Row::core_of, row::specs::Row::core_by))]
fn work(s: &mut [u8; row::ROW], control: u8, levels: u8, turns: bool)
    ensures { row_rule.core_of s.new ≡ setter.with_diagnosis (row_rule.core_of s.old) (diagnosis_rule.diagnosed control levels turns false (row_rule.core_of s.old).diagnosis) }
{
    let mut x = row::diagnosis_of(s);
    diagnosing::diagnose(&mut x, control, levels, turns, false);
    row::put_diagnosis(s, x);
}

// In place where no count of edges changes.
#[tactic(auto, using(std::proofs::lemmas::Bool::Decides::nat_tests, crate::proofs::Effects::steady), unfolding(row::specs::Row::core_of, row::specs::Row::core_by))]
fn diagnose(s: &mut [u8; row::ROW], control: u8, levels: u8, turns: bool, v: u8)
    requires { v ≡ diagnosis_rule.input_level levels (diagnosis_rule.connected control (row_rule.core_of s.old).diagnosis) }
    ensures { row_rule.core_of s.new ≡ setter.with_diagnosis (row_rule.core_of s.old) (diagnosis_rule.diagnosed control levels turns false (row_rule.core_of s.old).diagnosis) }
{
    let run = diagnosing::dominant_run(v, row::dominant_of(s));
    if diagnosing::passes(control, levels, turns, run, &row::diagnosis_of(s)) {
        let sc = (diagnosing::differ(levels)) | (s[At::SC] == 1);
        row::put_watched(s, sc, levels, run);
        return;
    }
    work(s, control, levels, turns);
}

// A slot with levels that a controller takes.
#[tactic(auto, using(std::proofs::lemmas::Bool::Decides::nat_tests, slots::proofs::Diagnosed::awake_as, crate::proofs::Moving::step_awake, crate::proofs::Moving::step_same, crate::proofs::Moving::awake_open), unfolding(crate::specs::Ways::Took, row::specs::Row::core_of, row::specs::Row::core_by))]
pub fn slot(m: &[u8; 256], s: &mut [u8; row::ROW], levels: u16) -> Taken
    ensures { rule.Took result m.now s.old levels s.new }
{
    let control = m[Map::DIAGNOSIS_CONTROL];
    let three = registers::received(m[Map::LINE_CONTROL], levels);
    let v = registers::input_level(three, diagnosing::connected(control, &row::diagnosis_of(s)));
    let step = moved(m, s, control, v);
    if step.taken {
        diagnose(s, control, three, step.turns, v);
        return Taken::Drives(registers::transmitted(m[Map::LINE_CONTROL], step.level));
    }
    Taken::Other
}
