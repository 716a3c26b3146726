// The state but for the memory map as a lent row of bytes: where each number stands, the state that a row says, and the row of a state (docs/STATE.md).
#![tactic(auto)]

ghost use Rattle.std.specs.Prelude.{◌≡◌, ◌-◌, ◌%◌, ◌≤◌, ◌<◌, leb, length, set, get_or};
ghost use Rattle.diagnosis.specs.Control as control_rule;
ghost use Rattle.diagnosis.specs.Rules as diagnosis_rule;
ghost use Rattle.rules.specs.Definitions.Setters as setter;
ghost use Rattle.rules.specs.Definitions.Registers as register_rule;
ghost use Rattle.rules.specs.Definitions.State as state_rule;
ghost use Rattle.rules.specs.Definitions.Answers as answers;
ghost use Rattle.rules.specs.Definitions.Reception as reception_rule;
ghost use Rattle.row.specs.Row as rule;
ghost use Rattle.row.specs.Places as place;
ghost use Rattle.row.specs.Bytes as bytes;
ghost use Rattle.std.proofs.lemmas.List.Edits.{sets};

use diagnosis::{Condition, Diagnosis, Period};
use registers::Map;
use rules::{
    Activity, Attempts, Coded, Core, Counters, Effort, Flags, ImmediateReply, Line, Mode, Phase,
    Place, Progress, Reception, Report, Retries, Service, Stage, Timeslots, Winner,
};

// The bytes of a row.
pub const ROW: usize = 176;

// The place of each number. A number of 16 or 32 bits stands low byte first, a frame byte after byte.
#[derive(Clone, Copy)]
pub struct At {}

impl At {
    // Retries and channel of 0x05.
    pub const SENDING: usize = 0;

    // And of 0x06.
    pub const MESSAGE: usize = 2;

    // 0x07.
    pub const ERROR: usize = 4;

    // Recessive slots in a row.
    pub const COUNT: usize = 5;

    // The slot of the phase.
    pub const SLOT: usize = 6;

    // Whole nibbles taken.
    pub const NIBBLES: usize = 7;

    // Bits of the nibble under way.
    pub const BITS: usize = 8;

    // The channel that takes the frame.
    pub const WINNER_CHANNEL: usize = 9;

    // Its M_L.
    pub const LENGTH: usize = 10;

    // The channel of the service.
    pub const CHANNEL: usize = 11;

    // Data bytes of the frame to be sent.
    pub const OWN_DATA: usize = 12;

    // MR.
    pub const SETTING: usize = 13;

    // The channel of the reply.
    pub const REPLY_CHANNEL: usize = 14;

    // Data bytes of the reply.
    pub const REPLY_DATA: usize = 15;

    // The levels of the last slot.
    pub const LEVELS: usize = 16;

    // The pointer of the channel that takes the frame.
    pub const POINTER: usize = 17;

    // Attempts that failed.
    pub const ERRORS: usize = 18;

    // Dominant slots in a row.
    pub const DOMINANT: usize = 22;

    // Edges on RxD1.
    pub const RXD1: usize = 26;

    // Edges on RxD2.
    pub const RXD2: usize = 30;

    // Edges on the input connected.
    pub const CONNECTED: usize = 34;

    // The slot of the frame that is driven next.
    pub const NEXT: usize = 38;

    // The slot of the reply that is driven next.
    pub const REPLY_NEXT: usize = 40;

    // Slots of the SDC period.
    pub const PERIOD: usize = 42;

    // Slots of attempts.
    pub const SLOTS: usize = 46;

    // Attempts lost.
    pub const LOST: usize = 50;

    // The mode.
    pub const MODE: usize = 54;

    // An idle waits.
    pub const WAITING: usize = 55;

    // RST, TE, TOK, RE, ROK, RNOK.
    pub const FLAGS: usize = 56;

    // A good frame came last.
    pub const GOOD: usize = 62;

    // The phase of the frame under way.
    pub const PHASE: usize = 63;

    // A channel takes the frame.
    pub const MATCHED: usize = 64;

    // With DRAK.
    pub const NO_ACKNOWLEDGE: usize = 65;

    // An abort waits.
    pub const ABORT: usize = 66;

    // A rearbitration waits.
    pub const REAR: usize = 67;

    // The stage of the service.
    pub const STAGE: usize = 68;

    // A reply is under way.
    pub const GOING: usize = 69;

    // The state of the diagnosis.
    pub const CONDITION: usize = 70;

    // Whose turn it is in major error.
    pub const ALTERNATE: usize = 71;

    // Sc.
    pub const SC: usize = 72;

    // A slot of the period had a finding.
    pub const FAILURE: usize = 73;

    // The frame under way.
    pub const HEARD: usize = 74;

    // The frame to be sent.
    pub const OWN: usize = 108;

    // The reply.
    pub const REPLY: usize = 142;
}

// ---- numbers and frames

// A number of 16 bits.
fn half(s: &[u8; ROW], at: usize) -> u16
    requires { at < 175 }
    ensures { result ≡ rule.half_at (rule.byte_at s.now) at }
{
    u16::from_le_bytes([s[at], s[at + 1]])
}

// A number of 32 bits.
fn word(s: &[u8; ROW], at: usize) -> u32
    requires { at < 173 }
    ensures { result ≡ rule.word_at (rule.byte_at s.now) at }
{
    u32::from_le_bytes([s[at], s[at + 1], s[at + 2], s[at + 3]])
}

#[tactic(auto, using(std::proofs::lemmas::Bool::Decides::nat_tests, crate::proofs::Laws::half_put))]
fn put_half(s: &mut [u8; ROW], at: usize, x: u16)
    requires { at < 175 }
    ensures { s.new ≡ bytes.with_half s.old at x }
{
    s[at..at + 2].copy_from_slice(&x.to_le_bytes());
}

#[tactic(auto, using(std::proofs::lemmas::Bool::Decides::nat_tests, crate::proofs::Laws::word_put))]
fn put_word(s: &mut [u8; ROW], at: usize, x: u32)
    requires { at < 173 }
    ensures { s.new ≡ bytes.with_word s.old at x }
{
    s[at..at + 4].copy_from_slice(&x.to_le_bytes());
}

// The bytes of a frame.
#[tactic(auto, using(std::proofs::lemmas::Bool::Decides::nat_tests, crate::proofs::Laws::frame_cut))]
fn frame_at(s: &[u8; ROW], at: usize) -> [u8; line::CODED_BYTES]
    requires { at ≤ 142 }
    ensures { result ≡ rule.frame_at (rule.byte_at s.now) at }
{
    let mut b = [0u8; line::CODED_BYTES];
    b.copy_from_slice(&s[at..at + line::CODED_BYTES]);
    b
}

// Its length too: a proof of a caller does not know it of an array in a struct.
#[inline(always)]
#[tactic(auto, using(std::proofs::lemmas::Bool::Decides::nat_tests, crate::proofs::Laws::frame_put))]
fn put_frame(s: &mut [u8; ROW], at: usize, b: &[u8; line::CODED_BYTES])
    requires { at ≤ 142 }
    ensures laid { s.new ≡ sets s.old at b.now }
    ensures long { length b.now ≡ 34 }
{
    s[at..at + line::CODED_BYTES].copy_from_slice(b);
}

// ---- a byte as an enum: its discriminant, and every larger byte is the last

fn mode_of(b: u8) -> Mode
    ensures { result ≡ rule.mode_of b }
{
    match b {
        0 => Mode::Idle,
        1 => Mode::Active,
        _ => Mode::Asleep,
    }
}

fn phase_of(b: u8) -> Phase
    ensures { result ≡ rule.phase_of b }
{
    match b {
        0 => Phase::Quiet,
        1 => Phase::Start,
        2 => Phase::Body,
        3 => Phase::Acknowledge,
        _ => Phase::End,
    }
}

fn stage_of(b: u8) -> Stage
    ensures { result ≡ rule.stage_of b }
{
    match b {
        0 => Stage::Resting,
        1 => Stage::Waiting,
        2 => Stage::Opening,
        3 => Stage::Sending,
        _ => Stage::Receiving,
    }
}

fn condition_of(b: u8) -> Condition
    ensures { result ≡ rule.condition_of b }
{
    match b {
        0 => Condition::Nominal,
        1 => Condition::DegradedOnData,
        2 => Condition::DegradedOnDataBar,
        _ => Condition::MajorError,
    }
}

// ---- the state that a row says

fn activity_of(s: &[u8; ROW]) -> Activity
    ensures { result ≡ rule.activity_by (rule.byte_at s.now) }
{
    Activity {
        mode: mode_of(s[At::MODE]),
        waiting: s[At::WAITING] == 1,
    }
}

pub fn flags_of(s: &[u8; ROW]) -> Flags
    ensures { result ≡ rule.flags_by (rule.byte_at s.now) }
{
    Flags {
        rst: s[At::FLAGS] == 1,
        te: s[At::FLAGS + 1] == 1,
        tok: s[At::FLAGS + 2] == 1,
        re: s[At::FLAGS + 3] == 1,
        rok: s[At::FLAGS + 4] == 1,
        rnok: s[At::FLAGS + 5] == 1,
    }
}

fn retries_at(s: &[u8; ROW], at: usize) -> Retries
    requires { at < 175 }
    ensures { result ≡ rule.retries_by (rule.byte_at s.now) at }
{
    Retries {
        count: s[at],
        channel: s[at + 1],
    }
}

fn report_of(s: &[u8; ROW]) -> Report
    ensures { result ≡ rule.report_by (rule.byte_at s.now) }
{
    Report {
        sending: retries_at(s, At::SENDING),
        message: retries_at(s, At::MESSAGE),
        error: s[At::ERROR],
        flags: flags_of(s),
    }
}

pub fn line_of(s: &[u8; ROW]) -> Line
    ensures { result ≡ rule.line_by (rule.byte_at s.now) }
{
    Line {
        good: s[At::GOOD] == 1,
        count: s[At::COUNT],
    }
}

fn place_of(s: &[u8; ROW]) -> Place
    ensures { result ≡ rule.place_by (rule.byte_at s.now) }
{
    Place {
        phase: phase_of(s[At::PHASE]),
        at: s[At::SLOT],
    }
}

fn winner_of(s: &[u8; ROW]) -> Winner
    ensures { result ≡ rule.winner_by (rule.byte_at s.now) }
{
    Winner {
        matched: s[At::MATCHED] == 1,
        channel: s[At::WINNER_CHANNEL],
        no_acknowledge: s[At::NO_ACKNOWLEDGE] == 1,
        pointer: s[At::POINTER],
        length: s[At::LENGTH],
    }
}

fn reception_of(s: &[u8; ROW]) -> Reception
    ensures { result ≡ rule.reception_by (rule.byte_at s.now) }
{
    Reception {
        place: place_of(s),
        nibbles: s[At::NIBBLES],
        bits: s[At::BITS],
        bytes: frame_at(s, At::HEARD),
        winner: winner_of(s),
    }
}

fn coded_at(s: &[u8; ROW], n: usize, at: usize) -> Coded
    requires n { n < 176 }
    requires at { at ≤ 142 }
    ensures { result ≡ rule.coded_by (rule.byte_at s.now) n at }
{
    Coded {
        n: s[n],
        bytes: frame_at(s, at),
    }
}

fn progress_of(s: &[u8; ROW]) -> Progress
    ensures { result ≡ rule.progress_by (rule.byte_at s.now) }
{
    Progress {
        stage: stage_of(s[At::STAGE]),
        at: half(s, At::NEXT),
    }
}

pub fn counters_of(s: &[u8; ROW]) -> Counters
    ensures { result ≡ rule.counters_by (rule.byte_at s.now) }
{
    Counters {
        slots: Timeslots(word(s, At::SLOTS)),
        lost: Attempts(word(s, At::LOST)),
        errors: Attempts(word(s, At::ERRORS)),
    }
}

fn effort_of(s: &[u8; ROW]) -> Effort
    ensures { result ≡ rule.effort_by (rule.byte_at s.now) }
{
    Effort {
        frame: coded_at(s, At::OWN_DATA, At::OWN),
        setting: s[At::SETTING],
        progress: progress_of(s),
        counters: counters_of(s),
    }
}

fn service_of(s: &[u8; ROW]) -> Service
    ensures { result ≡ rule.service_by (rule.byte_at s.now) }
{
    Service {
        channel: s[At::CHANNEL],
        abort: s[At::ABORT] == 1,
        rear: s[At::REAR] == 1,
        effort: effort_of(s),
    }
}

fn reply_of(s: &[u8; ROW]) -> ImmediateReply
    ensures { result ≡ rule.reply_by (rule.byte_at s.now) }
{
    ImmediateReply {
        going: s[At::GOING] == 1,
        channel: s[At::REPLY_CHANNEL],
        at: half(s, At::REPLY_NEXT),
        frame: coded_at(s, At::REPLY_DATA, At::REPLY),
    }
}

fn period_of(s: &[u8; ROW]) -> Period
    ensures { result ≡ rule.period_by (rule.byte_at s.now) }
{
    Period {
        slots: word(s, At::PERIOD),
        rxd1: word(s, At::RXD1),
        rxd2: word(s, At::RXD2),
        connected: word(s, At::CONNECTED),
        failure: s[At::FAILURE] == 1,
    }
}

pub fn diagnosis_of(s: &[u8; ROW]) -> Diagnosis
    ensures { result ≡ rule.diagnosis_by (rule.byte_at s.now) }
{
    Diagnosis {
        condition: condition_of(s[At::CONDITION]),
        alternate: s[At::ALTERNATE] == 1,
        sc: s[At::SC] == 1,
        levels: s[At::LEVELS],
        dominant: word(s, At::DOMINANT),
        period: period_of(s),
    }
}

// The state that a row says.
#[inline(always)]
#[tactic(auto, using(std::proofs::lemmas::Bool::Decides::nat_tests), unfolding(crate::specs::Row::core_of, crate::specs::Row::core_by))]
pub fn core_of(s: &[u8; ROW]) -> Core
    ensures { result ≡ rule.core_of s.now }
{
    Core {
        activity: activity_of(s),
        report: report_of(s),
        line: line_of(s),
        reception: reception_of(s),
        service: service_of(s),
        reply: reply_of(s),
        diagnosis: diagnosis_of(s),
    }
}

// The slot of the frame to be sent that is driven next.
pub fn next_of(s: &[u8; ROW]) -> u16
    ensures { result ≡ rule.half_at (rule.byte_at s.now) 38 }
{
    half(s, At::NEXT)
}

// Slots of attempts.
pub fn slots_of(s: &[u8; ROW]) -> u32
    ensures { result ≡ rule.word_at (rule.byte_at s.now) 46 }
{
    word(s, At::SLOTS)
}

// Dominant slots in a row.
pub fn dominant_of(s: &[u8; ROW]) -> u32
    ensures { result ≡ rule.word_at (rule.byte_at s.now) 22 }
{
    word(s, At::DOMINANT)
}

// ---- the row of a state: each writes one part, and the others stay

fn put_activity(s: &mut [u8; ROW], a: Activity)
    ensures { rule.core_of s.new ≡ setter.with_activity (rule.core_of s.old) a }
{
    s[At::MODE] = a.mode as u8;
    s[At::WAITING] = u8::from(a.waiting);
}

fn put_flags(s: &mut [u8; ROW], f: Flags)
    ensures { rule.core_of s.new ≡ setter.with_report (rule.core_of s.old) (setter.with_flags (rule.core_of s.old).report f) }
{
    s[At::FLAGS] = u8::from(f.rst);
    s[At::FLAGS + 1] = u8::from(f.te);
    s[At::FLAGS + 2] = u8::from(f.tok);
    s[At::FLAGS + 3] = u8::from(f.re);
    s[At::FLAGS + 4] = u8::from(f.rok);
    s[At::FLAGS + 5] = u8::from(f.rnok);
}

fn put_report(s: &mut [u8; ROW], x: Report)
    ensures { rule.core_of s.new ≡ setter.with_report (rule.core_of s.old) x }
{
    s[At::SENDING] = x.sending.count;
    s[At::SENDING + 1] = x.sending.channel;
    s[At::MESSAGE] = x.message.count;
    s[At::MESSAGE + 1] = x.message.channel;
    s[At::ERROR] = x.error;
    put_flags(s, x.flags);
}

fn put_line(s: &mut [u8; ROW], l: Line)
    ensures { rule.core_of s.new ≡ setter.with_line (rule.core_of s.old) l }
{
    s[At::GOOD] = u8::from(l.good);
    s[At::COUNT] = l.count;
}

pub fn put_winner(s: &mut [u8; ROW], w: Winner)
    ensures { rule.core_of s.new ≡ setter.with_reception (rule.core_of s.old) (reception_rule.with_winner (rule.core_of s.old).reception w) }
{
    s[At::MATCHED] = u8::from(w.matched);
    s[At::WINNER_CHANNEL] = w.channel;
    s[At::NO_ACKNOWLEDGE] = u8::from(w.no_acknowledge);
    s[At::POINTER] = w.pointer;
    s[At::LENGTH] = w.length;
}

pub fn put_place(s: &mut [u8; ROW], p: Place)
    ensures { rule.core_of s.new ≡ setter.with_reception (rule.core_of s.old) (reception_rule.with_place (rule.core_of s.old).reception p) }
{
    s[At::PHASE] = p.phase as u8;
    s[At::SLOT] = p.at;
}

pub fn put_reception(s: &mut [u8; ROW], r: Reception)
    ensures { rule.core_of s.new ≡ setter.with_reception (rule.core_of s.old) r }
{
    s[At::NIBBLES] = r.nibbles;
    s[At::BITS] = r.bits;
    put_frame(s, At::HEARD, &r.bytes);
    put_place(s, r.place);
    put_winner(s, r.winner);
}

pub fn put_progress(s: &mut [u8; ROW], p: Progress)
    ensures { rule.core_of s.new ≡ setter.with_service (rule.core_of s.old) (setter.with_effort (rule.core_of s.old).service (setter.with_progress (rule.core_of s.old).service.effort p)) }
{
    s[At::STAGE] = p.stage as u8;
    put_half(s, At::NEXT, p.at);
}

fn put_counters(s: &mut [u8; ROW], c: Counters)
    ensures { rule.core_of s.new ≡ setter.with_service (rule.core_of s.old) (setter.with_effort (rule.core_of s.old).service (setter.with_counters (rule.core_of s.old).service.effort c)) }
{
    put_word(s, At::SLOTS, c.slots.0);
    put_word(s, At::LOST, c.lost.0);
    put_word(s, At::ERRORS, c.errors.0);
}

fn put_effort(s: &mut [u8; ROW], e: Effort)
    ensures { rule.core_of s.new ≡ setter.with_service (rule.core_of s.old) (setter.with_effort (rule.core_of s.old).service e) }
{
    s[At::OWN_DATA] = e.frame.n;
    s[At::SETTING] = e.setting;
    put_frame(s, At::OWN, &e.frame.bytes);
    put_progress(s, e.progress);
    put_counters(s, e.counters);
}

fn put_service(s: &mut [u8; ROW], v: Service)
    ensures { rule.core_of s.new ≡ setter.with_service (rule.core_of s.old) v }
{
    s[At::CHANNEL] = v.channel;
    s[At::ABORT] = u8::from(v.abort);
    s[At::REAR] = u8::from(v.rear);
    put_effort(s, v.effort);
}

fn put_reply(s: &mut [u8; ROW], y: ImmediateReply)
    ensures { rule.core_of s.new ≡ setter.with_reply (rule.core_of s.old) y }
{
    s[At::GOING] = u8::from(y.going);
    s[At::REPLY_CHANNEL] = y.channel;
    put_half(s, At::REPLY_NEXT, y.at);
    s[At::REPLY_DATA] = y.frame.n;
    put_frame(s, At::REPLY, &y.frame.bytes);
}

fn put_period(s: &mut [u8; ROW], p: Period)
    ensures { rule.core_of s.new ≡ setter.with_diagnosis (rule.core_of s.old) (diagnosis_rule.with_period (rule.core_of s.old).diagnosis p) }
{
    put_word(s, At::PERIOD, p.slots);
    put_word(s, At::RXD1, p.rxd1);
    put_word(s, At::RXD2, p.rxd2);
    put_word(s, At::CONNECTED, p.connected);
    s[At::FAILURE] = u8::from(p.failure);
}

pub fn put_diagnosis(s: &mut [u8; ROW], x: Diagnosis)
    ensures { rule.core_of s.new ≡ setter.with_diagnosis (rule.core_of s.old) x }
{
    s[At::CONDITION] = x.condition as u8;
    s[At::ALTERNATE] = u8::from(x.alternate);
    s[At::SC] = u8::from(x.sc);
    s[At::LEVELS] = x.levels;
    put_word(s, At::DOMINANT, x.dominant);
    put_period(s, x.period);
}

// ---- one number of it

// The slot of the phase.
pub fn put_slot(s: &mut [u8; ROW], at: u8)
    ensures { rule.core_of s.new ≡ setter.with_reception (rule.core_of s.old) (reception_rule.with_place (rule.core_of s.old).reception (reception_rule.at_place (rule.core_of s.old).reception.place.phase at)) }
{
    s[At::SLOT] = at;
}

// The bits of the nibble under way.
pub fn put_bits(s: &mut [u8; ROW], bits: u8)
    ensures { rule.core_of s.new ≡ setter.with_reception (rule.core_of s.old) (reception_rule.with_bits (rule.core_of s.old).reception bits) }
{
    s[At::BITS] = bits;
}

// The whole nibbles taken.
pub fn put_nibbles(s: &mut [u8; ROW], n: u8)
    ensures { rule.core_of s.new ≡ setter.with_reception (rule.core_of s.old) (reception_rule.with_nibbles (rule.core_of s.old).reception n) }
{
    s[At::NIBBLES] = n;
}

// A byte of the frame under way.
#[tactic(auto, using(std::proofs::lemmas::Bool::Decides::nat_tests, crate::proofs::Laws::heard_byte), unfolding(crate::specs::Row::core_of, crate::specs::Row::core_by))]
pub fn put_heard(s: &mut [u8; ROW], i: usize, b: u8)
    ensures { rule.core_of s.new ≡ setter.with_reception (rule.core_of s.old) (reception_rule.with_bytes (rule.core_of s.old).reception (set (rule.core_of s.old).reception.bytes (i % 34) b)) }
{
    s[At::HEARD + i % line::CODED_BYTES] = b;
}

// Recessive slots in a row.
pub fn put_count(s: &mut [u8; ROW], n: u8)
    ensures { rule.core_of s.new ≡ setter.with_line (rule.core_of s.old) (rule.with_count (rule.core_of s.old).line n) }
{
    s[At::COUNT] = n;
}

// Slots of attempts.
pub fn put_slots(s: &mut [u8; ROW], n: u32)
    ensures { rule.core_of s.new ≡ setter.with_service (rule.core_of s.old) (rule.with_spent (rule.core_of s.old).service n) }
{
    put_word(s, At::SLOTS, n);
}

// Sc, the last levels, and dominant slots in a row.
pub fn put_watched(s: &mut [u8; ROW], sc: bool, levels: u8, dominant: u32)
    ensures { rule.core_of s.new ≡ setter.with_diagnosis (rule.core_of s.old) (rule.with_watched (rule.core_of s.old).diagnosis sc levels dominant) }
{
    s[At::SC] = u8::from(sc);
    s[At::LEVELS] = levels;
    put_word(s, At::DOMINANT, dominant);
}

// The row says the state.
#[inline(always)]
pub fn put_core(s: &mut [u8; ROW], k: &Core)
    ensures { rule.core_of s.new ≡ k.now }
{
    put_activity(s, k.activity);
    put_report(s, k.report);
    put_line(s, k.line);
    put_reception(s, k.reception);
    put_service(s, k.service);
    put_reply(s, k.reply);
    put_diagnosis(s, k.diagnosis);
}

// ---- number 6

// The slots of the period, by the divider that 0x02 holds.
#[tactic(auto, using(std::proofs::lemmas::Bool::Decides::nat_tests, registers::proofs::Dividers::one_slot))]
fn period_in_range(m: &[u8; 256], s: &[u8; ROW]) -> bool
    ensures { result ≡ leb (rule.word_at (rule.byte_at s.now) place.period) (control_rule.divider (get_or m.now register_rule.diagnosis_control 0) - 1) }
{
    word(s, At::PERIOD) <= Map::divider(m[Map::DIAGNOSIS_CONTROL]) - 1
}

// A row a line, in the order of `ranges`.
#[tactic(auto, using(std::proofs::lemmas::Bool::Decides::nat_tests, ranges::proofs::Rows::joined, ranges::proofs::Rows::joined_within), unfolding(rules::specs::Definitions::State::in_range, rules::specs::Definitions::State::ranges, line::specs::Frame::size, crate::specs::Row::core_of, crate::specs::Row::core_by))]
pub fn in_range(m: &[u8; 256], s: &[u8; ROW]) -> bool
    ensures { result ≡ state_rule.in_range (answers.controller m.now (rule.core_of s.now)) }
{
    (s[At::SENDING] <= 15)
        & (s[At::SENDING + 1] <= 13)
        & (s[At::MESSAGE] <= 15)
        & (s[At::MESSAGE + 1] <= 13)
        & (s[At::ERROR] <= 32)
        & (s[At::COUNT] <= 12)
        & (s[At::SLOT] <= 9)
        & (s[At::NIBBLES] <= line::MOST_NIBBLES)
        & (s[At::BITS] <= 15)
        & (s[At::WINNER_CHANNEL] <= 13)
        & (s[At::POINTER] <= 127)
        & (s[At::LENGTH] <= 31)
        & (s[At::CHANNEL] <= 13)
        & (s[At::OWN_DATA] <= line::LONGEST)
        & (s[At::SETTING] <= 15)
        & (half(s, At::NEXT) <= 60 + 10 * (line::LONGEST as u16) - 1)
        & (word(s, At::ERRORS) <= 15)
        & (s[At::REPLY_CHANNEL] <= 13)
        & (half(s, At::REPLY_NEXT) <= 60 + 10 * (line::LONGEST as u16) - 1)
        & (s[At::REPLY_DATA] <= line::LONGEST)
        & (s[At::LEVELS] <= 7)
        & (word(s, At::DOMINANT) <= 8)
        & period_in_range(m, s)
        & (word(s, At::RXD1) <= 4)
        & (word(s, At::RXD2) <= 4)
        & (word(s, At::CONNECTED) <= 4)
}
