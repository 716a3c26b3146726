// The three-wire diagnosis: what a slot, a pulse by hand and a write to 0x02 do to it (000, Diagnosis System; 02, Req 05).
#![tactic(auto)]

ghost use Rattle.std.specs.Prelude.{◌≡◌};
ghost use Rattle.diagnosis.specs.Rules as rule;
ghost use Rattle.diagnosing.specs.Steady as steady;

use diagnosis::{Condition, Diagnosis, Finding, Period};
use registers::Map;

// ---- levels and edges

// A level unlike the last slot's.
#[tactic(auto, using(std::proofs::lemmas::Bool::Decides::nat_tests), unfolding(diagnosis::specs::Rules::edge))]
fn edge(before: u8, levels: u8, input: u8) -> bool
    ensures { result ≡ rule.edge before levels input }
{
    registers::input_level(levels, input) != registers::input_level(before, input)
}

// One of the three inputs differs from the others.
#[tactic(auto, using(std::proofs::lemmas::Bool::Decides::nat_tests), unfolding(diagnosis::specs::Rules::differ))]
pub fn differ(levels: u8) -> bool
    ensures { result ≡ rule.differ levels }
{
    levels != 0 && levels != 7
}

// A count of edges, which stops at four.
#[tactic(auto, using(std::proofs::lemmas::Bool::Decides::nat_tests), unfolding(diagnosis::specs::Rules::counted))]
fn edges(b: bool, n: u32) -> u32
    ensures { result ≡ rule.counted 4 b n }
{
    if b && n < 4 { n + 1 } else { n }
}

// Dominant slots in a row: the count stops at eight.
#[tactic(auto, using(std::proofs::lemmas::Bool::Decides::nat_tests), unfolding(diagnosis::specs::Rules::dominant_run, diagnosis::specs::Rules::counted))]
pub fn dominant_run(level: u8, n: u32) -> u32
    ensures { result ≡ rule.dominant_run level n }
{
    if level != 0 {
        return 0;
    }
    if n < 8 { n + 1 } else { n }
}

// ---- the input connected to the reception logic

// The automatic selection: RxD0, the wire that works, or in major error one after the other.
#[tactic(auto, using(std::proofs::lemmas::Bool::Decides::nat_tests), unfolding(diagnosis::specs::Rules::automatic_input))]
fn automatic_input(c: Condition, alternate: bool) -> u8
    ensures { result ≡ rule.automatic_input c alternate }
{
    match c {
        Condition::Nominal => 0,
        Condition::DegradedOnData => 1,
        Condition::DegradedOnDataBar => 2,
        Condition::MajorError if alternate => 2,
        Condition::MajorError => 1,
    }
}

// By Ma and Mb.
#[tactic(auto, using(std::proofs::lemmas::Bool::Decides::nat_tests), unfolding(diagnosis::specs::Rules::connected))]
pub fn connected(control: u8, x: &Diagnosis) -> u8
    ensures { result ≡ rule.connected control x.now }
{
    let mode = Map::selection(control);
    if mode == 1 {
        return 2;
    }
    if mode == 2 {
        return 1;
    }
    if Map::automatic(control) {
        return automatic_input(x.condition, x.alternate);
    }
    0
}

// ---- what a slot counts

#[tactic(auto, using(std::proofs::lemmas::Bool::Decides::nat_tests), unfolding(diagnosis::specs::Rules::edges_counted))]
fn count_edges(p: &mut Period, before: u8, levels: u8, input: u8)
    ensures { p.new ≡ rule.edges_counted before levels input p.old }
{
    p.rxd1 = edges(edge(before, levels, 1), p.rxd1);
    p.rxd2 = edges(edge(before, levels, 2), p.rxd2);
    p.connected = edges(edge(before, levels, input), p.connected);
}

// Counts, last levels and Sc.
#[tactic(auto, using(std::proofs::lemmas::Bool::Decides::nat_tests), unfolding(diagnosis::specs::Rules::watched))]
fn watch(x: &mut Diagnosis, input: u8, levels: u8)
    ensures { x.new ≡ rule.watched input levels x.old }
{
    count_edges(&mut x.period, x.levels, levels, input);
    x.sc = differ(levels) || x.sc;
    x.dominant = dominant_run(registers::input_level(levels, input), x.dominant);
    x.levels = levels;
}

// ---- what its rules find

// Four edges on one wire and none on the other.
#[tactic(auto, using(std::proofs::lemmas::Bool::Decides::nat_tests), unfolding(diagnosis::specs::Rules::asynchronous))]
fn asynchronous(p: &Period) -> Finding
    ensures { result ≡ rule.asynchronous p.now }
{
    if p.rxd1 == 4 && p.rxd2 == 0 {
        return Finding::DataBar;
    }
    if p.rxd2 == 4 && p.rxd1 == 0 {
        return Finding::Data;
    }
    Finding::Nothing
}

// The wire seen as dominant is correct, the recessive one is faulty.
#[tactic(auto, using(std::proofs::lemmas::Bool::Decides::nat_tests), unfolding(diagnosis::specs::Rules::transmission))]
fn transmission(compares: bool, levels: u8) -> Finding
    ensures { result ≡ rule.transmission compares levels }
{
    let data = registers::input_level(levels, 1);
    if !compares || data == registers::input_level(levels, 2) {
        return Finding::Nothing;
    }
    if data == 1 {
        return Finding::Data;
    }
    Finding::DataBar
}

// Eight dominant slots in a row; else what the transmission comparison finds, else the edges.
#[tactic(auto, using(std::proofs::lemmas::Bool::Decides::nat_tests), unfolding(diagnosis::specs::Rules::found, diagnosis::specs::Rules::protocol, diagnosis::specs::Rules::or_else))]
fn found(compares: bool, x: &Diagnosis) -> Finding
    ensures { result ≡ rule.found compares x.now }
{
    if x.dominant == 8 {
        return Finding::Both;
    }
    match transmission(compares, x.levels) {
        Finding::Nothing => asynchronous(&x.period),
        f => f,
    }
}

// ---- what that makes of the condition

#[tactic(auto, using(std::proofs::lemmas::Bool::Decides::nat_tests), unfolding(diagnosis::specs::Rules::is_major))]
fn is_major(c: Condition) -> bool
    ensures { result ≡ rule.is_major c }
{
    matches!(c, Condition::MajorError)
}

// A condition that was found, with a note of it in the period.
#[tactic(auto, using(std::proofs::lemmas::Bool::Decides::nat_tests), unfolding(crate::specs::Steady::failed))]
fn fail(x: &mut Diagnosis, c: Condition)
    ensures { x.new ≡ steady.failed x.old c }
{
    x.condition = c;
    x.period.failure = true;
}

#[tactic(auto, using(std::proofs::lemmas::Bool::Decides::nat_tests), unfolding(diagnosis::specs::Rules::noted, diagnosis::specs::Rules::condition_found, diagnosis::specs::Rules::speaks, crate::specs::Steady::failed))]
fn note(x: &mut Diagnosis, f: Finding)
    ensures { x.new ≡ rule.noted f x.old }
{
    match f {
        Finding::Nothing => {}
        Finding::Data => fail(x, Condition::DegradedOnDataBar),
        Finding::DataBar => fail(x, Condition::DegradedOnData),
        Finding::Both => fail(x, Condition::MajorError),
    }
}

// ---- the SDC pulse

#[tactic(auto, using(std::proofs::lemmas::Bool::Decides::nat_tests), unfolding(diagnosis::specs::Rules::condition_pulsed))]
fn condition_pulsed(control: u8, p: &Period, c: Condition) -> Condition
    ensures { result ≡ rule.condition_pulsed control p.now c }
{
    if p.connected < 4 {
        return Condition::MajorError;
    }
    if Map::automatic(control) && p.failure {
        return c;
    }
    Condition::Nominal
}

#[tactic(auto, using(std::proofs::lemmas::Bool::Decides::nat_tests), unfolding(diagnosis::specs::Rules::new_period))]
fn new_period() -> Period
    ensures { result ≡ rule.new_period }
{
    Period {
        slots: 0,
        rxd1: 0,
        rxd2: 0,
        connected: 0,
        failure: false,
    }
}

// The state after a reset: nominal, the inputs recessive, nothing counted.
#[tactic(auto, using(std::proofs::lemmas::Bool::Decides::nat_tests), unfolding(diagnosis::specs::Rules::undiagnosed))]
pub fn undiagnosed() -> Diagnosis
    ensures { result ≡ rule.undiagnosed }
{
    Diagnosis {
        condition: Condition::Nominal,
        alternate: false,
        sc: false,
        levels: 7,
        dominant: 0,
        period: new_period(),
    }
}

// Period and counts start anew.
#[tactic(auto, using(std::proofs::lemmas::Bool::Decides::nat_tests), unfolding(diagnosis::specs::Rules::renewed))]
pub fn renew(x: &mut Diagnosis)
    ensures { x.new ≡ rule.renewed x.old }
{
    x.period = new_period();
}

// The period ends: the condition by its counts, and a new one.
#[tactic(auto, using(std::proofs::lemmas::Bool::Decides::nat_tests), unfolding(diagnosis::specs::Rules::pulse, diagnosis::specs::Rules::renewed))]
fn end_period(x: &mut Diagnosis, control: u8)
    ensures { x.new ≡ rule.pulse control x.old }
{
    x.condition = condition_pulsed(control, &x.period, x.condition);
    renew(x);
}

// ---- major error: RxD1 first, the other after each pulse

#[tactic(auto, using(std::proofs::lemmas::Bool::Decides::nat_tests), unfolding(crate::specs::Steady::alternates))]
fn alternates(before: Condition, after: Condition, pulses: bool, alternate: bool) -> bool
    ensures { result ≡ steady.alternates before after pulses alternate }
{
    if is_major(before) {
        return alternate != pulses;
    }
    alternate && !is_major(after)
}

#[tactic(auto, using(std::proofs::lemmas::Bool::Decides::nat_tests), unfolding(diagnosis::specs::Rules::turned, crate::specs::Steady::alternates))]
fn turn(x: &mut Diagnosis, before: Condition, pulses: bool)
    ensures { x.new ≡ rule.turned before pulses x.old }
{
    x.alternate = alternates(before, x.condition, pulses, x.alternate);
}

// A pulse by hand.
#[tactic(auto, using(std::proofs::lemmas::Bool::Decides::nat_tests), unfolding(diagnosis::specs::Rules::pulsed))]
pub fn pulse(x: &mut Diagnosis, control: u8)
    ensures { x.new ≡ rule.pulsed control x.old }
{
    let before = x.condition;
    end_period(x, control);
    turn(x, before, true);
}

// ---- the divider

// The slot completes the period.
#[tactic(auto, using(std::proofs::lemmas::Bool::Decides::nat_tests, registers::proofs::Dividers::one_slot), unfolding(diagnosis::specs::Rules::completes))]
fn completes(control: u8, p: &Period) -> bool
    ensures { result ≡ rule.completes control p.now }
{
    Map::divider_runs(control) && Map::divider(control) - 1 <= p.slots
}

#[tactic(auto, using(std::proofs::lemmas::Bool::Decides::nat_tests, crate::proofs::Tests::next_slot), unfolding(diagnosis::specs::Rules::ticked))]
fn tick(x: &mut Diagnosis, control: u8)
    ensures { x.new ≡ rule.ticked control x.old }
{
    if completes(control, &x.period) {
        end_period(x, control);
    } else if Map::divider_runs(control) {
        x.period.slots += 1;
    }
}

// ---- a slot

#[tactic(auto, using(std::proofs::lemmas::Bool::Decides::nat_tests), unfolding(diagnosis::specs::Rules::judged))]
fn judge(x: &mut Diagnosis, control: u8, levels: u8, turns: bool)
    ensures { x.new ≡ rule.judged control levels turns x.old }
{
    watch(x, connected(control, x), levels);
    let f = found(turns && Map::compares_transmission(control), x);
    note(x, f);
}

// Counts, findings, the divider and its pulse, whose turn it is.
#[tactic(auto, using(std::proofs::lemmas::Bool::Decides::nat_tests), unfolding(diagnosis::specs::Rules::clocked))]
#[cold]
#[inline(never)]
fn work(x: &mut Diagnosis, control: u8, levels: u8, turns: bool)
    ensures { x.new ≡ rule.clocked control levels turns x.old }
{
    let before = x.condition;
    let pulses = completes(control, &x.period);
    judge(x, control, levels, turns);
    tick(x, control);
    turn(x, before, pulses);
}

// No count of edges changes, and no rule speaks of them: the input connected has four, RxD1 and RxD2 have as many as each other.
#[tactic(auto, using(std::proofs::lemmas::Bool::Decides::nat_tests), unfolding(crate::specs::Steady::settled))]
fn settled(before: u8, levels: u8, p: &Period) -> bool
    ensures { result ≡ steady.settled before levels p.now }
{
    p.connected == 4 && p.rxd1 == p.rxd2 && (p.rxd1 == 4 || levels / 2 == before / 2)
}

// Nothing but last levels, dominant slots in a row and Sc can change.
#[tactic(auto, using(std::proofs::lemmas::Bool::Decides::nat_tests), unfolding(crate::specs::Steady::passes))]
pub fn passes(control: u8, levels: u8, turns: bool, run: u32, x: &Diagnosis) -> bool
    ensures { result ≡ steady.passes control levels turns run x.now }
{
    !Map::divider_runs(control) && !turns && run != 8 && settled(x.levels, levels, &x.period)
}

// A slot, but for RI.
#[tactic(auto, using(std::proofs::lemmas::Bool::Decides::nat_tests, crate::proofs::Passing::quick))]
fn clock(x: &mut Diagnosis, control: u8, levels: u8, turns: bool)
    ensures { x.new ≡ rule.clocked control levels turns x.old }
{
    let run = dominant_run(
        registers::input_level(levels, connected(control, x)),
        x.dominant,
    );
    if passes(control, levels, turns, run, x) {
        x.sc = differ(levels) | x.sc; // `||` was tried, and the proof did not close (goal `returns-after-differ`)
        x.levels = levels;
        x.dominant = run;
    } else {
        work(x, control, levels, turns);
    }
}

// RI: nominal, Sc 0.
#[tactic(auto, using(std::proofs::lemmas::Bool::Decides::nat_tests), unfolding(diagnosis::specs::Rules::returned))]
fn return_to_nominal(x: &mut Diagnosis)
    ensures { x.new ≡ rule.returned x.old }
{
    x.condition = Condition::Nominal;
    x.alternate = false;
    x.sc = false;
}

// A slot. turns: the model's own frame turns from dominant to recessive; ended: a good frame ends.
#[tactic(auto, using(std::proofs::lemmas::Bool::Decides::nat_tests), unfolding(diagnosis::specs::Rules::diagnosed, diagnosis::specs::Rules::returns))]
pub fn diagnose(x: &mut Diagnosis, control: u8, levels: u8, turns: bool, ended: bool)
    ensures { x.new ≡ rule.diagnosed control levels turns ended x.old }
{
    clock(x, control, levels, turns);
    if ended && !Map::automatic(control) {
        return_to_nominal(x);
    }
}

// ---- 0x04

// Sa: a fault on DATA.
#[tactic(auto, using(std::proofs::lemmas::Bool::Decides::nat_tests), unfolding(diagnosis::specs::Rules::fault_on_data))]
pub fn fault_on_data(c: Condition) -> bool
    ensures { result ≡ rule.fault_on_data c }
{
    matches!(c, Condition::DegradedOnDataBar | Condition::MajorError)
}

// Sb: a fault on DATA-bar.
#[tactic(auto, using(std::proofs::lemmas::Bool::Decides::nat_tests), unfolding(diagnosis::specs::Rules::fault_on_data_bar))]
pub fn fault_on_data_bar(c: Condition) -> bool
    ensures { result ≡ rule.fault_on_data_bar c }
{
    matches!(c, Condition::DegradedOnData | Condition::MajorError)
}
