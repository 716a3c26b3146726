// The three-wire diagnosis (000, Diagnosis System; 02, Req 05): its state, and what closed runs of its rules show. The claims over every run are in crate every_run.
#![tactic(auto)]

ghost use Rattle.diagnosis.specs.Claims as claims;

// The states of the bus (000, Diagnosis States, Table 3). Degraded on DATA: fault on DATA-bar, RxD2. Degraded on DATA-bar: fault on DATA, RxD1.
#[derive(Clone, Copy)]
pub enum Condition {
    Nominal,
    DegradedOnData,
    DegradedOnDataBar,
    MajorError,
}

// What the rules of a slot find: no failure, or which wire is faulty.
#[derive(Clone, Copy)]
pub enum Finding {
    Nothing,
    Data,
    DataBar,
    Both,
}

// Of the SDC period so far: its slots; the edges on RxD1, on RxD2 and on the input that was connected in each slot; whether a slot had a finding.
#[derive(Clone, Copy)]
pub struct Period {
    pub slots: u32,
    pub rxd1: u32,
    pub rxd2: u32,
    pub connected: u32,
    pub failure: bool,
}

// The state of the diagnosis: the condition, with whose turn it is in major error; Sc; the levels of the last slot; the dominant slots in a row on the input connected; the period.
#[derive(Clone, Copy)]
pub struct Diagnosis {
    pub condition: Condition,
    pub alternate: bool,
    pub sc: bool,
    pub levels: u8,
    pub dominant: u32,
    pub period: Period,
}

// Holds the closed runs that stand against the edits of must-fail/; it does nothing.
pub fn run_claims()
    ensures { claims.Courses }
{}
