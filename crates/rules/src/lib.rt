// The controller's state and answers: what the definitions in specs/ speak of; and the claims on them that have short proofs.
#![tactic(auto)]

ghost use Rattle.std.specs.Prelude.{◌≡◌};
ghost use Rattle.rules.specs.Definitions.Answers as answers;
ghost use Rattle.rules.specs.Statements.Claims as claims;

use diagnosis::Diagnosis;

// ---- registers (01, Memory map)

// Interrupt status, 0x09.
#[derive(Clone, Copy)]
pub struct Flags {
    pub rst: bool,
    pub te: bool,
    pub tok: bool,
    pub re: bool,
    pub rok: bool,
    pub rnok: bool,
}

// Retries and channel, 0x05 and 0x06.
#[derive(Clone, Copy)]
pub struct Retries {
    pub count: u8,
    pub channel: u8,
}

// The registers that the controller itself writes: 0x05, 0x06, 0x07, 0x09.
#[derive(Clone, Copy)]
pub struct Report {
    pub sending: Retries,
    pub message: Retries,
    pub error: u8,
    pub flags: Flags,
}

// ---- channels (01, Memory map and Receiving)

// The bytes of a channel that mean something: +0, +1, +2, +3, +6, +7.
#[derive(Clone, Copy)]
pub struct Channel {
    pub high: u8,
    pub low: u8,
    pub pointer: u8,
    pub status: u8,
    pub mask_high: u8,
    pub mask_low: u8,
}

// The pointer and the length M_L that a channel uses, its link resolved; of a bad link both are 0.
// No Option: the winner and the frames of a channel are defined for a bad link too, by these zeros, and each of them would name the zeros again.
#[derive(Clone, Copy)]
pub struct Buffer {
    pub legal: bool,
    pub pointer: u8,
    pub length: u8,
}

// Who takes a frame: held from the last command slot on.
// No Option: number 6 judges the numbers of an unmatched winner too (`ranges` in specs/Definitions/State.antt), and C lends any.
#[derive(Clone, Copy)]
pub struct Winner {
    pub matched: bool,
    pub channel: u8,
    pub no_acknowledge: bool,
    pub pointer: u8,
    pub length: u8,
}

// ---- the line and the frame under way (01, Receiving and Sending)

// Recessive slots in a row, and whether a good frame came last.
#[derive(Clone, Copy)]
pub struct Line {
    pub good: bool,
    pub count: u8,
}

#[derive(Clone, Copy)]
pub enum Phase {
    Quiet,
    Start,
    Body,
    Acknowledge,
    End,
}

// The phase of the frame under way and the slot in it that the next sample is.
#[derive(Clone, Copy)]
pub struct Place {
    pub phase: Phase,
    pub at: u8,
}

// The frame under way: whole nibbles taken, bits of the nibble under way, all nibbles as bytes, who takes it.
#[derive(Clone, Copy)]
pub struct Reception {
    pub place: Place,
    pub nibbles: u8,
    pub bits: u8,
    pub bytes: [u8; line::CODED_BYTES],
    pub winner: Winner,
}

// What a sample is for the line and the frame under way.
#[derive(Clone, Copy)]
pub enum Hearing {
    Silent,
    Follows,
    Fault(u8),
    Good,
}

// What a frame of another module does to the channel that takes it.
#[derive(Clone, Copy)]
pub enum Delivery {
    Nothing,
    Stored,
    Overflowed,
    Spoiled,
}

// ---- sending (01, Sending)

// Slots and attempts are counted apart and never added.
#[derive(Clone, Copy)]
pub struct Timeslots(pub u32);

#[derive(Clone, Copy)]
pub struct Attempts(pub u32);

// A frame to be sent: n data bytes, and identifier, command, data and check as bytes, with a zero bit behind the check.
#[derive(Clone, Copy)]
pub struct Coded {
    pub n: u8,
    pub bytes: [u8; line::CODED_BYTES],
}

// Resting: no service. Waiting: between attempts. Opening: a first level answered and not sampled. Sending: in an attempt.
// Receiving: in an attempt whose request another module answers, so that it goes on as a reception.
#[derive(Clone, Copy)]
pub enum Stage {
    Resting,
    Waiting,
    Opening,
    Sending,
    Receiving,
}

// The stage, and the slot of the frame that is driven next.
#[derive(Clone, Copy)]
pub struct Progress {
    pub stage: Stage,
    pub at: u16,
}

#[derive(Clone, Copy)]
pub struct Counters {
    pub slots: Timeslots,
    pub lost: Attempts,
    pub errors: Attempts,
}

// What a service has to send, and what it has spent.
#[derive(Clone, Copy)]
pub struct Effort {
    pub frame: Coded,
    pub setting: u8,
    pub progress: Progress,
    pub counters: Counters,
}

#[derive(Clone, Copy)]
pub struct Service {
    pub channel: u8,
    pub abort: bool,
    pub rear: bool,
    pub effort: Effort,
}

// What a sample is for the attempt, or for the immediate reply, under way.
#[derive(Clone, Copy)]
pub enum Verdict {
    Unjudged,
    Goes,
    Lost,
    Failed(u8),
    Done,
    Answered,
}

// How a service ends, if it does.
#[derive(Clone, Copy)]
pub enum Ending {
    Going,
    Sent,
    Exhausted,
    Aborted,
    Rearbitrated,
    Fulfilled,
}

// An immediate reply: whether one is under way, its channel, its frame and the slot of it that is driven next.
// No Option: number 6 judges the numbers of no reply too (`ranges` in specs/Definitions/State.antt), and C lends any.
#[derive(Clone, Copy)]
pub struct ImmediateReply {
    pub going: bool,
    pub channel: u8,
    pub at: u16,
    pub frame: Coded,
}

// What the model is in the frame under way.
#[derive(Clone, Copy)]
pub enum Role {
    Nobody,
    Receiver,
    Sender,
    Asker,
    Replier,
}

// ---- the controller

#[derive(Clone, Copy)]
pub enum Mode {
    Idle,
    Active,
    Asleep,
}

// The mode, and whether an idle waits for the service to end.
#[derive(Clone, Copy)]
pub struct Activity {
    pub mode: Mode,
    pub waiting: bool,
}

// The state but for the memory map.
#[derive(Clone, Copy)]
pub struct Core {
    pub activity: Activity,
    pub report: Report,
    pub line: Line,
    pub reception: Reception,
    pub service: Service,
    pub reply: ImmediateReply,
    pub diagnosis: Diagnosis,
}

#[derive(Clone, Copy)]
pub struct Controller {
    pub memory: [u8; 256],
    pub core: Core,
}

// The refusal's number or 0; the byte read, the level of TXD or 0; the next controller.
#[derive(Clone, Copy)]
pub struct Answer {
    pub refused: u8,
    pub value: u8,
    pub next: Controller,
}

// Why an event is refused (01, Numbers refused).
#[derive(Clone, Copy, Debug, PartialEq, Eq)]
pub enum Refusal {
    Address,
    Value,
    Unwritable,
    Unreadable,
    Levels,
    Range,
    Asleep,
    FixedBits,
}

// The number of a refusal.
impl From<Refusal> for u8 {
    ghost from_gives = { λ why number. number ≡ answers.number why };

    #[tactic(auto, unfolding(crate::specs::Definitions::Answers::number))]
    fn from(why: Refusal) -> Self {
        match why {
            Refusal::Address => 1,
            Refusal::Value => 2,
            Refusal::Unwritable => 3,
            Refusal::Unreadable => 4,
            Refusal::Levels => 5,
            Refusal::Range => 6,
            Refusal::Asleep => 7,
            Refusal::FixedBits => 8,
        }
    }
}

// Pin reset; host write of an address and a value; host read of an address; a slot with the levels of the three inputs.
#[derive(Clone, Copy)]
pub enum Event {
    Reset,
    Write(u16, u16),
    Read(u16),
    Slot(u16),
}

// Holds the claim on the reset values; it does nothing.
pub fn reset_claims()
    ensures { claims.Resets }
{}

// Holds the claims on masks and the lowest channel; it does nothing.
pub fn matching_claims()
    ensures { claims.Matching }
{}

// Holds the closed runs that stand against the edits of must-fail/; it does nothing.
pub fn run_claims()
    ensures { claims.Courses }
{}
