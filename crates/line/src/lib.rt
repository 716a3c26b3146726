// Frames on the line: the line code's table, and where each slot of a frame stands. The check is crate frame_check.
#![tactic(auto)]

ghost use Rattle.std.specs.Prelude.{◌≡◌, ◌%◌, ◌≤◌, get_or};
ghost use Rattle.line.specs.LineCode as code;
ghost use Rattle.line.specs.Frame as frame;
ghost use Rattle.line.specs.Layout as layout;
ghost use Rattle.line.specs.Claims as claims;

// The parts of a frame, in their order; After is past its end.
#[derive(Clone, Copy)]
pub enum Part {
    Start,
    Identifier,
    Command,
    Data,
    Check,
    EndOfData,
    Acknowledge,
    EndOfFrame,
    After,
}

// A plain slot, or a half of a bit that is sent as itself and its opposite.
#[derive(Clone, Copy)]
pub enum Half {
    Plain,
    First,
    Second,
}

// The most data bytes of a frame.
pub const LONGEST: u8 = 30;

// How many numbers of data bytes there are: 0 to LONGEST.
pub const COUNTS: u8 = LONGEST + 1;

// The most whole nibbles before the last three bits of the check: identifier, command and check have seven, a data byte two.
pub const MOST_NIBBLES: u8 = 7 + 2 * LONGEST;

// The bytes of LONGEST data bytes and check.
pub const DATA_AND_CHECK: u8 = LONGEST + 2;

// The bytes of identifier, command, LONGEST data bytes and check.
pub const CODED_BYTES: usize = LONGEST as usize + 4;

// The five slots of each nibble.
const PATTERNS: [[u8; 5]; 16] = [
    [0, 0, 0, 0, 1],
    [0, 0, 0, 1, 0],
    [0, 0, 1, 0, 1],
    [0, 0, 1, 1, 0],
    [0, 1, 0, 0, 1],
    [0, 1, 0, 1, 0],
    [0, 1, 1, 0, 1],
    [0, 1, 1, 1, 0],
    [1, 0, 0, 0, 1],
    [1, 0, 0, 1, 0],
    [1, 0, 1, 0, 1],
    [1, 0, 1, 1, 0],
    [1, 1, 0, 0, 1],
    [1, 1, 0, 1, 0],
    [1, 1, 1, 0, 1],
    [1, 1, 1, 1, 0],
];

// The start sequence.
const START: [u8; 10] = [0, 0, 0, 0, 1, 1, 1, 1, 0, 1];

// The five slots of a nibble: the low four bits of what is given.
#[tactic(auto, using(std::proofs::lemmas::Bool::Decides::nat_tests, crate::proofs::Tables::at), unfolding(crate::specs::LineCode::pattern, crate::specs::LineCode::line_code, crate::specs::Bits::bits, crate::proofs::Tables::values))]
pub fn pattern(nibble: u8) -> [u8; 5]
    ensures { result ≡ code.pattern (nibble % 16) }
{
    let at = (nibble % 16) as usize;
    PATTERNS[at]
}

// The ten slots of the start.
#[tactic(auto, using(std::proofs::lemmas::Bool::Decides::nat_tests), unfolding(crate::specs::Frame::start))]
pub fn start() -> [u8; 10]
    ensures { result ≡ frame.start }
{
    START
}

// Slot k of the start; behind it the line is recessive.
#[tactic(auto, using(std::proofs::lemmas::Bool::Decides::nat_tests, crate::proofs::Laws::any_default), unfolding(crate::specs::Frame::start))]
pub fn start_level(k: u16) -> u8
    ensures { result ≡ get_or frame.start k 1 }
{
    if k < 10 {
        return START[k as usize];
    }
    1
}

// The part that slot k of a frame of n data bytes belongs to.
#[tactic(auto, using(std::proofs::lemmas::Bool::Decides::nat_tests), unfolding(crate::specs::Layout::part_of))]
pub fn part_of(n: u8, k: u16) -> Part
    ensures { result ≡ layout.part_of n k }
{
    if k < 10 {
        return Part::Start;
    }
    if k < 25 {
        return Part::Identifier;
    }
    if k < 30 {
        return Part::Command;
    }
    part_from_data(n, k)
}

// The same, from the data on.
#[tactic(auto, using(std::proofs::lemmas::Bool::Decides::nat_tests), unfolding(crate::specs::Layout::part_of))]
fn part_from_data(n: u8, k: u16) -> Part
    requires { 30 ≤ k }
    ensures { result ≡ layout.part_of n k }
{
    let long = 10 * (n as u16);
    if k < 30 + long {
        return Part::Data;
    }
    if k < 48 + long {
        return Part::Check;
    }
    if k < 50 + long {
        return Part::EndOfData;
    }
    if k < 52 + long {
        return Part::Acknowledge;
    }
    if k < 60 + long {
        return Part::EndOfFrame;
    }
    Part::After
}

// Whether slot k of a frame of n data bytes is plain or a half of a pair.
#[tactic(auto, using(std::proofs::lemmas::Bool::Decides::nat_tests), unfolding(crate::specs::Layout::half_of, crate::specs::Layout::in_five))]
pub fn half_of(n: u8, k: u16) -> Half
    ensures { result ≡ layout.half_of n k }
{
    if k < 10 {
        return Half::Plain;
    }
    if k < 50 + 10 * (n as u16) {
        let place = (k - 10) % 5;
        if place < 3 {
            return Half::Plain;
        }
        if place == 3 {
            return Half::First;
        }
        return Half::Second;
    }
    Half::Plain
}

// Holds the claims on a frame's layout; it does nothing.
pub fn layout_claims()
    ensures { claims.Layout }
{}

// Holds the check of frames captured on real buses; it does nothing.
pub fn check_claims()
    ensures { claims.Checked }
{}
