// Where in the frame the line stands, and what the model is in it (01, Receiving; 02, Req 01).
#![tactic(auto)]

ghost use Rattle.std.specs.Prelude.{◌≡◌, ◌+◌, ◌*◌, ◌/◌, ◌%◌};
ghost use Rattle.rules.specs.Definitions.Reception as rule;
ghost use Rattle.rules.specs.Definitions.Service as service_rule;

use rules::{Phase, Place, Progress, Reception, Role};

// Whether a frame, start included, is under way: RXG.
#[tactic(auto, using(std::proofs::lemmas::Bool::Decides::nat_tests), unfolding(rules::specs::Definitions::Reception::under_way, rules::specs::Definitions::Reception::is_under_way))]
pub fn under_way(p: Place) -> bool
    ensures { result ≡ rule.under_way p }
{
    !matches!(p.phase, Phase::Quiet)
}

// Sender from its first driven slot on; asker once its request is answered; replier; receiver of any other frame under way.
#[tactic(auto, using(std::proofs::lemmas::Bool::Decides::nat_tests), unfolding(rules::specs::Definitions::Service::role_of))]
pub fn role_of(p: Progress, replies: bool, here: Place) -> Role
    ensures { result ≡ service_rule.role_of p replies here }
{
    if stage::drives_frame(p) {
        return Role::Sender;
    }
    if stage::is_answered(p) {
        return Role::Asker;
    }
    if replies {
        return Role::Replier;
    }
    if under_way(here) {
        return Role::Receiver;
    }
    Role::Nobody
}

// A frame of another module, the answer to the model's own request among them.
#[tactic(auto, using(std::proofs::lemmas::Bool::Decides::nat_tests), unfolding(rules::specs::Definitions::Service::receives))]
pub fn receives(x: Role) -> bool
    ensures { result ≡ service_rule.receives x }
{
    matches!(x, Role::Receiver | Role::Asker)
}

// Whether the place lies between identifier and end of data.
#[tactic(auto, using(std::proofs::lemmas::Bool::Decides::nat_tests), unfolding(rules::specs::Definitions::Reception::in_body, rules::specs::Definitions::Reception::is_body))]
fn in_body(p: Place) -> bool
    ensures { result ≡ rule.in_body p }
{
    matches!(p.phase, Phase::Body)
}

// Whether the frame stands between two nibbles, with so many whole.
#[tactic(auto, using(std::proofs::lemmas::Bool::Decides::nat_tests), unfolding(rules::specs::Definitions::Reception::behind))]
fn behind(r: &Reception, whole: u8) -> bool
    ensures { result ≡ rule.behind r.now whole }
{
    in_body(r.place) && r.nibbles == whole && r.place.at == 0
}

// Whether a clean start sequence has just ended: the next slot is the identifier's first.
#[tactic(auto, using(std::proofs::lemmas::Bool::Decides::nat_tests), unfolding(rules::specs::Definitions::Reception::start_ended))]
pub fn start_ended(r: &Reception) -> bool
    ensures { result ≡ rule.start_ended r.now }
{
    behind(r, 0)
}

// Whether the last command slot has just been taken: identifier and command are four nibbles.
#[tactic(auto, using(std::proofs::lemmas::Bool::Decides::nat_tests), unfolding(rules::specs::Definitions::Reception::command_ended))]
pub fn command_ended(r: &Reception) -> bool
    ensures { result ≡ rule.command_ended r.now }
{
    behind(r, 4)
}

// Whether R/W has just been taken, in a frame with EXT 1 and R/W 1: three bits of the fourth nibble.
#[tactic(auto, using(std::proofs::lemmas::Bool::Decides::nat_tests), unfolding(rules::specs::Definitions::Reception::reads_asked))]
pub fn reads_asked(r: &Reception) -> bool
    ensures { result ≡ rule.reads_asked r.now }
{
    in_body(r.place) && r.nibbles == 3 && r.place.at == 3 && r.bits / 4 % 2 == 1 && r.bits % 2 == 1
}

// Byte 1 of a reply: the identifier bits heard, EXT 1, the RAK among the bits of the nibble under way, R/W 1, RTR 0.
fn answering(heard: u8, bits: u8) -> u8
    ensures { result ≡ heard / 16 * 16 + 8 + bits / 2 % 2 * 4 + 2 }
{
    heard / 16 * 16 + 8 + bits / 2 % 2 * 4 + 2
}

// Byte 1 of a reply to it: identifier bits 3 to 0, EXT 1, RAK as heard, R/W 1, RTR 0.
#[tactic(auto, using(std::proofs::lemmas::Bool::Decides::nat_tests), unfolding(rules::specs::Definitions::Reception::reply_low))]
pub fn reply_low(r: &Reception) -> u8
    ensures { result ≡ rule.reply_low r.now }
{
    answering(r.bytes[1], r.bits)
}
