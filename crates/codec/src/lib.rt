// What encoding and decoding answer, and the claims on them; the code is in encoder and decoder. A slot is a byte.
#![tactic(auto)]

ghost use Rattle.std.specs.Prelude.{◌≡◌, ℕ};
ghost use Rattle.codec.specs.Answer as answer;
ghost use Rattle.codec.specs.Claims as claims;

// Why a frame or a slot sequence is refused.
#[derive(Clone, Copy, Debug, PartialEq, Eq)]
pub enum Refusal {
    Level,
    Identifier,
    Command,
    Bytes,
    Room,
    Start,
    Pair,
    Length,
    Check,
    Acknowledge,
    EndOfFrame,
    CutShort,
    LeftOver,
}

// What a decoded frame holds beside its data bytes, and how many those are.
#[derive(Clone, Copy, Debug, PartialEq, Eq)]
pub struct Head {
    pub identifier: u16,
    pub command: u8,
    pub count: u8,
    pub acknowledge: bool,
}

// 01's number of a refusal.
impl From<Refusal> for u8 {
    ghost from_gives = { λ why r. r ≡ answer.number why };

    #[tactic(auto, using(std::proofs::lemmas::Bool::Decides::nat_tests), unfolding(crate::specs::Answer::number))]
    fn from(refusal: Refusal) -> Self {
        match refusal {
            Refusal::Level => 5,
            Refusal::Identifier => 10,
            Refusal::Command => 11,
            Refusal::Bytes => 12,
            Refusal::Room => 13,
            Refusal::Start => 20,
            Refusal::Pair => 21,
            Refusal::Length => 22,
            Refusal::Check => 23,
            Refusal::Acknowledge => 24,
            Refusal::EndOfFrame => 25,
            Refusal::CutShort => 26,
            Refusal::LeftOver => 27,
        }
    }
}

// Holds the claims on the codec, for every longest length; it does nothing.
pub fn codec_claims()
    ensures { (longest : ℕ) → claims.Codec longest }
{}
