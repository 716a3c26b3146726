// Number 6: every number of the state is at most its largest (01, Numbers refused).
#![tactic(auto)]

ghost use Rattle.std.specs.Prelude.{◌≡◌};
ghost use Rattle.rules.specs.Definitions.State as rule;
ghost use Rattle.rules.specs.Definitions.Answers as answers;

use registers::Map;
use rules::Core;

// A row a line, in the order of `ranges`. The rows are joined by `&`: `&&` was tried, and the proof did not close (goal `returns`).
#[tactic(auto, using(std::proofs::lemmas::Bool::Decides::nat_tests, registers::proofs::Dividers::one_slot, crate::proofs::Rows::joined_within), unfolding(rules::specs::Definitions::State::in_range, rules::specs::Definitions::State::ranges, line::specs::Frame::size))]
pub fn in_range(m: &[u8; 256], k: &Core) -> bool
    ensures { result ≡ rule.in_range (answers.controller m.now k.now) }
{
    let divider = Map::divider(m[Map::DIAGNOSIS_CONTROL]);
    (k.report.sending.count <= 15)
        & (k.report.sending.channel <= 13)
        & (k.report.message.count <= 15)
        & (k.report.message.channel <= 13)
        & (k.report.error <= 32)
        & (k.line.count <= 12)
        & (k.reception.place.at <= 9)
        & (k.reception.nibbles <= 7 + 2 * line::LONGEST)
        & (k.reception.bits <= 15)
        & (k.reception.winner.channel <= 13)
        & (k.reception.winner.pointer <= 127)
        & (k.reception.winner.length <= 31)
        & (k.service.channel <= 13)
        & (k.service.effort.frame.n <= line::LONGEST)
        & (k.service.effort.setting <= 15)
        & (k.service.effort.progress.at <= 60 + 10 * (line::LONGEST as u16) - 1)
        & (k.service.effort.counters.errors.0 <= 15)
        & (k.reply.channel <= 13)
        & (k.reply.at <= 60 + 10 * (line::LONGEST as u16) - 1)
        & (k.reply.frame.n <= line::LONGEST)
        & (k.diagnosis.levels <= 7)
        & (k.diagnosis.dominant <= 8)
        & (k.diagnosis.period.slots <= divider - 1)
        & (k.diagnosis.period.rxd1 <= 4)
        & (k.diagnosis.period.rxd2 <= 4)
        & (k.diagnosis.period.connected <= 4)
}
