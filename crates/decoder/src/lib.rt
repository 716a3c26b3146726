// From slots to a frame, left to right: the first fault is the answer.
#![tactic(auto)]

ghost use Rattle.std.specs.Prelude.{◌≡◌, ◌+◌, ◌*◌, ◌/◌, ◌%◌, ◌≤◌, leb, length, drop, true, false, MatchResult};
ghost use Rattle.std.specs.List.{list_all};
ghost use Rattle.line.specs.Bits as bits;
ghost use Rattle.line.specs.Check as check;
ghost use Rattle.line.specs.Frame as frame;
ghost use Rattle.codec.specs.Decode as rule;
ghost use Rattle.codec.specs.declared.Refusal.TheVariants as refusal;
ghost use Rattle.decoder.specs.View as view;

use codec::{Head, Refusal};

// The most whole nibbles before the last three bits of the check.
const MOST_NIBBLES: usize = line::MOST_NIBBLES as usize;

// Slots of which every one is 0 or 1.
#[derive(Clone, Copy)]
struct Slots<'a> {
    levels: &'a [u8],
    ghost binary: { rule.levels levels.now ≡ true },
}

// Every slot is 0 or 1.
fn are_levels(s: &[u8]) -> bool
    ensures { result ≡ list_all (λ x. leb x 1) s.now }
{
    s.iter().all(|level| *level <= 1)
}

// An odd number of whole nibbles, from 7 to the most.
#[tactic(auto, using(std::proofs::lemmas::Bool::Decides::nat_tests), unfolding(codec::specs::Decode::whole, codec::specs::Decode::most))]
fn whole(j: usize) -> bool
    ensures { result ≡ rule.whole frame.longest_data j }
{
    j % 2 == 1 && 7 <= j && j <= MOST_NIBBLES
}

impl<'a> Slots<'a> {
    #[tactic(auto, using(std::proofs::lemmas::Bool::Decides::nat_tests, crate::proofs::Views::levels_all))]
    fn new(levels: &'a [u8]) -> Result<Self, Refusal>
        ensures { MatchResult result (λ s. s.levels.now ≡ levels.now) (λ r. (r ≡ refusal.Level) × (rule.levels levels.now ≡ false)) }
    {
        if are_levels(levels) {
            Ok(Slots { levels })
        } else {
            Err(Refusal::Level)
        }
    }

    // Slots from `at` on that must be as written. Answers where the next part begins.
    #[tactic(auto, using(std::proofs::lemmas::Bool::Decides::nat_tests, crate::proofs::Views::expected_next, crate::proofs::Views::expected_cut, crate::proofs::Views::expected_end))]
    fn expected(&self, at: usize, pattern: &[u8], refusal: Refusal) -> Result<usize, Refusal>
        requires { at ≤ length self.now.levels.now }
        ensures { view.Follows self.now.levels.now (at + length pattern.now) result (rule.expected refusal pattern.now (drop at self.now.levels.now)) }
    {
        for (k, level) in pattern.iter().enumerate() {
            match self.levels.get(at + k) {
                None => return Err(Refusal::CutShort),
                Some(slot) if *slot == *level => {}
                Some(_) => return Err(refusal),
            }
        }
        Ok(at + pattern.len())
    }

    // Three plain bits behind j whole nibbles. Answers the number of whole nibbles before the end of data.
    #[cycle(pair_plain_run)]
    fn plain_run(&self, j: usize) -> Result<usize, Refusal>
        requires { 10 + 5 * j ≤ length self.now.levels.now }
        ensures { view.Ends self.now.levels.now result (rule.plain_run frame.longest_data (drop (10 + 5 * j) self.now.levels.now) (view.view self.now.levels.now 0 (4 * j))) }
    {
        if self.levels.len() - (10 + 5 * j) < 3 {
            return Err(Refusal::CutShort);
        }
        self.pair(j)
    }

    // A bit and its opposite behind j whole nibbles and three plain bits.
    #[cycle(pair_plain_run)]
    fn pair(&self, j: usize) -> Result<usize, Refusal>
        requires { 13 + 5 * j ≤ length self.now.levels.now }
        ensures { view.Ends self.now.levels.now result (rule.pair_at frame.longest_data (drop (13 + 5 * j) self.now.levels.now) (view.seen_bits self.now.levels.now j)) }
    {
        let at = 13 + 5 * j;
        if self.levels.len() - at < 2 {
            return Err(Refusal::CutShort);
        }
        let a = self.levels[at];
        if a == self.levels[at + 1] {
            return if a == 0 { Ok(j) } else { Err(Refusal::Pair) };
        }
        if MOST_NIBBLES <= j {
            return Err(Refusal::Length);
        }
        self.plain_run(j + 1)
    }

    // The number that `width` bits from place i on write.
    #[tactic(auto, using(std::proofs::lemmas::Bool::Decides::nat_tests, codec::proofs::RoundTrip::below_levels, crate::proofs::Views::slot_below, crate::proofs::Views::value_small, crate::proofs::Views::value_next))]
    fn value_at(&self, i: usize, width: usize) -> u16
        requires { (width ≤ 15) × (10 + (i + width) + (i + width) / 4 ≤ length self.now.levels.now) }
        ensures { result ≡ bits.bits_value (view.view self.now.levels.now i width) }
    {
        let mut x: u16 = 0;
        for k in 0..width {
            let at = i + k;
            x = x * 2 + self.levels[10 + at + at / 4] as u16;
        }
        x
    }

    // The remainder of the first nibbles, as many as asked.
    #[tactic(auto, using(std::proofs::lemmas::Bool::Decides::nat_tests, line::proofs::Laws::remainder_below, codec::proofs::RoundTrip::below_levels, crate::proofs::Views::remainder_next, crate::proofs::Views::value_view))]
    fn remainder_of(&self, nibbles: usize) -> u16
        requires { 10 + 5 * nibbles ≤ length self.now.levels.now }
        ensures { result ≡ check.remainder check.all_ones (view.view self.now.levels.now 0 (4 * nibbles)) }
    {
        let mut r = frame_check::ALL_ONES;
        for k in 0..nibbles {
            r = frame_check::nibble_divided(r, self.value_at(4 * k, 4) as u8);
        }
        r
    }

    // The last fifteen of the bits of j whole nibbles and three plain bits are the check of those before them.
    #[tactic(auto, using(std::proofs::lemmas::Bool::Decides::nat_tests, line::proofs::Laws::remainder_below, crate::proofs::Views::right_view), unfolding(line::specs::Check::all_ones))]
    fn right(&self, j: usize) -> bool
        requires { (3 ≤ j) × (15 + 5 * j ≤ length self.now.levels.now) }
        ensures { result ≡ rule.right (view.seen_bits self.now.levels.now j) }
    {
        let covered = j - 3;
        self.value_at(4 * covered, 15) == frame_check::ALL_ONES - self.remainder_of(covered)
    }

    // The acknowledge slots from `at` on.
    #[tactic(auto, using(std::proofs::lemmas::Bool::Decides::nat_tests, std::proofs::lemmas::List::take_rest, crate::proofs::Views::ack_empty))]
    fn acknowledged(&self, at: usize) -> Result<bool, Refusal>
        requires { at ≤ length self.now.levels.now }
        ensures { view.Sees self.now.levels.now (at + 2) result (rule.acknowledged (drop at self.now.levels.now)) }
    {
        match &self.levels[at..] {
            [] => Err(Refusal::CutShort),
            [first, ..] if *first != 1 => Err(Refusal::Acknowledge),
            [_] => Err(Refusal::CutShort),
            [_, second, ..] => Ok(*second == 0),
        }
    }

    #[tactic(auto, using(std::proofs::lemmas::Bool::Decides::nat_tests, codec::proofs::RoundTrip::below_levels, crate::proofs::Views::head_seen, crate::proofs::Views::value_view))]
    fn head_of(&self, j: usize, acknowledge: bool) -> Head
        requires { (15 + 5 * j ≤ length self.now.levels.now) × (7 ≤ j) × (j ≤ 7 + 2 * frame.longest_data) }
        ensures { result ≡ rule.head_of (rule.frame_of (view.seen_bits self.now.levels.now j) acknowledge) }
    {
        Head {
            identifier: self.value_at(0, 12),
            command: self.value_at(12, 4) as u8,
            count: ((j - 7) / 2) as u8,
            acknowledge,
        }
    }

    // What follows the end of data behind j whole nibbles.
    #[tactic(auto, using(std::proofs::lemmas::Bool::Decides::nat_tests, crate::proofs::Views::not_seen, crate::proofs::Views::not_ended, crate::proofs::Views::goes_on, crate::proofs::Views::is_whole, crate::proofs::Views::gives), unfolding(line::specs::Frame::end_of_frame))]
    fn closing(&self, j: usize) -> Result<Head, Refusal>
        requires { (15 + 5 * j ≤ length self.now.levels.now) × (7 ≤ j) × (j ≤ 7 + 2 * frame.longest_data) × (j % 2 ≡ 1) }
        ensures { view.Gives self.now.levels.now result (rule.closing (view.seen_bits self.now.levels.now j) (drop (15 + 5 * j) self.now.levels.now)) }
    {
        let acknowledge = self.acknowledged(15 + 5 * j)?;
        let end = self.expected(17 + 5 * j, &[1; 8], Refusal::EndOfFrame)?;
        if end < self.levels.len() {
            return Err(Refusal::LeftOver);
        }
        Ok(self.head_of(j, acknowledge))
    }

    // The length, then the check, then what follows.
    #[tactic(auto, using(std::proofs::lemmas::Bool::Decides::nat_tests, crate::proofs::Views::whole_odd, crate::proofs::Views::judged_seen))]
    fn judged(&self, j: usize) -> Result<Head, Refusal>
        requires { 15 + 5 * j ≤ length self.now.levels.now }
        ensures { view.Gives self.now.levels.now result (rule.judged frame.longest_data (view.seen_bits self.now.levels.now j) (drop (15 + 5 * j) self.now.levels.now)) }
    {
        if !whole(j) {
            return Err(Refusal::Length);
        }
        if !self.right(j) {
            return Err(Refusal::Check);
        }
        self.closing(j)
    }

    // The frame's head.
    #[tactic(auto, using(std::proofs::lemmas::Bool::Decides::nat_tests, crate::proofs::Views::bad_start, crate::proofs::Views::bad_code, crate::proofs::Views::coded, crate::proofs::Views::begun), unfolding(line::specs::Frame::start, crate::specs::View::view))]
    fn head(&self) -> Result<Head, Refusal>
        ensures { view.Gives self.now.levels.now result (rule.reading frame.longest_data self.now.levels.now) }
    {
        self.expected(0, &line::start(), Refusal::Start)?;
        let j = self.plain_run(0)?;
        self.judged(j)
    }

    // The data bytes, as many as there is room for.
    #[tactic(auto, using(std::proofs::lemmas::Bool::Decides::nat_tests, codec::proofs::RoundTrip::below_levels, crate::proofs::Views::value_view, crate::proofs::Views::fill_next, crate::proofs::Views::fill_end))]
    fn fill(&self, room: &mut [u8])
        requires { 60 + 10 * length room.old ≤ length self.now.levels.now }
        ensures { room.new ≡ view.bytes_at self.now.levels.now 16 (length room.old) }
    {
        for (k, byte) in room.iter_mut().enumerate() {
            *byte = self.value_at(16 + 8 * k, 8) as u8;
        }
    }
}

// The frame that the slots are, its data bytes in the lent room; or why they are none.
#[tactic(auto, using(std::proofs::lemmas::Bool::Decides::nat_tests, crate::proofs::Views::bad_level, crate::proofs::Views::room_refused, crate::proofs::Views::room_short, crate::proofs::Views::room_filled))]
pub fn decode(slots: &[u8], room: &mut [u8]) -> Result<Head, Refusal>
    ensures answer { result ≡ rule.decoded (length room.old) (rule.reading frame.longest_data slots.now) }
    ensures room { room.new ≡ rule.decoded_room room.old (rule.reading frame.longest_data slots.now) }
{
    let slots = Slots::new(slots)?;
    let head = slots.head()?;
    let n = head.count as usize;
    if room.len() < n {
        return Err(Refusal::Room);
    }
    slots.fill(&mut room[..n]);
    Ok(head)
}
