// Unsigned LEB128, shortest form, at most three groups: the number format of a session.
#![tactic(auto)]

ghost use Rattle.std.specs.Prelude.{◌≡◌, ◌+◌, ◌^◌, ◌<◌, ◌≤◌, length, MatchResult};
ghost use Rattle.leb128.specs.Leb128 as rule;
ghost use Rattle.leb128.specs.Cases.{Cases};

// Why there is no number.
#[derive(Clone, Copy, Debug, PartialEq, Eq)]
pub enum Refusal {
    Cut,
    NotShortest,
    TooLarge,
}

// A value, how many bytes it used, and the bytes that follow it.
#[derive(Clone, Copy, Debug)]
pub struct Number<'a> {
    pub value: u16,
    pub used: usize,
    pub rest: &'a [u8],
}

// Why there is no number, and how many bytes were looked at.
#[derive(Clone, Copy, Debug, PartialEq, Eq)]
pub struct BadNumber {
    pub why: Refusal,
    pub looked: usize,
}

// Reads the number at the start of s; the bytes that follow it are handed back.
#[tactic(auto, unfolding(crate::specs::Leb128::decode))]
pub fn read(s: &[u8]) -> Result<Number<'_>, BadNumber>
    ensures number { rule.parsed result ≡ rule.decode s.now }
    ensures within { MatchResult result (λ n. n.used + length n.rest.now ≡ length s.now) (λ e. e.looked ≤ length s.now) }
{
    groups(s, 3)
}

// Reads at most `left` groups: each further group by the same rule on what remains.
#[tactic(auto, using(std::proofs::lemmas::Bool::Decides::nat_tests), unfolding(crate::specs::Leb128::groups, crate::specs::Leb128::before))]
fn groups(s: &[u8], left: u8) -> Result<Number<'_>, BadNumber>
    ensures number { rule.parsed result ≡ rule.groups left s.now }
    ensures within { MatchResult result (λ n. n.used + length n.rest.now ≡ length s.now) (λ e. e.looked ≤ length s.now) }
{
    if left == 0 {
        return Err(BadNumber {
            why: Refusal::TooLarge,
            looked: 0,
        });
    }
    let Some((first, rest)) = s.split_first() else {
        return Err(BadNumber {
            why: Refusal::Cut,
            looked: 0,
        });
    };
    if *first < 128 {
        return Ok(Number {
            value: u16::from(*first),
            used: 1,
            rest,
        });
    }
    match groups(rest, left - 1) {
        Ok(higher) => join(*first, higher),
        Err(bad) => Err(BadNumber {
            looked: bad.looked + 1,
            ..bad
        }),
    }
}

// The group `first` before those of a value: the whole value, or why there is none.
#[tactic(auto, using(std::proofs::lemmas::Bool::Decides::nat_tests), unfolding(crate::specs::Leb128::before))]
fn join(first: u8, higher: Number<'_>) -> Result<Number<'_>, BadNumber>
    requires { higher.used < 2 ^ 63 }
    ensures number { rule.parsed result ≡ rule.before first (rule.Value higher.entry.value higher.entry.used higher.entry.rest.now) }
    ensures within { MatchResult result (λ n. n.used + length n.rest.now ≡ higher.entry.used + length higher.entry.rest.now + 1) (λ e. e.looked ≡ higher.entry.used + 1) }
{
    let used = higher.used + 1;
    if higher.value == 0 {
        return Err(BadNumber {
            why: Refusal::NotShortest,
            looked: used,
        });
    }
    match u16::try_from(u32::from(higher.value) * 128 + u32::from(first % 128)) {
        Err(_) => Err(BadNumber {
            why: Refusal::TooLarge,
            looked: used,
        }),
        Ok(value) => Ok(Number {
            value,
            used,
            ..higher
        }),
    }
}

// Claim: the cases of specs/Cases.antt. What holds of every number is stated in crate claims.
fn cases()
    ensures { Cases }
{}
