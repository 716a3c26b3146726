// The check of a frame: the remainder, divided a byte or a nibble at a time from a table (01, Frames on the line; 02, Req 03).
// To divide several bits at once, those that leave the remainder and those that come are added without carry. The table has the remainder of this sum.
// It is added, without carry too, to the bits that stay, shifted.
#![tactic(auto)]

mod byte_remainders;

ghost use Rattle.std.specs.Prelude.{◌≡◌, ◌∷◌, ◌≤◌, ◌<◌, ◌%◌, ◌^◌};
ghost use Rattle.line.specs.Bits as bits;
ghost use Rattle.line.specs.Check as check;
ghost use Rattle.line.specs.Frame as frame;

use byte_remainders::BYTE_REMAINDERS;

// The remainder that division starts from, and what its complement is taken from.
pub const ALL_ONES: u16 = 0x7FFF;

// The remainder of a byte, from 0.
#[tactic(auto, using(std::proofs::lemmas::Bool::Decides::nat_tests, line::proofs::Tables::at), unfolding(line::specs::Check::remainder, line::specs::Check::check_bit, line::specs::Check::polynomial, line::specs::Bits::bits, line::proofs::Tables::values))]
fn byte_entry(byte: u8) -> u16
    ensures { result ≡ check.remainder 0 (bits.bits 8 byte) }
{
    BYTE_REMAINDERS[byte as usize]
}

// The remainder once the low WIDTH bits of a number are divided.
#[tactic(auto, using(std::proofs::lemmas::Bool::Decides::nat_tests, crate::proofs::Widths::entry_below, crate::proofs::Widths::by_entry))]
fn divided<const WIDTH: u16>(remainder: u16, number: u8) -> u16
    requires { (WIDTH ≤ 8) × (remainder < 2 ^ 15) }
    ensures { result ≡ check.remainder remainder (bits.bits WIDTH number) }
{
    let stay = 15 - WIDTH;
    let leaving = remainder >> stay;
    let sum = (leaving ^ number as u16) % (1 << WIDTH);
    remainder % (1 << stay) << WIDTH ^ byte_entry(sum as u8)
}

// The remainder once the four bits of a nibble are divided. A remainder has fifteen bits: of a larger number the low fifteen are taken.
#[tactic(auto, using(std::proofs::lemmas::Bool::Decides::nat_tests))]
pub fn nibble_divided(remainder: u16, nibble: u8) -> u16
    ensures { result ≡ check.remainder (remainder % 2 ^ 15) (bits.bits 4 nibble) }
{
    divided::<4>(remainder % 32768, nibble)
}

// The remainder once all bytes of a slice are divided.
#[tactic(auto, using(std::proofs::lemmas::Bool::Decides::nat_tests, line::proofs::Laws::remainder_below, line::proofs::Laws::bytes_next, line::proofs::Laws::bytes_end))]
fn bytes_divided(remainder: u16, bytes: &[u8]) -> u16
    requires { remainder < 2 ^ 15 }
    ensures { result ≡ check.remainder remainder (frame.byte_bits bytes.now) }
{
    let mut r = remainder;
    for byte in bytes {
        r = divided::<8>(r, *byte);
    }
    r
}

// The check over a row of bytes.
#[tactic(auto, using(std::proofs::lemmas::Bool::Decides::nat_tests, line::proofs::Laws::remainder_below), unfolding(line::specs::Check::check, line::specs::Check::all_ones))]
pub fn check_of(bytes: &[u8]) -> u16
    ensures value { result ≡ check.check (frame.byte_bits bytes.now) }
    ensures range { result < 32768 }
{
    ALL_ONES - bytes_divided(ALL_ONES, bytes)
}

// The check over two bytes and a row of bytes behind them.
#[tactic(auto, using(std::proofs::lemmas::Bool::Decides::nat_tests, line::proofs::Laws::remainder_below, line::proofs::Laws::remainder_append), unfolding(line::specs::Check::check, line::specs::Check::all_ones, line::specs::Frame::byte_bits))]
pub fn check_behind(first: u8, second: u8, bytes: &[u8]) -> u16
    ensures { result ≡ check.check (frame.byte_bits (first ∷ second ∷ bytes.now)) }
{
    let one = divided::<8>(ALL_ONES, first);
    let two = divided::<8>(one, second);
    ALL_ONES - bytes_divided(two, bytes)
}
