// Plays the session on standard input, its first 65,536 bytes at most, and writes its listing.
#![tactic(auto)]

ghost use Rattle.std.specs.Prelude.{◌≡◌, length};

use std::io;
use std::io::{Read, Write};

fn main(rt: HostRuntime) -> io::Result<()> {
    let mut text = [0u8; 65536];
    let n = io::copy(&mut rt.reader().take(65536), &mut &mut text[..])?;
    play(&mut io::writer(&rt), &text[..n.min(65536) as usize])
}

// Room for any listing. Fixed memory, as the session's: no program of this repository allocates.
fn room() -> [u8; player::ROOM]
    ensures { 327840 ≡ length result }
{
    [0; player::ROOM]
}

fn play<W: Write>(out: &mut W, s: &[u8]) -> io::Result<()> {
    let mut listing = room();
    match player::play(s, &mut listing) {
        Some(n) => out.write_all(&listing[..n]),
        None => Ok(()),
    }
}
