// What the listing of a session is (01, Session and listing): its definition, what a player answers, and the claims on its lines.
#![tactic(auto)]

ghost use Rattle.bench_record.specs.Claims.{FirstLines, LinesStand, BadLines};

// Claim: the lines of the first events are the same whatever follows their bytes, and the lines before a `bad` whatever follows its place.
pub fn first_lines()
    ensures first { FirstLines }
    ensures fault { LinesStand }
{}

// Claim: the line of a session's fault, with its place and how many bytes were looked at there.
pub fn bad_lines()
    ensures { BadLines }
{}
