// The promises on the definitions; the page itself is specs/Claims.antt. No code runs here: each function's contract states a part of the page.
// What the calls and the codec's code do is said in their own contracts, which the head of the page lists.
#![tactic(auto)]

ghost use Rattle.claims.specs.Claims as claims;

// Holds the numbers refused, and that a refusal changes nothing; it does nothing.
pub fn refusal_claims()
    ensures { claims.Refusals }
{}

// Holds what a session file, good or bad, is read as; it does nothing.
pub fn session_claims()
    ensures { claims.Sessions }
{}

// Holds that encoding and decoding undo each other; it does nothing.
pub fn frame_claims()
    ensures { claims.Frames }
{}

// Holds who takes a frame; it does nothing.
pub fn matching_claims()
    ensures { claims.Matching }
{}

// Holds where a frame's bytes go, and that they go nowhere else; it does nothing.
pub fn storing_claims()
    ensures { claims.Storing }
{}

// Holds what is delivered, acknowledged and reported, for every list of events from a fresh controller; it does nothing.
pub fn receiving_claims()
    ensures { claims.Receiving }
{}

// Holds what every event leaves, for every list of events from a fresh controller; it does nothing.
pub fn event_claims()
    ensures { claims.EveryEvent }
{}

// Holds the claim on the three-wire diagnosis, for every list of events from a fresh controller; it does nothing.
pub fn diagnosis_claims()
    ensures { claims.Diagnosis }
{}

// Holds demand 3, for every list of events from a fresh controller; it does nothing.
pub fn sending_claims()
    ensures { claims.Sending }
{}

// Holds the marked cases P1 to P12, one table; it does nothing.
pub fn marked_cases()
    ensures { claims.Marked }
{}
