// Closed runs of the rules, beside those that an edit of crates/rules needs. No code runs here.
#![tactic(auto)]

ghost use Rattle.closed_runs.specs.Claims as claims;

// Holds the closed runs; it does nothing.
pub fn run_claims()
    ensures received { claims.Received }
    ensures runs { claims.Runs }
    ensures courses { claims.MoreCourses }
{}
