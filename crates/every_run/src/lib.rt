// The claims over every run of events. No code runs here: each function's contract states a claim.
#![tactic(auto)]

ghost use Rattle.every_run.specs.Claims as claims;
ghost use Rattle.every_run.specs.OwnFrames as own;
ghost use Rattle.every_run.specs.Interrupts as interrupts;
ghost use Rattle.every_run.specs.Wires as wires;

// Holds the claims on refusals; it does nothing.
pub fn refusal_claims()
    ensures { claims.Refusals }
{}

// Holds demand 3, for every list of events from a fresh controller; it does nothing.
pub fn sending_claims()
    ensures { claims.Sending }
{}

// Holds what every event leaves, for every list of events from a fresh controller; it does nothing.
pub fn event_claims()
    ensures { claims.EveryEvent }
{}

// Holds what is delivered and acknowledged, for every list of events from a fresh controller; it does nothing.
pub fn receiving_claims()
    ensures { claims.Receiving }
{}

// Holds the claim on the model's own frames, for every list of events from a fresh controller; it does nothing.
pub fn own_claims()
    ensures { own.OwnFrames }
{}

// Holds the claim on the interrupt line and the six status bits; it does nothing.
pub fn interrupt_claims()
    ensures { interrupts.Interrupts }
{}

// Holds the claim on the three-wire diagnosis, for every list of events from a fresh controller; it does nothing.
pub fn diagnosis_claims()
    ensures { wires.Diagnosed }
{}
