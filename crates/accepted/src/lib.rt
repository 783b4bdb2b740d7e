// Tables that the check accepts hold a script as the proof of agreement asks for it. No code: what is proved stands in the contract.
#![tactic(auto)]

ghost use Rattle.accepted.specs.Accepted.{AcceptedAreProper};

/// What the script in accepted tables can be relied on for. It does nothing: its contract is the theorem.
pub fn accepted_scripts_are_proper()
    ensures { AcceptedAreProper }
{}
