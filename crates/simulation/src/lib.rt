// What symbolic code does, against what the script means. The statement stands in specs/, the way to it in proofs/; no code runs here.
#![tactic(auto)]

ghost use Rattle.simulation.specs.Simulated.{Simulated};
ghost use Rattle.simulation.specs.Nesting.{Roomy};

/// The code that is written for a script, run item by item, ends as the script does under the same allowance.
pub fn scripts_run_symbolically()
    ensures { Simulated }
{}

/// How deep an expression nests bounds the words that it needs.
pub fn nesting_bounds_words()
    ensures { Roomy }
{}
