// What runs and code stay within. The statements stand in specs/; those who keep marks and globals in memory of a fixed size go by them.
#![tactic(auto)]

ghost use Rattle.bounds.specs.Bounds.{MarksFit, GlobalsStay};

/// Each mark of an accepted script's code is the number of a node, or that of no place.
pub fn marks_fit()
    ensures { MarksFit }
{}

/// A run neither adds nor drops globals.
pub fn globals_stay()
    ensures { GlobalsStay }
{}
