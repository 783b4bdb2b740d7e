// What a script means stands in specs/; here are its laws. No code runs a tree: what is proved of compiled code is proved against these.
#![tactic(auto)]

ghost use Rattle.meaning.specs.Laws.{FreeRuns, FirstPart, Allowed, NeverOut};
ghost use Rattle.meaning.specs.Examples.{Examples, Endless};

/// Allowances that do not starve a run all give one record, and it says what suffices.
pub fn free_runs_agree()
    ensures { FreeRuns }
{}

/// A run that is allowed less prints the first part of what it prints when allowed more.
pub fn readings_begin_alike()
    ensures { FirstPart }
{}

/// No run takes more turns or depth than allowed.
pub fn allowances_bind()
    ensures { Allowed }
{}

/// What the definition recurses on, besides the tree, is enough for every run.
pub fn recursion_suffices()
    ensures { NeverOut }
{}

/// The definition gives what is known of some small scripts.
pub fn examples_hold()
    ensures { Examples }
{}

/// A script may have no free run.
pub fn endless_runs_starve()
    ensures { Endless }
{}
