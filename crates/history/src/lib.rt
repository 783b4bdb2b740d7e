// Histories of lists of calls: what the definition says that each call does, and what is promised of a station's entries.
//
// The definitions stand in specs/. No code of a station is read here: the promises are proved of every list of entries
// that comes from runs under the calls' own allowances.
#![tactic(auto)]

ghost use Rattle.history.specs.Promises.{Promised, Once};

use answer::{Answer, Refusal};

/// What a call said.
#[derive(Clone, Copy, PartialEq, Eq, Debug)]
pub enum Said {
    /// A load was accepted, or the globals were cleared.
    Done,
    /// The call was refused, and changed nothing.
    Refused(Refusal),
    /// A pass was run.
    Answered(Answer),
}

/// Entries that come from runs under the calls' own allowances keep the promises, whatever the list of calls.
pub fn histories_keep_their_promises()
    ensures { Promised }
{}

/// Every list of calls has exactly one history.
pub fn histories_are_single()
    ensures { Once }
{}
