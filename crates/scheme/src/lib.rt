// How a script is written as code stands in specs/; here are the facts about it. No code writes here: what the writer leaves is proved against these.
#![tactic(auto)]

ghost use Rattle.scheme.specs.Laws.{LabelsStay, JumpsForward, JumpsBack, LabelsFound, LengthsAgree, NumbersDecode};
ghost use Rattle.scheme.specs.Examples.{Examples};

/// Labelled code is neither dropped nor changed by what is written before it.
pub fn labels_stay()
    ensures { LabelsStay }
{}

/// A jump that is not to the start of a while goes forward, to a label.
pub fn jumps_go_forward()
    ensures { JumpsForward }
{}

/// A jump to the start of a while goes back to it, or to itself.
pub fn jumps_go_back()
    ensures { JumpsBack }
{}

/// Whiles start and functions enter where the positions say.
pub fn labels_are_found()
    ensures { LabelsFound }
{}

/// There is a mark for each word, and an entry for each function.
pub fn lengths_agree()
    ensures { LengthsAgree }
{}

/// The numbers written are those that the machine knows.
pub fn numbers_decode()
    ensures { NumbersDecode }
{}

/// The definition gives the code that is known of a small script.
pub fn example_stands()
    ensures { Examples }
{}
