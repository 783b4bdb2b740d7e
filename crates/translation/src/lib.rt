// What symbolic code does, the machine does on its words. The statements stand in specs/, the way to them in proofs/.
#![tactic(auto)]

ghost use Rattle.translation.specs.Translated.{Translated, PushedInOrder};

/// Where the symbolic code of a script ends, the machine on its words ends so too.
pub fn words_do_what_symbols_do()
    ensures { Translated }
{}

/// Words that are pushed one after the other lie in that order at the front of the stack memory.
pub fn pushed_words_lie_in_order()
    ensures { PushedInOrder }
{}
