// Code that is not yet words, run item by item, and what a script must be like for that. Both stand in specs/.
#![tactic(auto)]
