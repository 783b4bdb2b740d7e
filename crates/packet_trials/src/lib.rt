// Worked packets and boards, with answers taken from the fields' definitions.
#![tactic(auto)]

#[cfg(test)]
mod boards;
#[cfg(test)]
mod inputs;
#[cfg(test)]
mod outputs;
