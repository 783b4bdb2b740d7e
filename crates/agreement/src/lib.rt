// The code does what the script means. The statement stands in specs/, and joins what the crates below prove.
#![tactic(auto)]

ghost use Rattle.agreement.specs.Agreement.{Agreement};
ghost use Rattle.agreement.specs.Carried.{Carried};

/// For every accepted script the machine on the written code does exactly what the script means, under the same allowance.
pub fn code_agrees_with_meaning()
    ensures { Agreement }
{}

/// The laws of allowances hold of the machine on written code: a run that is not starved is the same under every allowance that
/// covers what it tells, turns or depth are named under every other, and readings under less are a first part.
pub fn allowances_carry_over()
    ensures { Carried }
{}
