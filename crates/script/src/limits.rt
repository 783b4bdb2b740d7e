// The limits of a script's tables.
ghost use Rattle.std.specs.Prelude.{◌≡◌, ◌+◌, ◌<◌, ◌≤◌, ◌&&◌, length, sum};
ghost use Rattle.script.specs.Limits.{max_globals, every, function_fits, functions_fit, global_fits, globals_fit, counts_fit, within_limits};

use crate::{Function, Node};

/// Functions of a script; there is at least one, main.
pub const MAX_FUNCTIONS: usize = 16;
/// Globals of a script.
pub const MAX_GLOBALS: usize = 16;
/// Words of all globals together, and of one.
pub const MAX_WORDS: usize = 64;
/// Nodes of a script; there is at least one.
pub const MAX_NODES: usize = 512;
/// Parameters of a function.
pub const MAX_PARAMETERS: usize = 8;
/// Parameters and further locals of a function.
pub const MAX_LOCALS: usize = 32;
/// How deep an expression or a list of arguments nests.
pub const MAX_NESTING: usize = 24;

fn counts_fit(functions: usize, globals: usize, nodes: usize) -> bool
    ensures { result ≡ counts_fit functions globals nodes }
{
    (1..=MAX_FUNCTIONS).contains(&functions)
        && globals <= MAX_GLOBALS
        && (1..=MAX_NODES).contains(&nodes)
}

fn function_fits(function: &Function, nodes: usize) -> bool
    ensures { result ≡ function_fits nodes function.now }
{
    usize::from(function.parameters) <= MAX_PARAMETERS
        && function.all_locals() <= MAX_LOCALS
        && usize::from(function.body) < nodes
}

fn functions_fit(functions: &[Function], nodes: usize) -> bool
    ensures { result ≡ functions_fit functions.now nodes }
{
    functions
        .iter()
        .all(|function| function_fits(function, nodes))
}

fn global_fits(global: u8) -> bool
    ensures { result ≡ global_fits global }
{
    (1..=MAX_WORDS).contains(&usize::from(global))
}

/// How many words the globals have together.
pub fn words_of(globals: &[u8]) -> usize
    requires { length globals.now ≤ max_globals }
    ensures { result ≡ sum globals.now }
{
    globals.iter().map(|words| usize::from(*words)).sum()
}

fn globals_fit(globals: &[u8]) -> bool
    requires { length globals.now ≤ max_globals }
    ensures { result ≡ globals_fit globals.now }
{
    globals.iter().all(|global| global_fits(*global)) && words_of(globals) <= MAX_WORDS
}

/// Whether every table, count and body's number is within its limits.
#[tactic(auto, unfolding(crate::specs::Limits::within_limits))]
pub(crate) fn within_limits(functions: &[Function], globals: &[u8], nodes: &[Node]) -> bool
    ensures { result ≡ within_limits functions.now globals.now nodes.now }
{
    counts_fit(functions.len(), globals.len(), nodes.len())
        && functions_fit(functions, nodes.len())
        && globals_fit(globals)
}
