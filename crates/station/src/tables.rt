// What a load writes into the tables that it is lent, and takes over from a compiler.
ghost use Rattle.std.specs.Prelude.{◌≡◌, ◌<◌, ◌≤◌, map, length};
ghost use Rattle.script.specs.Scope.{function_at};
ghost use Rattle.station.specs.Filled.{narrowed, Filled};

use answer::NO_PLACE;
use rules::CODE_LIMIT;
use script::Function;

/// A mark or a position in 16 bits; no greater one is ever written.
fn narrow(n: usize) -> u16
    ensures { result ≡ narrowed n }
{
    u16::try_from(n).unwrap_or(NO_PLACE as u16)
}

/// Marks as they are kept.
pub(crate) fn narrow_marks(marks: [usize; CODE_LIMIT]) -> [u16; CODE_LIMIT]
    ensures { result ≡ map narrowed marks }
{
    marks.map(narrow)
}

/// Fills each function's entry position in.
#[tactic(auto, using(crate::proofs::Narrow::filled_narrowed))]
pub(crate) fn fill_entries(functions: &mut [Function], entries: &[usize])
    requires { length functions.old ≤ length entries.now }
    ensures { Filled (map narrowed entries.now) functions.old functions.new }
{
    // There are more entries than functions; the number goes to both.
    for (f, function) in functions.iter_mut().enumerate() {
        function.entry = narrow(entries[f]);
    }
}

/// How many inputs main takes.
pub(crate) fn main_inputs(functions: &[Function]) -> usize
    requires { 0 < length functions.now }
    ensures { result ≡ (function_at functions.now 0).parameters }
{
    usize::from(functions[0].parameters)
}
