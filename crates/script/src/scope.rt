// Whether calls have as many arguments as the function takes, and locals are their function's own.
ghost use Rattle.std.specs.Prelude.{◌≡◌, ◌<◌, ◌≤◌, length};
ghost use Rattle.script.specs.Limits.{max_nodes};
ghost use Rattle.script.specs.Shaped.{Children, Callees};
ghost use Rattle.script.specs.Scope.{arguments_of, root_of, locals_under, local_missing, arguments_wrong, out_of_scope};
ghost use Rattle.script.specs.Fault.{answer_of, scope_fault};

use crate::fault::refuse_least;
use crate::kinds::Kind;
use crate::shape::is_below;
use crate::uses::child_uses;
use crate::{Function, Node};
use answer::{Reason, Refusal};

// How many arguments a list, or the call that it belongs to, has.
fn arguments_of(nodes: &[Node], n: usize) -> usize
    requires children { Children nodes.now }
    requires within { n < length nodes.now }
    ensures value { result ≡ arguments_of nodes.now n }
    ensures few { result ≤ n }
{
    let node = &nodes[n];
    match node.kind() {
        Ok(Kind::Argument) => 1 + arguments_of(nodes, node.b.unsigned_abs() as usize),
        Ok(Kind::Call) => arguments_of(nodes, node.b.unsigned_abs() as usize),
        _ => 0,
    }
}

// The top of the tree that the node n is part of. A child has a smaller number than its parent, so
// one way up through the table meets them all.
fn root_of(nodes: &[Node], n: usize) -> usize
    ensures { result ≡ root_of nodes.now n }
{
    let mut root = n;
    for (k, node) in nodes.iter().enumerate() {
        if child_uses(node, root) > 0 {
            root = k;
        }
    }
    root
}

// How many locals, parameters among them, the function with that body has; none without one.
fn locals_under(functions: &[Function], root: usize) -> usize
    ensures { result ≡ locals_under functions.now root }
{
    functions
        .iter()
        .find(|function| usize::from(function.body) == root)
        .map_or(0, Function::all_locals)
}

fn local_missing(functions: &[Function], nodes: &[Node], n: usize) -> bool
    requires within { n < length nodes.now }
    ensures { result ≡ local_missing functions.now nodes.now n }
{
    let node = &nodes[n];
    matches!(node.kind(), Ok(Kind::Local | Kind::SetLocal))
        && !is_below(node.a, locals_under(functions, root_of(nodes, n)))
}

fn arguments_wrong(functions: &[Function], nodes: &[Node], n: usize) -> bool
    requires children { Children nodes.now }
    requires callees { Callees functions.now nodes.now }
    requires within { n < length nodes.now }
    ensures { result ≡ arguments_wrong functions.now nodes.now n }
{
    let node = &nodes[n];
    node.kind() == Ok(Kind::Call)
        && arguments_of(nodes, n) != usize::from(functions[node.a as usize].parameters)
}

#[tactic(auto, unfolding(crate::specs::Scope::out_of_scope))]
fn is_out_of_scope(functions: &[Function], nodes: &[Node], n: usize) -> bool
    requires children { Children nodes.now }
    requires callees { Callees functions.now nodes.now }
    requires within { n < length nodes.now }
    ensures { result ≡ out_of_scope functions.now nodes.now n }
{
    local_missing(functions, nodes, n) || arguments_wrong(functions, nodes, n)
}

/// Refuses the least node that calls with a wrong count of arguments, or names a local that its function lacks.
pub(crate) fn check_scope(functions: &[Function], nodes: &[Node]) -> Result<(), Refusal>
    requires children { Children nodes.now }
    requires callees { Callees functions.now nodes.now }
    requires nodes { length nodes.now ≤ max_nodes }
    ensures { result ≡ answer_of (scope_fault functions.now nodes.now) }
{
    refuse_least(
        nodes.len(),
        Reason::Scope,
        |n| is_out_of_scope(functions, nodes, n),
    )
}
