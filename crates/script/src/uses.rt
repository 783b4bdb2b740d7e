// How often a node is used, as a child or as a body: exactly once, in a script.
ghost use Rattle.std.specs.Prelude.{◌≡◌, ◌+◌, ◌*◌, ◌≤◌, length};
ghost use Rattle.script.specs.Limits.{max_nodes, max_functions};
ghost use Rattle.script.specs.Uses.{is_number, uses, child_uses, uses_as_child, uses_as_body, misused};
ghost use Rattle.script.specs.Fault.{answer_of, uses_fault};

use crate::fault::refuse_least;
use crate::kinds::Sort;
use crate::{Function, Node};
use answer::{Reason, Refusal};

// Whether a field is the number n.
fn is_number(x: i32, n: usize) -> bool
    ensures { result ≡ is_number x n }
{
    usize::try_from(x).is_ok_and(|m| m == n)
}

// 1 where the field holds a child, and the child is the node n.
fn uses_in(want: Option<Sort>, x: i32, n: usize) -> usize
    ensures value { result ≡ uses want x n }
    ensures few { result ≤ 1 }
{
    usize::from(want.is_some() && is_number(x, n))
}

/// How many of the node's children are the node n.
#[tactic(auto, unfolding(crate::specs::Uses::child_uses))]
pub(crate) fn child_uses(node: &Node, n: usize) -> usize
    ensures value { result ≡ child_uses node.now n }
    ensures few { result ≤ 3 }
{
    // field by field, since this is asked of each two nodes, and an iterator would go through memory for it
    let [(a, in_a), (b, in_b), (c, in_c)] = node.fields();
    uses_in(in_a, a, n) + uses_in(in_b, b, n) + uses_in(in_c, c, n)
}

fn uses_as_child(nodes: &[Node], n: usize) -> usize
    requires { length nodes.now ≤ max_nodes }
    ensures value { result ≡ uses_as_child nodes.now n }
    ensures few { result ≤ 3 * max_nodes }
{
    nodes.iter().map(|node| child_uses(node, n)).sum()
}

/// How often the node n is a body.
pub(crate) fn uses_as_body(functions: &[Function], n: usize) -> usize
    ensures value { result ≡ uses_as_body functions.now n }
    ensures few { result ≤ length functions.now }
{
    functions
        .iter()
        .filter(|function| usize::from(function.body) == n)
        .count()
}

fn is_misused(functions: &[Function], nodes: &[Node], n: usize) -> bool
    requires functions { length functions.now ≤ max_functions }
    requires nodes { length nodes.now ≤ max_nodes }
    ensures { result ≡ misused functions.now nodes.now n }
{
    uses_as_child(nodes, n) + uses_as_body(functions, n) != 1
}

/// Refuses the least node that is not used exactly once.
pub(crate) fn check_uses(functions: &[Function], nodes: &[Node]) -> Result<(), Refusal>
    requires functions { length functions.now ≤ max_functions }
    requires nodes { length nodes.now ≤ max_nodes }
    ensures { result ≡ answer_of (uses_fault functions.now nodes.now) }
{
    refuse_least(
        nodes.len(),
        Reason::Uses,
        |n| is_misused(functions, nodes, n),
    )
}
