// Whether each node's kind, numbers and children fit where they stand, and each body is a statement.
ghost use Rattle.std.specs.Prelude.{◌≡◌, ◌<◌, ◌≤◌, length};
ghost use Rattle.script.specs.Limits.{max_nodes};
ghost use Rattle.script.specs.Shape.{below, child_fits, children_fit, named_fits, number_fits, body_fits, misshapen};
ghost use Rattle.script.specs.Fault.{answer_of, shape_fault};

use crate::fault::refuse_least;
use crate::kinds::{Kind, OPERATORS, Sort};
use crate::uses::uses_as_body;
use crate::{Function, Node};
use answer::{Reason, Refusal};

/// Whether a field is a number from 0 up to, and not, n. The machine has the like for its words; neither stands on the other.
pub(crate) fn is_below(x: i32, n: usize) -> bool
    ensures { result ≡ below x n }
{
    usize::try_from(x).is_ok_and(|m| m < n)
}

// Whether a field of the node i is a child of the wanted sort, where one is wanted.
fn child_fits(nodes: &[Node], i: usize, x: i32, want: Option<Sort>) -> bool
    requires { i ≤ length nodes.now }
    ensures { result ≡ child_fits nodes.now i x want }
{
    match want {
        Some(sort) => usize::try_from(x).is_ok_and(|m| m < i && nodes[m].is(sort)),
        None => true,
    }
}

fn children_fit(nodes: &[Node], i: usize, node: &Node) -> bool
    requires { i ≤ length nodes.now }
    ensures { result ≡ children_fit nodes.now i node.now }
{
    node.fields()
        .iter()
        .all(|(x, want)| child_fits(nodes, i, *x, *want))
}

// Whether the global that a node names is there, and is one word where it has to be.
fn named_fits(globals: &[u8], node: &Node) -> bool
    ensures { result ≡ named_fits globals.now node.now }
{
    let global = usize::try_from(node.a).ok().and_then(|g| globals.get(g));
    match node.kind() {
        Ok(Kind::Global | Kind::SetGlobal) => global.is_some_and(|words| *words == 1),
        Ok(Kind::Element | Kind::SetElement) => global.is_some(),
        _ => true,
    }
}

// Whether the operator of a binary, and the function of a call, are there.
fn number_fits(node: &Node, functions: usize) -> bool
    ensures { result ≡ number_fits functions node.now }
{
    match node.kind() {
        Ok(Kind::Binary) => is_below(node.c, OPERATORS),
        Ok(Kind::Call) => is_below(node.a, functions),
        _ => true,
    }
}

// Whether the node i, where it is a body, is a statement.
fn body_fits(functions: &[Function], i: usize, node: &Node) -> bool
    ensures { result ≡ body_fits functions.now i node.now.kind }
{
    uses_as_body(functions, i) == 0 || node.is(Sort::Statement)
}

#[tactic(auto, unfolding(crate::specs::Shape::misshapen))]
fn is_misshapen(functions: &[Function], globals: &[u8], nodes: &[Node], i: usize) -> bool
    requires { i < length nodes.now }
    ensures { result ≡ misshapen functions.now globals.now nodes.now i }
{
    let node = &nodes[i];
    !(node.kind().is_ok()
        && children_fit(nodes, i, node)
        && named_fits(globals, node)
        && number_fits(node, functions.len())
        && body_fits(functions, i, node))
}

/// Refuses the least node that does not fit where it stands.
pub(crate) fn check_shape(
    functions: &[Function],
    globals: &[u8],
    nodes: &[Node],
) -> Result<(), Refusal>
    requires { length nodes.now ≤ max_nodes }
    ensures { result ≡ answer_of (shape_fault functions.now globals.now nodes.now) }
{
    refuse_least(
        nodes.len(),
        Reason::Shape,
        |n| is_misshapen(functions, globals, nodes, n),
    )
}
