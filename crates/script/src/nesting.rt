// How deep expressions and lists of arguments nest.
//
// That each child fits is asked by the functions here and in `scope`, and by no type: what it says of a node has more than one proof, and
// a type keeps a fact that has one.
ghost use Rattle.std.specs.Prelude.{◌≡◌, ◌+◌, ◌<◌, ◌≤◌, length, Some};
ghost use Rattle.script.specs.declared.kinds.Sort.{Sort};
ghost use Rattle.script.specs.Limits.{max_nodes};
ghost use Rattle.script.specs.Numbering.{number_at, numbers_below};
ghost use Rattle.script.specs.Shaped.{Child, Children};
ghost use Rattle.script.specs.Nesting.{nesting_in, nesting_by, nesting_of, too_deep};
ghost use Rattle.script.specs.Fault.{answer_of, nesting_fault};

use crate::Node;
use crate::fault::refuse_least;
use crate::kinds::Sort;
use crate::limits::MAX_NESTING;
use answer::{Reason, Refusal};

// How deep the child in a field of the node n nests, 0 where the field holds none.
#[cycle(nesting_in_nesting_of)]
fn nesting_in(nodes: &[Node], n: usize, x: i32, want: Option<Sort>) -> usize
    requires children { Children nodes.now }
    requires within { n < length nodes.now }
    requires child { (s : Sort) → want ≡ Some s → Child nodes.now n x s }
    ensures value { result ≡ nesting_in want x (number_at (numbers_below nesting_by nodes.now n)) }
    ensures few { result ≤ n }
{
    match want {
        Some(_) => nesting_of(nodes, x.unsigned_abs() as usize),
        None => 0,
    }
}

#[cycle(nesting_in_nesting_of)]
fn nesting_of(nodes: &[Node], n: usize) -> usize
    requires children { Children nodes.now }
    requires within { n < length nodes.now }
    ensures value { result ≡ nesting_of nodes.now n }
    ensures few { result ≤ n + 1 }
{
    let [(a, in_a), (b, in_b), (c, in_c)] = nodes[n].fields();
    // field by field, since a recursion does not go through a closure
    let a = nesting_in(nodes, n, a, in_a);
    let b = nesting_in(nodes, n, b, in_b);
    let c = nesting_in(nodes, n, c, in_c);
    1 + a.max(b.max(c))
}

#[tactic(auto, unfolding(crate::specs::Nesting::too_deep))]
fn is_too_deep(nodes: &[Node], n: usize) -> bool
    requires children { Children nodes.now }
    requires within { n < length nodes.now }
    ensures { result ≡ too_deep nodes.now n }
{
    let node = &nodes[n];
    (node.is(Sort::Expression) || node.is(Sort::Arguments)) && nesting_of(nodes, n) > MAX_NESTING
}

/// Refuses the least expression or list that nests too deep.
pub(crate) fn check_nesting(nodes: &[Node]) -> Result<(), Refusal>
    requires children { Children nodes.now }
    requires nodes { length nodes.now ≤ max_nodes }
    ensures { result ≡ answer_of (nesting_fault nodes.now) }
{
    refuse_least(nodes.len(), Reason::Nesting, |n| is_too_deep(nodes, n))
}
