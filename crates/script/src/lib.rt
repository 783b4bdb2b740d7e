// The tables that hold a script, functions, globals and nodes, and the check that accepts them.
#![tactic(auto)]

ghost use Rattle.std.specs.Prelude.{◌≡◌, ◌<◌, [], ◌∷◌, true, length, Some, None, IfOk, IfErr};
ghost use Rattle.std.proofs.Props.{props};
ghost use Rattle.script.specs.Kinds.{kind_at, is_of, want_a, want_b, want_c};
ghost use Rattle.script.specs.Numbered.{kind_number, Decodes};
ghost use Rattle.script.specs.Limits.{within_limits, locals_of};
ghost use Rattle.script.specs.Fault.{answer_of, nodes_fault, fault};
ghost use Rattle.script.specs.Sound.{NodesHaveOneFunction, AcceptedAreSound, SoundAreAccepted};

mod fault;
pub mod kinds;
pub mod limits;
mod nesting;
mod scope;
mod shape;
mod uses;

use answer::{Reason, Refusal};
use kinds::{Kind, Sort, UnknownKind};

/// One node of a script's tree: what it is, and up to three fields that its kind names.
#[derive(Clone, Copy, PartialEq, Eq, Debug)]
pub struct Node {
    /// The number of its kind. It is no `Kind`: tables come from outside, and a number that is no kind's is
    /// refused with the reason `Shape`.
    pub kind: u8,
    pub a: i32,
    pub b: i32,
    pub c: i32,
}

impl Node {
    /// What the node is, or the number that is no kind's.
    pub fn kind(&self) -> Result<Kind, UnknownKind>
        ensures { Decodes self.now.kind result }
    {
        Kind::try_from(self.kind)
    }

    /// Whether the node is of that sort.
    pub(crate) fn is(&self, sort: Sort) -> bool
        ensures { result ≡ is_of sort self.now.kind }
    {
        self.kind().is_ok_and(|kind| kind.sort() == sort)
    }

    /// The three fields, each with the sort of child that it holds, where it holds one.
    pub(crate) fn fields(&self) -> [(i32, Option<Sort>); 3]
        ensures { result ≡ (self.now.a, want_a self.now.kind) ∷ (self.now.b, want_b self.now.kind) ∷ (self.now.c, want_c self.now.kind) ∷ [] }
    {
        let [a, b, c] = match self.kind() {
            Ok(kind) => kind.children(),
            Err(_) => [None; 3],
        };
        [(self.a, a), (self.b, b), (self.c, c)]
    }
}

/// One function of a script; function 0 is main.
#[derive(Clone, Copy, PartialEq, Eq, Debug)]
pub struct Function {
    pub parameters: u16,
    /// Locals besides the parameters.
    pub locals: u16,
    /// The number of the node that is its body.
    pub body: u16,
    /// Where its code begins; an accepted load fills this in.
    pub entry: u16,
}

impl Function {
    /// How many locals it has, its parameters among them.
    pub(crate) fn all_locals(&self) -> usize
        ensures { result ≡ locals_of self.now }
    {
        usize::from(self.parameters) + usize::from(self.locals)
    }
}

// Refuses the first reason that applies to any node, at the least node to which it does. The tables go down one by one: but for the
// shape, no class reads all three, and what a class asks of them is said of those that it reads.
#[tactic(auto, using(crate::proofs::LimitsLaws::limited, crate::proofs::ShapeLaws::shaped, crate::proofs::FaultLaws::nowhere), unfolding(crate::specs::Fault::nodes_fault))]
fn check_nodes(functions: &[Function], globals: &[u8], nodes: &[Node]) -> Result<(), Refusal>
    requires { within_limits functions.now globals.now nodes.now ≡ true }
    ensures { result ≡ answer_of (nodes_fault functions.now globals.now nodes.now) }
{
    shape::check_shape(functions, globals, nodes)?;
    uses::check_uses(functions, nodes)?;
    scope::check_scope(functions, nodes)?;
    nesting::check_nesting(nodes)
}

/// Accepts the tables of a script, or says what is wrong with them: the first reason that applies
/// anywhere, and the least node to which it does.
pub fn check(functions: &[Function], globals: &[u8], nodes: &[Node]) -> Result<(), Refusal>
    ensures { result ≡ answer_of (fault functions.now globals.now nodes.now) }
{
    if limits::within_limits(functions, globals, nodes) {
        check_nodes(functions, globals, nodes)
    } else {
        Err(Refusal::of(Reason::Limits))
    }
}

/// The tables of a script that was accepted: whoever holds one need not check them again. That they are
/// accepted says as much as that they are sound (`accepted_tables_are_sound`).
#[derive(Clone, Copy)]
pub struct Script<'a> {
    pub functions: &'a [Function],
    pub globals: &'a [u8],
    pub nodes: &'a [Node],
    pub ghost accepted: { fault functions.now globals.now nodes.now ≡ None } by { Prim.hlevel props },
}

impl<'a> Script<'a> {
    /// Accepts tables, or says what is wrong with them: the first reason that applies anywhere, and the
    /// least node to which it does.
    pub fn of(
        functions: &'a [Function],
        globals: &'a [u8],
        nodes: &'a [Node],
    ) -> Result<Script<'a>, Refusal>
        ensures accepted { IfOk result (λ s. (s.functions.now ≡ functions.now) × (s.globals.now ≡ globals.now) × (s.nodes.now ≡ nodes.now)) }
        ensures refused { IfErr result (λ why. fault functions.now globals.now nodes.now ≡ Some why) }
    {
        check(functions, globals, nodes)?;
        Ok(Script {
            functions,
            globals,
            nodes,
        })
    }

    /// What the node n is: in an accepted script each node is of a kind.
    #[tactic(auto, using(crate::proofs::SoundLaws::script_sound))]
    pub fn kind(self, n: usize) -> Kind
        requires { n < length self.nodes.now }
        ensures { kind_number result ≡ kind_at self.entry.nodes.now n }
    {
        self.nodes[n].kind().unwrap()
    }
}

/// Every node of a tree whose limits, shape and uses are accepted is part of the tree under exactly one
/// function's body. It does nothing: its contract is the theorem.
pub fn nodes_have_one_function()
    ensures { NodesHaveOneFunction }
{}

/// What accepted tables can be relied on for, and that tables that can be relied on for it are accepted. It does
/// nothing: its contract is the theorem.
pub fn accepted_tables_are_sound()
    ensures sound { AcceptedAreSound }
    ensures accepted { SoundAreAccepted }
{}
