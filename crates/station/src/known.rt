// What is known of lent memory once it has been read: that it holds words. The compiler of the program leaves nothing of these loops.
// Of bytes and other unsigned numbers a proof knows their range at once; of signed words, of a node's fields and of a board's inputs
// it knows it only where the body reads them.
ghost use Rattle.std.specs.Prelude.{◌≡◌, ◌<◌, length, pos, FitsSigned, slice_index_or};
ghost use Rattle.std.specs.Int.{w32};
ghost use Rattle.symbolic.specs.Proper.{Fit};
ghost use Rattle.accepted.specs.Accepted.{ConstantsFit};

use board::Board;
use script::Node;

/// Every constant of a script is a 32-bit word.
pub(crate) fn know_constants(nodes: &[Node])
    ensures { ConstantsFit nodes.now }
{
    for node in nodes {
        let _constant = node.a;
    }
}

/// Every element is a 32-bit word.
#[tactic(auto, using(crate::proofs::Words::fit_each))]
pub(crate) fn know_words(words: &[i32])
    ensures { Fit words.now }
{
    for word in words {
        let _word = *word;
    }
}

fn know_input<B: Board>(board: &B, n: usize)
    ensures { n < length (B.means board.now).inputs → FitsSigned w32 (slice_index_or (B.means board.now).inputs n (pos 0)) }
{
    if let Some(input) = board.input(n) {
        let _word = input;
    }
}

/// Every input of a board is a 32-bit word. It goes by numbers, since a board is asked by number.
#[tactic(auto, using(crate::proofs::Words::fit_each))]
pub(crate) fn know_inputs<B: Board>(board: &B)
    ensures { Fit (B.means board.now).inputs }
{
    for n in 0..board.count() {
        know_input(board, n);
    }
}
