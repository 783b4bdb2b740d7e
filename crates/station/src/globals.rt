// The globals of the script that is loaded.
ghost use Rattle.std.specs.Prelude.{◌≡◌, ◌≤◌, length, take};
ghost use Rattle.script.specs.Limits.{max_words};
ghost use Rattle.history.specs.History.{zeros};
ghost use Rattle.station.specs.Held.{globals_of, laid};

use script::limits::MAX_WORDS;

/// The words of all globals, end to end: the first `used` of a table of fixed length, as there is no heap. What lies behind them
/// means nothing, so two are compared by `as_slice`. It is copied, and so no model: a model of a copied value has to give back what it forgets.
#[derive(Clone, Copy)]
pub struct Globals {
    pub(crate) words: [i32; MAX_WORDS],
    pub(crate) used: usize,
}

/// Lays some words over the front of others.
#[tactic(auto, using(crate::proofs::Fronts::laid_part))]
pub(crate) fn lay(words: &mut [i32], front: &[i32])
    requires { length front.now ≤ length words.old }
    ensures { words.new ≡ laid front.now words.old }
{
    words[..front.len()].copy_from_slice(front);
}

impl Globals {
    /// So many words, all 0.
    pub(crate) fn zeros(used: usize) -> Globals
        requires { used ≤ max_words }
        ensures { globals_of result ≡ zeros used }
    {
        Globals {
            words: [0; MAX_WORDS],
            used,
        }
    }

    /// The words, in order.
    pub fn as_slice(&self) -> &[i32]
        ensures words { result.now ≡ globals_of self.now }
        ensures few { length result.now ≤ max_words }
    {
        self.words.get(..self.used).unwrap_or(&self.words)
    }

    /// Takes over the words at the front of a stack.
    #[tactic(auto, using(crate::proofs::Fronts::kept_front))]
    pub(crate) fn keep(&mut self, stack: &[i32])
        requires { length (globals_of self.old) ≤ length stack.now }
        ensures { globals_of self.new ≡ take (length (globals_of self.old)) stack.now }
    {
        let count = self.as_slice().len();
        lay(&mut self.words, &stack[..count]);
    }

    /// The same number of words, all 0.
    pub(crate) fn clear(&mut self)
        ensures { globals_of self.new ≡ zeros (length (globals_of self.old)) }
    {
        *self = Globals::zeros(self.as_slice().len());
    }
}
