// Boards made of other boards: the twelve-bit layer over any board, and a board that is one of two.
#![tactic(auto)]

ghost use Rattle.std.specs.Prelude.{◌≡◌};
ghost use Rattle.layers.specs.Layer.{twelve, lowered, Residue};
ghost use Rattle.layers.specs.Either.{of_either};

use board::{Board, PageFull};

/// How many values twelve bits have.
const SPAN: i32 = 4_096;

/// The least of those with the sign bit set.
const SIGN: i32 = 2_048;

/// The low twelve bits of a word, as two's complement.
pub fn twelve_bits(v: i32) -> i32
    ensures { result ≡ twelve v }
{
    let low = v.rem_euclid(SPAN);
    if low < SIGN { low } else { low - SPAN }
}

/// The twelve-bit layer over a board: each input's low twelve bits, all else as below.
#[derive(Drop)]
pub struct TwelveBit<B: Board> {
    below: B,
}

impl<B: Board> TwelveBit<B> {
    /// The layer over a board.
    pub fn over(below: B) -> TwelveBit<B>
        ensures { result.below ≡ below }
    {
        TwelveBit { below }
    }

    /// The board below, given back.
    pub fn into_below(self) -> B
        ensures { result ≡ self.below }
    {
        let TwelveBit { below } = self;
        below
    }
}

impl<B: Board> Board for TwelveBit<B> {
    ghost means = { λ b. lowered (B.Board.means b.below) };

    ghost lent = { λ b. B.Board.lent b.below };

    ghost beside = { λ b. B.Board.beside b.below };

    fn count(&self) -> usize {
        self.below.count()
    }

    fn input(&self, n: usize) -> Option<i32> {
        self.below.input(n).map(twelve_bits)
    }

    fn print(&mut self, v: i32) -> Result<(), PageFull> {
        self.below.print(v)
    }
}

/// The twelve-bit layer over a board that was lent.
pub type TwelveBitOver<'a, B> = TwelveBit<&'a mut B>;

/// One of two boards, so that a list may mix kinds of boards.
#[derive(Drop)]
pub enum Either<L: Board, R: Board> {
    First(L),
    Second(R),
}

impl<L: Board, R: Board> Board for Either<L, R> {
    ghost means = { λ b. of_either L.Board.means R.Board.means b };

    ghost lent = { λ b. of_either L.Board.lent R.Board.lent b };

    ghost beside = { λ b. of_either L.Board.beside R.Board.beside b };

    fn count(&self) -> usize {
        match self {
            Either::First(b) => b.count(),
            Either::Second(b) => b.count(),
        }
    }

    fn input(&self, n: usize) -> Option<i32> {
        match self {
            Either::First(b) => b.input(n),
            Either::Second(b) => b.input(n),
        }
    }

    fn print(&mut self, v: i32) -> Result<(), PageFull> {
        match self {
            Either::First(b) => b.print(v),
            Either::Second(b) => b.print(v),
        }
    }
}

/// Twelve bits read as two's complement are from -2,048 to 2,047, and differ from the word by a
/// multiple of 4,096: no other number does both.
pub fn twelve_bits_are_a_residue()
    ensures { Residue }
{}
