// A board is where a run finds its inputs and leaves its readings.
//
// The trait says by ghost members what a board means; code above it is proved once, for every board.
#![tactic(auto)]

ghost use Rattle.std.specs.Prelude.{◌≡◌, ℕ, ◌≤◌, List, [], ◌∷◌, length, take, drop, is_ok, ℤ, if◌then◌else◌};
ghost use Rattle.std.specs.Borrow.{GName};
ghost use Rattle.std.specs.List.{slice_get};
ghost use Rattle.board.specs.Meaning.{Means, has_room, printed, tabled};

use stack::Stack;

/// Why a reading is refused: there are as many as the page has room for.
#[derive(Clone, Copy, PartialEq, Eq, Debug)]
pub struct PageFull;

/// Inputs by number, and a page of readings.
pub trait Board {
    /// What the board means: its inputs, its readings so far, and its page.
    ghost means: { Self → Means };

    /// The memory that the board was lent: a print writes through the loans and keeps each of them,
    /// so the lender can say afterwards what it holds.
    ghost lent: { Self → List GName };

    /// What lies in the lent memory besides the first `k` readings: a print leaves it, once it holds `k` or fewer.
    ghost beside: { Self → ℕ → List ℤ };

    /// How many inputs there are.
    fn count(&self) -> usize
        ensures { result ≡ length (means self.now).inputs };

    /// An input by its number.
    fn input(&self, n: usize) -> Option<i32>
        ensures { result ≡ slice_get (means self.now).inputs n };

    /// Adds a reading; refused, changing nothing, exactly when the page is full.
    fn print(&mut self, v: i32) -> Result<(), PageFull>
        ensures taken { is_ok result ≡ has_room (means self.old) }
        ensures after { means self.new ≡ (if is_ok result then printed v (means self.old) else means self.old) }
        ensures lent { lent self.new ≡ lent self.old }
        ensures beside { (k : ℕ) → length (means self.new).readings ≤ k → beside self.new k ≡ beside self.old k };
}

/// The board over two tables: the words of one are its inputs, the other is its page, and holds the readings so far.
#[derive(Drop)]
pub struct TableBoard<'a, 'b> {
    inputs: &'a [i32],
    page: Stack<'b, i32>,
}

impl<'a, 'b> TableBoard<'a, 'b> {
    /// The board over two tables, without readings.
    pub fn over(inputs: &'a [i32], page: &'b mut [i32]) -> TableBoard<'a, 'b>
        ensures inputs { result.inputs.now ≡ inputs.now }
        ensures page { result.page.slots.now ≡ page.old }
        ensures used { result.page.used ≡ 0 }
        ensures lent { result.page.slots.ghost_name ≡ page.entry.ghost_name }
    {
        TableBoard {
            inputs,
            page: Stack::over(page),
        }
    }

    /// The readings so far, in their order.
    pub fn readings(&self) -> &[i32]
        ensures { result.now ≡ take self.now.page.used self.now.page.slots.now }
    {
        let page = &*self.page.slots;
        page.get(..self.page.used).unwrap_or(page)
    }
}

impl Board for TableBoard<'_, '_> {
    ghost means = { λ b. tabled b.inputs.now b.page.slots.now b.page.used };

    ghost lent = { λ b. b.page.slots.ghost_name ∷ [] };

    ghost beside = { λ b k. drop k b.page.slots.now };

    fn count(&self) -> usize {
        self.inputs.len()
    }

    fn input(&self, n: usize) -> Option<i32> {
        self.inputs.get(n).copied()
    }

    fn print(&mut self, v: i32) -> Result<(), PageFull> {
        self.page.push(v).map_err(|_| PageFull)
    }
}

/// A lent board is a board.
impl<B: Board> Board for &mut B {
    ghost means = { λ b. B.Board.means b.now };

    ghost lent = { λ b. b.ghost_name ∷ B.Board.lent b.now };

    ghost beside = { λ b. B.Board.beside b.now };

    fn count(&self) -> usize {
        (**self).count()
    }

    fn input(&self, n: usize) -> Option<i32> {
        (**self).input(n)
    }

    fn print(&mut self, v: i32) -> Result<(), PageFull> {
        (**self).print(v)
    }
}
