// A draft of code: one cell for each word, written from its last instruction to its first at the far end of a lent table, and the operations
// that put an instruction in front of what is written. Each does to the cells what the scheme does to symbolic code.
#![tactic(auto)]

ghost use Rattle.std.specs.Prelude.{◌≡◌, ◌+◌, ◌^◌, ◌<◌, ◌≤◌, ◌∷◌, [], length, drop};
ghost use Rattle.draft.specs.Cells.{cell, flagged, head_of, return_of, dead_cells};

pub mod cells;
pub mod put;
#[cfg(test)]
mod tests;

use cells::{Cell, Head, Word, dead_in, flag_first, head_in, return_in};

/// Code that is being written, from its last word to its first, at the far end of a lent table. What stands in the table before the code is
/// of no meaning.
#[derive(Drop)]
pub struct Draft<'a> {
    cells: &'a mut [Cell],
    front: usize,
    ghost within: { front ≤ length cells.now },
}

// To contracts a draft is the cells of the code so far (`code_of`), and how many more there is room for (`room_of`). All that changes one
// keeps its table (`IsSameTable`), so that who lent that knows afterwards what it holds. A table that has a position for each word
// (`HasPositions`) has one still (`put::positions_stay`).
impl<'a> Draft<'a> {
    ghost use Rattle.draft.specs.Drafted.{code_of, room_of, IsSameTable, HasPositions};

    /// No code yet, with room for as many words as there are cells.
    pub fn over(cells: &'a mut [Cell]) -> Draft<'a>
        ensures code { code_of result ≡ [] }
        ensures room { room_of result ≡ length cells.old }
        ensures lender { result.cells.ghost_name ≡ cells.entry.ghost_name }
        ensures long { length result.cells.now ≡ length cells.old }
    {
        let front = cells.len();
        Draft::of(cells, front)
    }

    /// The code that stands in a table already, from `front` on.
    #[tactic(auto, unfolding(crate::specs::Drafted::code_of))]
    pub fn of(cells: &'a mut [Cell], front: usize) -> Draft<'a>
        requires within { front ≤ length cells.old }
        ensures code { code_of result ≡ drop front cells.old }
        ensures room { room_of result ≡ front }
        ensures lender { result.cells.ghost_name ≡ cells.entry.ghost_name }
        ensures long { length result.cells.now ≡ length cells.old }
    {
        Draft { cells, front }
    }

    /// Where in its table the code begins, which is how many more words there is room for.
    #[tactic(auto, unfolding(crate::specs::Drafted::code_of))]
    pub fn front(&self) -> usize
        ensures room { result ≡ room_of self.now }
        ensures code { drop result self.now.cells.now ≡ code_of self.now }
        ensures whole { result + length (code_of self.now) ≡ length self.now.cells.now }
    {
        self.cells.len() - self.len()
    }

    /// The cells of the code so far.
    #[tactic(auto, unfolding(crate::specs::Drafted::code_of))]
    pub fn code(&self) -> &[Cell]
        ensures code { result.now ≡ code_of self.now }
        ensures within { length result.now ≤ length self.now.cells.now }
        ensures few { HasPositions self.now → length result.now < 2 ^ 31 }
    {
        &self.cells[self.front..]
    }

    /// The cells of the code, for as long as the table is lent.
    #[tactic(auto, unfolding(crate::specs::Drafted::code_of))]
    pub fn into_code(self) -> &'a [Cell]
        ensures { result.now ≡ code_of self.entry }
    {
        let Draft { cells, front } = self;
        &cells[front..]
    }

    /// How many words the code has so far.
    #[tactic(auto, unfolding(crate::specs::Drafted::code_of))]
    pub fn len(&self) -> usize
        ensures { result ≡ length (code_of self.now) }
    {
        self.cells.len() - self.front
    }

    /// What the code begins with.
    pub fn head(&self) -> Head
        ensures { result ≡ head_of (code_of self.now) }
    {
        head_in(self.code())
    }

    /// The operand of RET, labelled or not, if the code begins with one.
    pub fn first_return(&self) -> Option<u16>
        ensures { result ≡ return_of (code_of self.now) }
    {
        return_in(self.code())
    }

    /// Sets a label before the code.
    #[tactic(auto, unfolding(crate::specs::Drafted::code_of))]
    pub fn flag(&mut self)
        ensures code { code_of self.new ≡ flagged (code_of self.old) }
        ensures room { room_of self.new ≡ room_of self.old }
        ensures table { IsSameTable self.old self.new }
    {
        flag_first(&mut self.cells[self.front..]);
    }

    /// Takes cells off the front.
    #[tactic(auto, unfolding(crate::specs::Drafted::code_of))]
    pub fn drop_first(&mut self, count: usize)
        requires within { count ≤ length (code_of self.old) }
        ensures code { code_of self.new ≡ drop count (code_of self.old) }
        ensures room { room_of self.new ≡ room_of self.old + count }
        ensures table { IsSameTable self.old self.new }
    {
        self.front += count;
    }

    /// Drops the code that nothing reaches: all before the first label.
    #[tactic(auto, unfolding(crate::specs::Drafted::code_of))]
    pub fn drop_dead(&mut self)
        ensures code { code_of self.new ≡ dead_cells (code_of self.old) }
        ensures room { room_of self.old ≤ room_of self.new }
        ensures table { IsSameTable self.old self.new }
    {
        self.drop_first(dead_in(self.code()));
    }

    // Puts a word in front.
    #[tactic(auto, unfolding(crate::specs::Drafted::code_of))]
    pub(crate) fn lay(&mut self, word: Word, mark: usize)
        requires room { 1 ≤ room_of self.old }
        ensures code { code_of self.new ≡ cell word mark ∷ code_of self.old }
        ensures room { room_of self.new + 1 ≡ room_of self.old }
        ensures table { IsSameTable self.old self.new }
    {
        self.front -= 1;
        self.cells[self.front] = Cell {
            word,
            mark,
            label: false,
        };
    }
}
