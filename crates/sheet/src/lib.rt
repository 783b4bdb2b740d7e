// The board over two tables that it owns: for programs, whose lists of boards are made as they run.
//
// It stands beside the board over two lent tables: one type for both would go through traits of lent and of owned tables,
// since the library's `AsRef` and `AsMut` do not say what they lend, and those traits are longer than this. How many readings there are
// stands beside the page: a page has room for more than it holds.
#![tactic(auto)]

ghost use Rattle.std.specs.Prelude.{◌≡◌, [], take, drop};
ghost use Rattle.board.specs.Meaning.{tabled};

use board::{Board, PageFull};

/// A board that owns its tables: the words of one are its inputs, the other is its page.
#[derive(Drop)]
pub struct Sheet {
    inputs: Vec<i32>,
    page: Vec<i32>,
    used: usize,
}

impl Sheet {
    /// The board over two tables, without readings.
    pub fn of(inputs: Vec<i32>, page: Vec<i32>) -> Sheet
        ensures inputs { result.inputs ≡ inputs }
        ensures page { result.page ≡ page }
        ensures used { result.used ≡ 0 }
    {
        Sheet {
            inputs,
            page,
            used: 0,
        }
    }

    /// The readings so far, in their order.
    pub fn readings(&self) -> &[i32]
        ensures { result.now ≡ take self.now.used self.now.page.items }
    {
        let page = self.page.as_slice();
        page.get(..self.used).unwrap_or(page)
    }
}

impl Board for Sheet {
    ghost means = { λ b. tabled b.inputs.items b.page.items b.used };

    ghost lent = { λ b. [] };

    ghost beside = { λ b k. drop k b.page.items };

    fn count(&self) -> usize {
        self.inputs.len()
    }

    fn input(&self, n: usize) -> Option<i32> {
        self.inputs.get(n).copied()
    }

    fn print(&mut self, v: i32) -> Result<(), PageFull> {
        if self.used >= self.page.len() {
            return Err(PageFull);
        }
        self.page[self.used] = v;
        self.used += 1;
        Ok(())
    }
}
