// The words and the marks of a finished draft: every place becomes a position.
#![tactic(auto)]

ghost use Rattle.std.specs.Prelude.{◌≡◌, ◌-◌, ◌^◌, ◌<◌, map, length, pos, slice_index};
ghost use Rattle.resolving.specs.Resolved.{length_to, word_of, cell_word, cell_mark};

use draft::cells::{Cell, Place, Word};

/// A position, from how many words there are from there to the end. The cast is proved here, once.
pub fn position(whole: usize, back: usize) -> i32
    requires { whole < 2 ^ 31 }
    ensures { result ≡ pos (whole - back) }
{
    whole.saturating_sub(back) as i32
}

// For each loop and each function how many words there are from there to the end of the code, which has `whole` words; 0 past a table, as the definition has it.
#[derive(Clone, Copy)]
struct Ends<'a> {
    starts: &'a [usize],
    entries: &'a [usize],
    whole: usize,
    ghost few: { whole < 2 ^ 31 },
}

impl Ends<'_> {
    fn length_to(&self, place: Place) -> usize
        ensures { result ≡ length_to self.now.starts.now place }
    {
        match place {
            Place::Behind(n) => n,
            Place::Loop(node) => self.starts.get(node).copied().unwrap_or(0),
        }
    }

    fn entry(&self, function: usize) -> usize
        ensures { result ≡ slice_index self.now.entries.now function }
    {
        self.entries.get(function).copied().unwrap_or(0)
    }

    fn word_of(&self, word: Word) -> i32
        ensures { result ≡ word_of self.now.starts.now self.now.entries.now self.now.whole word }
    {
        match word {
            Word::Opcode(instruction) => i32::from(instruction.number()),
            Word::Number(v) => v,
            Word::Count(n) => i32::from(n),
            Word::To(place) => position(self.whole, self.length_to(place)),
            Word::Entry(function) => position(self.whole, self.entry(function)),
        }
    }
}

/// The words and the marks of a draft, given for each loop and each function how many words there are from there to the end.
#[tactic(auto, using(crate::proofs::WordLaws::written))]
pub fn resolve(
    cells: &[Cell],
    starts: &[usize],
    entries: &[usize],
    words: &mut [i32],
    marks: &mut [usize],
)
    requires few { length cells.now < 2 ^ 31 }
    requires words { length words.old ≡ length cells.now }
    requires marks { length marks.old ≡ length cells.now }
    ensures words { words.new ≡ map (cell_word starts.now entries.now (length cells.now)) cells.now }
    ensures marks { marks.new ≡ map cell_mark cells.now }
{
    // Words and marks are two tables: the machine takes the words alone.
    let ends = Ends {
        starts,
        entries,
        whole: cells.len(),
    };
    // One index for the two that are written: a zip of three is no plainer.
    for (i, cell) in cells.iter().enumerate() {
        words[i] = ends.word_of(cell.word);
        marks[i] = cell.mark;
    }
}
