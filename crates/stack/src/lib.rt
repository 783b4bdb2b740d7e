// One last-in, first-out store for every kind of entry, over a slice that the caller lends.
//
// A popped entry stays in memory until it is overwritten, so each contract gives the whole slice
// afterwards, beside the number of entries in use. Every operation also keeps the loan, so that the
// lender of the slice can say what it holds when the store is gone.
//
// `over`, `capacity`, `top`, `push`, `pop` and `resize` ask nothing. The others ask for the room that
// they use: they are for a caller that has made its own tests, in its own order.
//
// That no more entries are in use than there are slots is no invariant of the type: `resize` takes any number, and a type that asked
// for less would ask more of its callers. What a contract says of the slots, the number in use and the loan are clauses apart, since
// those who call cite each alone.
#![tactic(auto)]

ghost use Rattle.std.specs.Prelude.{◌≡◌, ◌+◌, ◌-◌, ◌<◌, ◌≤◌, length, replicate, is_ok, if◌then◌else◌, nat_lt, slice_set, cond};
ghost use Rattle.std.proofs.Math.Seq.{paste};
ghost use Rattle.stack.specs.Entries.{top_of, opened, closed};

/// The first `used` of the slots are the entries in use, the last of them on top.
#[derive(Drop)]
pub struct Stack<'a, T> {
    pub slots: &'a mut [T],
    pub used: usize,
}

/// Why a push is refused: there is no room for one more entry.
#[derive(Clone, Copy, PartialEq, Eq, Debug)]
pub struct Full;

// every slot holds `x`; the library's `fill` asks that a clone cannot fail, which a type parameter does not say
fn fill<T: Copy>(slots: &mut [T], x: T)
    ensures { slots.new ≡ replicate (length slots.old) x }
{
    for slot in slots.iter_mut() {
        *slot = x;
    }
}

impl<'a, T: Copy> Stack<'a, T> {
    /// An empty store.
    pub fn over(slots: &'a mut [T]) -> Stack<'a, T>
        ensures used { result.used ≡ 0 }
        ensures slots { result.slots.now ≡ slots.old }
        ensures lender { result.slots.ghost_name ≡ slots.entry.ghost_name }
    {
        Stack { slots, used: 0 }
    }

    /// How many entries there is room for.
    pub fn capacity(&self) -> usize
        ensures { result ≡ length self.now.slots.now }
    {
        self.slots.len()
    }

    /// The entry on top, if there is one.
    pub fn top(&self) -> Option<T>
        ensures { result ≡ top_of self.now.slots.now self.now.used }
    {
        self.slots.get(..self.used)?.last().copied()
    }

    /// Puts an entry on top; refused, changing nothing, where there is no room.
    pub fn push(&mut self, x: T) -> Result<(), Full>
        ensures taken { is_ok result ≡ nat_lt self.old.used (length self.old.slots.now) }
        ensures slots { self.new.slots.now ≡ (if is_ok result then slice_set self.old.slots.now self.old.used x else self.old.slots.now) }
        ensures used { self.new.used ≡ cond (is_ok result) (self.old.used + 1) self.old.used }
        ensures lender { self.new.slots.ghost_name ≡ self.old.slots.ghost_name }
    {
        if self.used >= self.slots.len() {
            return Err(Full);
        }
        self.slots[self.used] = x;
        self.used += 1;
        Ok(())
    }

    /// Takes the entry on top, which stays in its slot.
    pub fn pop(&mut self) -> Option<T>
        ensures value { result ≡ top_of self.old.slots.now self.old.used }
        ensures slots { self.new.slots.now ≡ self.old.slots.now }
        ensures used { self.new.used ≡ self.old.used - 1 }
        ensures lender { self.new.slots.ghost_name ≡ self.old.slots.ghost_name }
    {
        let top = self.top();
        self.used = self.used.saturating_sub(1);
        top
    }

    /// Makes `x` the top entry, in slot `n`.
    pub fn settle(&mut self, n: usize, x: T)
        requires { n < length self.old.slots.now }
        ensures slots { self.new.slots.now ≡ slice_set self.old.slots.now n x }
        ensures used { self.new.used ≡ n + 1 }
        ensures lender { self.new.slots.ghost_name ≡ self.old.slots.ghost_name }
    {
        self.slots[n] = x;
        self.used = n + 1;
    }

    /// Puts `x` into slot `i`; as many entries stay in use.
    pub fn replace(&mut self, i: usize, x: T)
        requires { i < length self.old.slots.now }
        ensures slots { self.new.slots.now ≡ slice_set self.old.slots.now i x }
        ensures used { self.new.used ≡ self.old.used }
        ensures lender { self.new.slots.ghost_name ≡ self.old.slots.ghost_name }
    {
        self.slots[i] = x;
    }

    /// Leaves `n` entries in use.
    pub fn resize(&mut self, n: usize)
        ensures slots { self.new.slots.now ≡ self.old.slots.now }
        ensures used { self.new.used ≡ n }
        ensures lender { self.new.slots.ghost_name ≡ self.old.slots.ghost_name }
    {
        self.used = n;
    }

    /// Puts `m` times `x` on top.
    pub fn grow(&mut self, m: usize, x: T)
        requires { self.old.used + m ≤ length self.old.slots.now }
        ensures slots { self.new.slots.now ≡ paste self.old.slots.now self.old.used (replicate m x) m }
        ensures length { length self.new.slots.now ≡ length self.old.slots.now }
        ensures used { self.new.used ≡ self.old.used + m }
        ensures lender { self.new.slots.ghost_name ≡ self.old.slots.ghost_name }
    {
        let used = self.used;
        fill(&mut self.slots[used..used + m], x);
        self.used = used + m;
    }

    /// Puts `x` and `y` in under the top `m` entries.
    pub fn open(&mut self, m: usize, x: T, y: T)
        requires { (m ≤ self.old.used) × (self.old.used + 2 ≤ length self.old.slots.now) }
        ensures slots { self.new.slots.now ≡ opened self.old.slots.now self.old.used m x y }
        ensures length { length self.new.slots.now ≡ length self.old.slots.now }
        ensures used { self.new.used ≡ self.old.used + 2 }
        ensures lender { self.new.slots.ghost_name ≡ self.old.slots.ghost_name }
    {
        let used = self.used;
        let from = used - m;
        self.slots.copy_within(from..used, from + 2);
        self.slots[from] = x;
        self.slots[from + 1] = y;
        self.used = used + 2;
    }

    /// Moves the top `m` entries down over the `n` below them.
    pub fn close(&mut self, m: usize, n: usize)
        requires { (m ≤ self.old.used) × ((n ≤ self.old.used - m) × (self.old.used ≤ length self.old.slots.now)) }
        ensures slots { self.new.slots.now ≡ closed self.old.slots.now self.old.used m n }
        ensures length { length self.new.slots.now ≡ length self.old.slots.now }
        ensures used { self.new.used ≡ self.old.used - n }
        ensures lender { self.new.slots.ghost_name ≡ self.old.slots.ghost_name }
    {
        let used = self.used;
        let from = used - m;
        self.slots.copy_within(from..used, from - n);
        self.used = used - n;
    }
}
