//! Tables of the shapes of a clause, in which the shapes of other clauses are looked up.
#![tactic(auto)]

ghost use Rattle.std.specs.Prelude.{◌<◌, ◌↔◌, ℕ, IsTrue};
ghost use Rattle.cd_contract.specs.Shapes.{mix};
ghost use Rattle.cd_contract.specs.Marks.{Marked, BrieflyMarked, Keeps, MarksRow, MarksGrid};

use crate::shapes::mixed;

/// Which numbers below 4,096 are marked.
#[derive(Clone, Copy, Debug)]
pub struct Marks {
    pub words: [u64; 64],
}

/// The same in 512 bits, of which numbers that leave the same when divided by 512 share one.
#[derive(Clone, Copy, Debug)]
pub struct Brief {
    pub words: [u64; 8],
}

impl Marks {
    /// The number 0 alone.
    pub fn new() -> Marks
        ensures { Marked result 0 }
    {
        let mut marks = Marks { words: [0; 64] };
        marks.mark(0);
        marks
    }

    /// Marks a number.
    pub fn mark(&mut self, k: u16)
        requires { k < 4096 }
        ensures marked { Marked self.new k }
        ensures kept { Keeps self.old self.new }
    {
        let i = usize::from(k / 64);
        self.words[i] |= 1 << (k % 64);
    }

    /// Whether a number is marked.
    pub fn has(&self, k: u16) -> bool
        ensures { IsTrue result ↔ Marked self.now k }
    {
        let is_marked = (self.words[usize::from(k / 64 % 64)] >> (k % 64)) & 1 == 1;
        is_marked && k < 4096
    }

    /// Marks what a symbol makes of a number and each of others, of which many are the same as the one before.
    fn mark_row(&mut self, symbol: u32, x: u16, ys: &[u16; 5])
        ensures kept { Keeps self.old self.new }
        ensures row { MarksRow self.new (mix symbol x) ys.now }
    {
        let mut last = None;
        for y in ys {
            if last == Some(*y) {
                continue;
            }
            self.mark(mixed(symbol, x, *y));
            last = Some(*y);
        }
    }

    /// The same of each of some numbers and each of others.
    pub fn mark_grid(&mut self, symbol: u32, xs: &[u16; 5], ys: &[u16; 5])
        ensures kept { Keeps self.old self.new }
        ensures grid { MarksGrid self.new (mix symbol) xs.now ys.now }
    {
        let mut last = None;
        for x in xs {
            if last == Some(*x) {
                continue;
            }
            self.mark_row(symbol, *x, ys);
            last = Some(*x);
        }
    }

    /// The same marks in fewer bits.
    pub fn brief(&self) -> Brief
        ensures { (k : ℕ) → Marked self.now k → BrieflyMarked result k }
    {
        let mut words = [0; 8];
        for (i, word) in self.words.iter().enumerate() {
            words[i % 8] |= *word;
        }
        Brief { words }
    }
}

impl Brief {
    /// Whether a number, or another one with the same mark, is marked.
    pub fn has(&self, k: u16) -> bool
        ensures { IsTrue result ↔ BrieflyMarked self.now k }
    {
        if k >= 4096 {
            return false;
        }
        (self.words[usize::from(k / 64 % 8)] >> (k % 64)) & 1 == 1
    }
}
