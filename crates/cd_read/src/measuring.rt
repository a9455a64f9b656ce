//! Trees measured within bounds.
ghost use Rattle.std.specs.Prelude.{◌↔◌, ◌∷◌, [], IsTrue};
ghost use Rattle.cd_read.specs.Meaning.{AreWithin};
ghost use Rattle.cd_read.specs.Bounds.{IsMeasure, AreMeasured, IsAtomMeasure};

use cd_parse::{Side, Tree, TreeAtom, TreeLiteral};

/// The most symbols and variables that a clause has.
const MAX_SYMBOLS: u64 = 65_535;

/// The most levels of an atom.
const MAX_LEVELS: u64 = 1_000;

/// The size of a tree of at most `symbols` words and at most `levels` levels, or `None` for another tree. It
/// looks at no more than `symbols` words, and recurs no more than `levels` deep below the first call.
fn measure(t: &Tree, symbols: u64, levels: u64) -> Option<u64>
    ensures { IsMeasure symbols levels t.now result }
{
    if symbols == 0 || levels == 0 {
        return None;
    }
    match t {
        Tree::Var(_) => Some(1),
        Tree::App(_, args) => {
            let mut total: u64 = 1;
            for arg in args.as_slice() {
                let Some(more) = measure(arg, symbols - total, levels - 1) else {
                    return None;
                };
                total += more;
            }
            Some(total)
        }
    }
}

fn measure_all(ts: &[Tree], symbols: u64, levels: u64) -> Option<u64>
    ensures { AreMeasured symbols levels ts.now result }
{
    let mut total: u64 = 0;
    for t in ts {
        let Some(more) = measure(t, symbols - total, levels) else {
            return None;
        };
        total += more;
    }
    Some(total)
}

fn measure_side(side: &Side, symbols: u64, levels: u64) -> Option<u64>
    ensures { IsMeasure symbols levels side.now result }
{
    measure(side.tree(), symbols, levels)
}

fn measure_both(l: &Tree, r: &Side, symbols: u64, levels: u64) -> Option<u64>
    ensures { AreMeasured symbols levels (l.now ∷ r.now ∷ []) result }
{
    let Some(left) = measure(l, symbols, levels) else {
        return None;
    };
    let Some(right) = measure_side(r, symbols - left, levels) else {
        return None;
    };
    Some(left + right)
}

fn measure_atom(atom: &TreeAtom, symbols: u64) -> Option<u64>
    ensures { IsAtomMeasure symbols atom.now result }
{
    if symbols == 0 {
        return None;
    }
    let inner = match atom {
        TreeAtom::Truth => Some(0),
        TreeAtom::Pred(_, args) => measure_all(args.as_slice(), symbols - 1, MAX_LEVELS - 1),
        TreeAtom::Equal(l, r) => measure_both(l, r, symbols - 1, MAX_LEVELS),
    };
    let Some(size) = inner else {
        return None;
    };
    Some(1 + size)
}

/// Whether a clause has at most 65,535 symbols and variables, and each atom at most 1,000 levels. No more than
/// 65,535 words are looked at, and no memory is taken.
pub fn is_within(literals: &[TreeLiteral]) -> bool
    ensures { IsTrue result ↔ AreWithin literals.now }
{
    let mut total: u64 = 0;
    for literal in literals {
        let Some(more) = measure_atom(&literal.atom, MAX_SYMBOLS - total) else {
            return false;
        };
        total += more;
    }
    true
}
