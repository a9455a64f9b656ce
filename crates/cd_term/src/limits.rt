//! Terms measured within limits.
#![tactic(auto)]

ghost use Rattle.std.specs.Prelude.{◌≡◌};
ghost use Rattle.cd_term.specs.Terms.{IsMeasure, AreMeasured};

use crate::Term;

/// The most symbols and variables that a term within limits has.
pub const MAX_SYMBOLS: u64 = 65_535;

/// The most levels that a term within limits has.
pub const MAX_LEVELS: u64 = 1_000;

/// The size of a term of at most `symbols` symbols and variables and at most `levels` levels, or `None` for
/// another term. It looks at no more than `symbols` of them, and recurs no more than `levels` deep below the
/// first call.
/// Recurs to the depth of its terms: see 'How deep terms may be' in docs/ARCHITECTURE.md.
pub fn measure(t: &Term, symbols: u64, levels: u64) -> Option<u64>
    ensures { IsMeasure symbols levels t.now result }
{
    if symbols == 0 || levels == 0 {
        return None;
    }
    match t {
        Term::Var(_) => Some(1),
        Term::App(_, args) => {
            let mut total: u64 = 1;
            for arg in args.as_slice() {
                let Some(more) = measure(arg, symbols - total, levels - 1) else {
                    return None;
                };
                total += more;
            }
            Some(total)
        }
    }
}

/// The sizes of several terms together, where they have at most `symbols` symbols and variables together and
/// each has at most `levels` levels, or `None` otherwise.
/// Recurs to the depth of its terms: see 'How deep terms may be' in docs/ARCHITECTURE.md.
pub fn measure_all(ts: &[Term], symbols: u64, levels: u64) -> Option<u64>
    ensures { AreMeasured symbols levels ts.now result }
{
    let mut total: u64 = 0;
    for t in ts {
        let Some(more) = measure(t, symbols - total, levels) else {
            return None;
        };
        total += more;
    }
    Some(total)
}
