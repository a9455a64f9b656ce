//! Terms that no substitutions make equal, told by their symbols alone. No memory is taken.
#![tactic(auto)]

ghost use Rattle.std.specs.Prelude.{IsTrue};
ghost use Rattle.cd_infer.specs.Concluding.{AreApart, AreAllApart};

use cd_term::Term;

/// Whether two terms have different symbols, or different numbers of arguments, at some place of both, so that no
/// two substitutions make them equal.
/// Recurs to the depth of its terms: see 'How deep terms may be' in docs/ARCHITECTURE.md.
pub fn clash(t: &Term, u: &Term) -> bool
    ensures { IsTrue result → AreApart t.now u.now }
{
    match (t, u) {
        (Term::App(f, args), Term::App(g, others)) => {
            let args = args.as_slice();
            let others = others.as_slice();
            if *f != *g {
                return true;
            }
            if args.len() != others.len() {
                return true;
            }
            for i in 0..args.len() {
                if clash(&args[i], &others[i]) {
                    return true;
                }
            }
            false
        }
        _ => false,
    }
}

/// The same of two lists of terms.
pub fn all_clash(ts: &[Term], us: &[Term]) -> bool
    ensures { IsTrue result → AreAllApart ts.now us.now }
{
    if ts.len() != us.len() {
        return true;
    }
    for i in 0..ts.len() {
        if clash(&ts[i], &us[i]) {
            return true;
        }
    }
    false
}
