//! A test before a match.
#![tactic(auto)]

ghost use Rattle.std.specs.Prelude.{◌≡◌, ℕ, false};
ghost use Rattle.cd_term.specs.declared.Term.{Term};
ghost use Rattle.cd_unify.specs.Bindings.{TermBinds, ListBinds};

use cd_term::Term;

/// False only where no substitution makes a term equal to another one: there is another symbol at some place, or the
/// other term ends there. What the variables stand for isn't compared, and no memory is taken.
pub fn may_match(general: &Term, special: &Term) -> bool
    ensures { result ≡ false → (g : ℕ → Term) → ¬ TermBinds general.now special.now g }
{
    match (general, special) {
        (Term::Var(_), _) => true,
        (Term::App(f, args), Term::App(g, others)) => {
            if *f != *g || args.len() != others.len() {
                return false;
            }
            let others = others.as_slice();
            for (i, arg) in args.as_slice().iter().enumerate() {
                if !may_match(arg, &others[i]) {
                    return false;
                }
            }
            true
        }
        _ => false,
    }
}

/// The same of several terms.
pub fn may_match_all(general: &[Term], special: &[Term]) -> bool
    ensures { result ≡ false → (g : ℕ → Term) → ¬ ListBinds general.now special.now g }
{
    if general.len() != special.len() {
        return false;
    }
    for (i, term) in general.iter().enumerate() {
        if !may_match(term, &special[i]) {
            return false;
        }
    }
    true
}
