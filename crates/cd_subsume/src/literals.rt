//! Literals bound to others.
#![tactic(auto)]

ghost use Rattle.std.specs.Prelude.{◌≡◌, ◌≤◌, ℕ, false, length, map, IfOk};
ghost use Rattle.cd_term.specs.declared.Term.{Term};
ghost use Rattle.cd_term.specs.Terms.{bound_of, greatest};
ghost use Rattle.cd_clause.specs.Clauses.{terms_of};
ghost use Rattle.cd_unify.specs.Bindings.{values_in, room_in, trail_in, IsNoted, Binds};
ghost use Rattle.cd_subsume.specs.Literals.{PairBinds, AtomBinds, LiteralBinds};

use cd_clause::{Atom, Literal};
use cd_term::Term;
use cd_unify::{Bindings, may_match, may_match_all};
use std::alloc::AllocError;

/// False only where no instance of a literal is another one, as it stands or with its sides exchanged: the signs or
/// some symbols differ, or the other literal is too small. No memory is taken.
pub fn may_become(l: &Literal, m: &Literal, is_exchanged: bool) -> bool
    ensures { result ≡ false → (g : ℕ → Term) → ¬ LiteralBinds is_exchanged l.now m.now g }
{
    if l.positive != m.positive {
        return false;
    }
    match (&l.atom, &m.atom) {
        (Atom::Truth, Atom::Truth) => !is_exchanged,
        (Atom::Pred(p, args), Atom::Pred(q, others)) => {
            if is_exchanged || *p != *q {
                return false;
            }
            may_match_all(args.as_slice(), others.as_slice())
        }
        (Atom::Equal(s, t), Atom::Equal(u, v)) => {
            if is_exchanged {
                may_match(t, u) && may_match(s, v)
            } else {
                may_match(s, u) && may_match(t, v)
            }
        }
        _ => false,
    }
}

/// Binds two terms to two others.
fn bind_sides<'c>(
    s: &Term,
    t: &Term,
    u: &'c Term,
    v: &'c Term,
    bindings: &mut Bindings<'c>,
) -> Result<bool, AllocError>
    ensures covers { room_in bindings.new ≡ room_in bindings.old }
    ensures fits { IfOk result (λ answer. bound_of s.now ≤ room_in bindings.old → bound_of t.now ≤ room_in bindings.old →
        Binds (PairBinds s.now t.now u.entry.now v.entry.now) (values_in bindings.old) (values_in bindings.new) answer) }
    ensures noted { IfOk result (λ answer. IsNoted bindings.old bindings.new) }
{
    if !bindings.bind(s, u)? {
        return Ok(false);
    }
    let answer = bindings.bind(t, v)?;
    Ok(answer)
}

/// Binds the variables of an atom so that it becomes another one as it stands, or with its sides exchanged.
fn bind_atom<'c>(
    a: &Atom,
    b: &'c Atom,
    is_exchanged: bool,
    bindings: &mut Bindings<'c>,
) -> Result<bool, AllocError>
    ensures covers { room_in bindings.new ≡ room_in bindings.old }
    ensures fits { IfOk result (λ answer. greatest (map bound_of (terms_of a.now)) ≤ room_in bindings.old →
        Binds (AtomBinds is_exchanged a.now b.entry.now) (values_in bindings.old) (values_in bindings.new) answer) }
    ensures noted { IfOk result (λ answer. IsNoted bindings.old bindings.new) }
{
    match (a, b) {
        (Atom::Truth, Atom::Truth) => Ok(!is_exchanged),
        (Atom::Pred(p, args), Atom::Pred(q, others)) => {
            if is_exchanged || *p != *q {
                return Ok(false);
            }
            let answer = bindings.bind_all(args.as_slice(), others.as_slice())?;
            Ok(answer)
        }
        (Atom::Equal(s, t), Atom::Equal(u, v)) => {
            if is_exchanged {
                let turned = bind_sides(t, s, u, v, bindings)?;
                return Ok(turned);
            }
            let straight = bind_sides(s, t, u, v, bindings)?;
            Ok(straight)
        }
        _ => Ok(false),
    }
}

/// Binds the variables of a literal so that it becomes another one. Where there is no way, all is as before.
pub fn bind_literal<'c>(
    l: &Literal,
    m: &'c Literal,
    is_exchanged: bool,
    bindings: &mut Bindings<'c>,
) -> Result<bool, AllocError>
    ensures covers { room_in bindings.new ≡ room_in bindings.old }
    ensures fits { IfOk result (λ answer. greatest (map bound_of (terms_of l.now.atom)) ≤ room_in bindings.old →
        Binds (LiteralBinds is_exchanged l.now m.entry.now) (values_in bindings.old) (values_in bindings.new) answer) }
    ensures noted { IfOk result (λ answer. IsNoted bindings.old bindings.new) }
    ensures kept { IfOk result (λ answer. answer ≡ false →
        (values_in bindings.new ≡ values_in bindings.old) × (trail_in bindings.new ≡ trail_in bindings.old)) }
{
    if l.positive != m.positive {
        return Ok(false);
    }
    if !may_become(l, m, is_exchanged) {
        return Ok(false);
    }
    let mark = bindings.mark();
    if bind_atom(&l.atom, &m.atom, is_exchanged, bindings)? {
        return Ok(true);
    }
    bindings.undo(mark);
    Ok(false)
}

/// Whether the variables of a literal can be bound so that it becomes another one. All is left as before.
pub fn can_bind<'c>(
    l: &Literal,
    m: &'c Literal,
    is_exchanged: bool,
    bindings: &mut Bindings<'c>,
) -> Result<bool, AllocError>
    ensures covers { room_in bindings.new ≡ room_in bindings.old }
    ensures values { IfOk result (λ answer. values_in bindings.new ≡ values_in bindings.old) }
    ensures trail { IfOk result (λ answer. trail_in bindings.new ≡ trail_in bindings.old) }
{
    let mark = bindings.mark();
    if !bind_literal(l, m, is_exchanged, bindings)? {
        return Ok(false);
    }
    bindings.undo(mark);
    Ok(true)
}
