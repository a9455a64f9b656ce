//! Unification of terms where they stand: each variable is bound to a term that is borrowed, and nothing is copied
//! before a unifier is known. Where that would take too many steps it is left open.
#![tactic(auto)]

ghost use Rattle.std.specs.Prelude.{◌≡◌, ◌≤◌, ◌<◌, ◌^◌, ℕ, map, length, sum_by, IfOk, IfSome, IsTrue, slice_index_or, None};
ghost use Rattle.cd_term.specs.declared.Term.{Term};
ghost use Rattle.cd_term.specs.Terms.{substituted, ranked, bound_of, greatest, size_of};
ghost use Rattle.cd_unify.specs.Unifiers.{raised};
ghost use Rattle.cd_unify.specs.Direct.{standing, bound_to, Solves, Settles, Joins, JoinsAll, resolved, Resolves, IsSurveyed, AreSurveyed, IsFinished, IsDirect};

use crate::robinson::identity;
use cd_list::Sequence;
use cd_term::{Args, MAX_LEVELS, MAX_SYMBOLS, Subst, Term, rank_of};
use std::alloc::{AllocError, Global};

/// A term where it stands. Its variables are moved up by a number.
#[derive(Clone, Copy)]
pub struct Standing<'a> {
    pub term: &'a Term,
    pub up: u32,
}

/// What became of an equation: it holds with the values that variables have now, it holds with none, or that is
/// left open.
#[derive(Drop)]
pub enum Outcome {
    Equal,
    Apart,
    Open,
}

/// What direct unification answers.
#[derive(Drop)]
pub enum Direct {
    Refuted,
    Unified(Subst),
    Undecided,
}

/// How many terms are looked at before an answer is left open.
const STEPS: u64 = 65_535;

/// A place for each variable below a number, with no value yet.
fn unbound<'a>(alloc: Global, vars: u32) -> Result<Vec<Option<Standing<'a>>>, AllocError>
    ensures covers { IfOk result (λ values. length values.items ≡ vars) }
    ensures none { IfOk result (λ values. (k : ℕ) → slice_index_or (bound_to values.items) k None ≡ None) }
{
    let mut values: Vec<Option<Standing<'a>>> = Vec::new(alloc);
    for _ in 0..vars {
        values.push(None)?;
    }
    Ok(values)
}

/// What a term stands for: where it is a bound variable, what that is bound to in the end.
fn followed<'a>(values: &[Option<Standing<'a>>], start: Standing<'a>, levels: u64) -> Standing<'a>
    ensures { (g : ℕ → Term) → Solves g (bound_to values.now) → Joins (standing start.entry) (standing result) g }
{
    if levels == 0 {
        return start;
    }
    let Term::Var(k) = start.term else {
        return start;
    };
    let place = start.up as usize + *k as usize;
    if place >= values.len() {
        return start;
    }
    match values[place] {
        None => start,
        Some(next) => followed(values, next, levels - 1),
    }
}

/// Whether a variable is known to occur in what a term stands for.
fn occurs_at<'a>(
    x: usize,
    start: Standing<'a>,
    values: &[Option<Standing<'a>>],
    steps: &mut u64,
    levels: u64,
) -> bool
    ensures { IsTrue result → (g : ℕ → Term) → Solves g (bound_to values.now) →
        size_of (g x) ≤ size_of (substituted g (standing start.entry)) }
{
    if levels == 0 {
        return false;
    }
    if *steps == 0 {
        return false;
    }
    *steps -= 1;
    let here = followed(values, start, MAX_LEVELS);
    match here.term {
        Term::Var(k) => here.up as usize + *k as usize == x,
        Term::App(_, args) => {
            for arg in args.as_slice() {
                let inner = Standing {
                    term: arg,
                    up: here.up,
                };
                if occurs_at(x, inner, values, steps, levels - 1) {
                    return true;
                }
            }
            false
        }
    }
}

/// The same of several terms whose variables are moved up.
fn occurs_among<'a>(
    x: usize,
    terms: &'a [Term],
    up: u32,
    values: &[Option<Standing<'a>>],
    steps: &mut u64,
) -> bool
    ensures { IsTrue result → (g : ℕ → Term) → Solves g (bound_to values.now) →
        size_of (g x) ≤ sum_by size_of (map (substituted g) (map (raised up) terms.now)) }
{
    for term in terms {
        if occurs_at(x, Standing { term, up }, values, steps, MAX_LEVELS) {
            return true;
        }
    }
    false
}

/// Binds a variable to a term.
fn bind<'a>(
    x: usize,
    to: Standing<'a>,
    values: &mut Vec<Option<Standing<'a>>>,
    steps: &mut u64,
) -> Outcome
    ensures covers { length values.new.items ≡ length values.old.items }
    ensures settles { Settles (λ g. g x ≡ substituted g (standing to.entry)) (bound_to values.old.items) (bound_to values.new.items) result }
{
    if x >= values.len() {
        return Outcome::Open;
    }
    if let Term::App(_, args) = to.term {
        if occurs_among(x, args.as_slice(), to.up, values.as_slice(), steps) {
            return Outcome::Apart;
        }
    }
    match values[x] {
        Some(_) => Outcome::Open,
        None => {
            values[x] = Some(to);
            Outcome::Equal
        }
    }
}

/// Binds variables so that two terms become equal.
fn equate<'a>(
    left: Standing<'a>,
    right: Standing<'a>,
    values: &mut Vec<Option<Standing<'a>>>,
    steps: &mut u64,
    levels: u64,
) -> Outcome
    ensures covers { length values.new.items ≡ length values.old.items }
    ensures settles { Settles (Joins (standing left.entry) (standing right.entry)) (bound_to values.old.items) (bound_to values.new.items) result }
{
    if levels == 0 {
        return Outcome::Open;
    }
    if *steps == 0 {
        return Outcome::Open;
    }
    *steps -= 1;
    let l = followed(values.as_slice(), left, MAX_LEVELS);
    let r = followed(values.as_slice(), right, MAX_LEVELS);
    match (l.term, r.term) {
        (Term::Var(a), Term::Var(b)) => {
            let x = l.up as usize + *a as usize;
            let y = r.up as usize + *b as usize;
            if x == y {
                return Outcome::Equal;
            }
            bind(x, r, values, steps)
        }
        (Term::Var(a), Term::App(_, _)) => bind(l.up as usize + *a as usize, r, values, steps),
        (Term::App(_, _), Term::Var(b)) => bind(r.up as usize + *b as usize, l, values, steps),
        (Term::App(f, args), Term::App(g, others)) => {
            if *f != *g || args.len() != others.len() {
                return Outcome::Apart;
            }
            let others = others.as_slice();
            for (i, arg) in args.as_slice().iter().enumerate() {
                let one = Standing {
                    term: arg,
                    up: l.up,
                };
                let other = Standing {
                    term: &others[i],
                    up: r.up,
                };
                match equate(one, other, values, steps, levels - 1) {
                    Outcome::Equal => {}
                    Outcome::Apart => return Outcome::Apart,
                    Outcome::Open => return Outcome::Open,
                }
            }
            Outcome::Equal
        }
    }
}

/// Binds variables so that two lists of terms become equal, the second with its variables moved up.
fn equate_all<'a>(
    left: &'a [Term],
    right: &'a [Term],
    up: u32,
    values: &mut Vec<Option<Standing<'a>>>,
) -> Outcome
    requires { length left.now ≡ length right.now }
    ensures covers { length values.new.items ≡ length values.old.items }
    ensures settles { Settles (JoinsAll left.now (map (raised up) right.now)) (bound_to values.old.items) (bound_to values.new.items) result }
{
    let mut steps = STEPS;
    for (i, term) in left.iter().enumerate() {
        let one = Standing { term, up: 0 };
        let other = Standing {
            term: &right[i],
            up,
        };
        match equate(one, other, values, &mut steps, MAX_LEVELS) {
            Outcome::Equal => {}
            Outcome::Apart => return Outcome::Apart,
            Outcome::Open => return Outcome::Open,
        }
    }
    Outcome::Equal
}

/// The size of what a term stands for in the end, where it is within bounds; and its variables are noted.
fn survey(
    values: &[Option<Standing>],
    start: Standing,
    seen: &mut Sequence<u32>,
    symbols: u64,
    levels: u64,
) -> Result<Option<u64>, AllocError>
    requires { length values.now < 2 ^ 32 }
    ensures few { IfOk result (λ o. IfSome o (λ n. n ≤ symbols)) }
    ensures surveyed { IfOk result (λ o. IfSome o (λ n.
        Resolves (bound_to values.now) levels (standing start.entry) (IsSurveyed symbols levels seen.old seen.new n))) }
{
    if levels == 0 {
        return Ok(None);
    }
    if symbols == 0 {
        return Ok(None);
    }
    match start.term {
        Term::Var(k) => {
            let place = start.up as usize + *k as usize;
            if place >= values.len() {
                return Ok(None);
            }
            match values[place] {
                Some(next) => survey(values, next, seen, symbols, levels - 1),
                None => {
                    let x = place as u32;
                    if !seen.as_slice().contains(&x) {
                        seen.push(x)?;
                    }
                    Ok(Some(1))
                }
            }
        }
        Term::App(_, args) => {
            let mut total: u64 = 1;
            for arg in args.as_slice() {
                let inner = Standing {
                    term: arg,
                    up: start.up,
                };
                let Some(more) = survey(values, inner, seen, symbols - total, levels - 1)? else {
                    return Ok(None);
                };
                total += more;
            }
            Ok(Some(total))
        }
    }
}

/// The same of several terms.
fn survey_all(
    values: &[Option<Standing>],
    terms: &[Term],
    seen: &mut Sequence<u32>,
) -> Result<Option<u64>, AllocError>
    requires { length values.now < 2 ^ 32 }
    ensures { IfOk result (λ o. IfSome o (λ n. (m : ℕ) → 1000 ≤ m →
        AreSurveyed 65535 1000 seen.old seen.new n (map (substituted (resolved (bound_to values.now) m)) (map (raised 0) terms.now)))) }
{
    let mut total: u64 = 0;
    for term in terms {
        let start = Standing { term, up: 0 };
        let Some(more) = survey(values, start, seen, MAX_SYMBOLS - total, MAX_LEVELS)? else {
            return Ok(None);
        };
        total += more;
    }
    Ok(Some(total))
}

/// What a term stands for in the end, with its variables renamed to their places in a list.
fn build(
    alloc: Global,
    values: &[Option<Standing>],
    start: Standing,
    order: &[u32],
    levels: u64,
) -> Result<Term, AllocError>
    requires small { length values.now < 2 ^ 32 }
    requires few { length order.now < 2 ^ 32 }
    ensures { IfOk result (λ t. Resolves (bound_to values.now) levels (standing start.entry) (λ u. t ≡ substituted (ranked order.now) u)) }
{
    if levels == 0 {
        return Err(AllocError);
    }
    match start.term {
        Term::Var(k) => {
            let place = start.up as usize + *k as usize;
            if place >= values.len() {
                return Err(AllocError);
            }
            match values[place] {
                Some(next) => build(alloc, values, next, order, levels - 1),
                None => Ok(Term::Var(rank_of(order, place as u32) as u32)),
            }
        }
        Term::App(f, args) => {
            let mut built = Args::new(alloc);
            for arg in args.as_slice() {
                let inner = Standing {
                    term: arg,
                    up: start.up,
                };
                built.push(build(alloc, values, inner, order, levels - 1)?)?;
            }
            Ok(Term::App(*f, built))
        }
    }
}

/// The same of several terms.
fn build_all(
    alloc: Global,
    values: &[Option<Standing>],
    terms: &[Term],
    order: &[u32],
) -> Result<Subst, AllocError>
    requires small { length values.now < 2 ^ 32 }
    requires few { length order.now < 2 ^ 32 }
    ensures { IfOk result (λ s. (m : ℕ) → 1000 ≤ m →
        s ≡ map (substituted (ranked order.now)) (map (substituted (resolved (bound_to values.now) m)) (map (raised 0) terms.now))) }
{
    let mut built = Subst::new(alloc);
    for term in terms {
        let start = Standing { term, up: 0 };
        built.push(build(alloc, values, start, order, MAX_LEVELS)?)?;
    }
    Ok(built)
}

/// The most general unifier, in normal form, that the values of variables give, or nothing where it is left open.
fn finish(
    alloc: Global,
    values: &[Option<Standing>],
    vars: u32,
) -> Result<Option<Subst>, AllocError>
    requires { length values.now ≡ vars }
    ensures { IfOk result (λ o. IfSome o (IsFinished vars (bound_to values.now))) }
{
    let variables = identity(alloc, vars)?;
    let mut seen = Sequence::new(alloc);
    let Some(_) = survey_all(values, variables.as_slice(), &mut seen)? else {
        return Ok(None);
    };
    Ok(Some(build_all(alloc, values, variables.as_slice(), seen.as_slice())?))
}

/// The most general unifier of two lists of terms, the second with its variables moved up, as far as it is found
/// without classes.
pub fn unify_directly(
    alloc: Global,
    left: &[Term],
    right: &[Term],
    up: u32,
    vars: u32,
) -> Result<Direct, AllocError>
    requires as_many { length left.now ≡ length right.now }
    requires left { greatest (map bound_of left.now) ≤ vars }
    requires right { greatest (map bound_of (map (raised up) right.now)) ≤ vars }
    ensures { IfOk result (IsDirect vars left.now (map (raised up) right.now)) }
{
    let mut values = unbound(alloc, vars)?;
    match equate_all(left, right, up, &mut values) {
        Outcome::Apart => Ok(Direct::Refuted),
        Outcome::Open => Ok(Direct::Undecided),
        Outcome::Equal => match finish(alloc, values.as_slice(), vars)? {
            None => Ok(Direct::Undecided),
            Some(s) => Ok(Direct::Unified(s)),
        },
    }
}
