//! Unifiers at the limits, and of terms whose parts are shared.
use cd_list::Equals;
use cd_term::{Args, Subst, Term, TermFault};
use cd_unify::{are_below, mgu, plain_mgu};
use std::alloc::{AllocError, Global};
use std::test::Fail;

/// What the call that programs make answers, or the plain means; none where it cannot be asked.
fn unified(
    alloc: Global,
    left: &Args,
    right: &Args,
    vars: u32,
    plainly: bool,
) -> Option<Result<Option<Subst>, TermFault>> {
    if left.len() != right.len()
        || !are_below(left.as_slice(), vars)
        || !are_below(right.as_slice(), vars)
    {
        None
    } else if plainly {
        Some(plain_mgu(alloc, left, right, vars))
    } else {
        Some(mgu(alloc, left, right, vars))
    }
}

/// The kind of answer of the call that programs make.
fn kind(alloc: Global, left: &Args, right: &Args, vars: u32) -> &'static str {
    match unified(alloc, left, right, vars, false) {
        Some(Ok(Some(_))) => "found",
        Some(Ok(None)) => "none",
        Some(Err(TermFault::OutOfBounds)) => "refused",
        Some(Err(TermFault::Memory)) => "memory",
        None => "not asked",
    }
}

/// The symbol 1 of one argument so many times around a constant.
fn chain(alloc: Global, count: u32) -> Result<Term, AllocError> {
    let mut term = Term::App(0, Args::new(alloc));
    for _ in 0..count {
        let mut args = Args::new(alloc);
        args.push(term)?;
        term = Term::App(1, args);
    }
    Ok(term)
}

/// The symbol 2 with so many constants.
fn wide(alloc: Global, count: u32) -> Result<Term, AllocError> {
    let mut args = Args::new(alloc);
    for _ in 0..count {
        args.push(Term::App(0, Args::new(alloc)))?;
    }
    Ok(Term::App(2, args))
}

/// A constant, variable 0, or a symbol of variable 0.
fn small(alloc: Global, letter: u8) -> Result<Term, AllocError> {
    let mut args = Args::new(alloc);
    match letter {
        b'0' => Ok(Term::Var(0)),
        b'h' => {
            args.push(Term::Var(0))?;
            Ok(Term::App(1, args))
        }
        _ => Ok(Term::App(u16::from(letter), args)),
    }
}

/// The kind of answer for variable 0 and a large term, with a pair of small terms or none behind them.
fn with_large(alloc: Global, large: Term, pair: &str) -> Result<&'static str, AllocError> {
    let mut left = Args::new(alloc);
    left.push(Term::Var(0))?;
    let mut right = Args::new(alloc);
    right.push(large)?;
    if let [one, other] = pair.as_bytes() {
        left.push(small(alloc, *one)?)?;
        right.push(small(alloc, *other)?)?;
    }
    Ok(kind(alloc, &left, &right, 1))
}

#[test]
fn deep_unifiers_are_refused_where_there_is_one(rt: HostRuntime) -> Result<(), Fail> {
    let alloc = rt.alloc();
    for (count, pair, wanted) in [
        (999, "", "found"),
        (1_000, "", "refused"),
        (1_000, "0a", "none"),
    ] {
        let kind = with_large(alloc, chain(alloc, count)?, pair)?;
        assert_eq!(rt; kind, wanted, "{count}{pair}");
    }
    Ok(())
}

#[test]
fn wide_unifiers_are_refused_where_there_is_one(rt: HostRuntime) -> Result<(), Fail> {
    let alloc = rt.alloc();
    for (count, pair, wanted) in [
        (65_534, "", "found"),
        (65_535, "", "refused"),
        (65_535, "ab", "none"),
        (65_535, "0h", "none"),
    ] {
        let kind = with_large(alloc, wide(alloc, count)?, pair)?;
        assert_eq!(rt; kind, wanted, "{count}{pair}");
    }
    Ok(())
}

/// `g(x, x)` for each variable below a number, first or last one first.
fn doubled(alloc: Global, count: u32, reversed: bool) -> Result<Args, AllocError> {
    let mut terms = Args::new(alloc);
    for k in 0..count {
        let mut args = Args::new(alloc);
        args.push(Term::Var(k))?;
        args.push(Term::Var(k))?;
        terms.push(Term::App(7, args))?;
    }
    if reversed {
        terms.reverse();
    }
    Ok(terms)
}

/// The variables behind these, in the same order.
fn next_ones(alloc: Global, count: u32, reversed: bool) -> Result<Args, AllocError> {
    let mut terms = Args::new(alloc);
    for k in 0..count {
        terms.push(Term::Var(k.saturating_add(1)))?;
    }
    if reversed {
        terms.reverse();
    }
    Ok(terms)
}

/// Whether both are answered so, the one way and the other, maybe with the first and the last variable joined.
fn answers(
    alloc: Global,
    count: u32,
    reversed: bool,
    joined: bool,
    wanted: &str,
) -> Result<bool, AllocError> {
    let mut left = next_ones(alloc, count, reversed)?;
    let mut right = doubled(alloc, count, reversed)?;
    if joined {
        left.push(Term::Var(0))?;
        right.push(Term::Var(count))?;
    }
    let vars = count.saturating_add(1);
    Ok(kind(alloc, &left, &right, vars) == wanted && kind(alloc, &right, &left, vars) == wanted)
}

/// Whether the plain means find the same unifier.
fn is_plain(alloc: Global, count: u32, reversed: bool) -> Result<bool, AllocError> {
    let left = next_ones(alloc, count, reversed)?;
    let right = doubled(alloc, count, reversed)?;
    let vars = count.saturating_add(1);
    let answer = unified(alloc, &left, &right, vars, false);
    match (answer, unified(alloc, &right, &left, vars, true)) {
        (Some(Ok(Some(s))), Some(Ok(Some(t)))) => Ok(s.equals(&t)),
        _ => Ok(false),
    }
}

/// The unifier of a thousand shared terms has more than 2 to the power of 1,000 symbols. Up to a few variables
/// the plain means answer the same.
#[test]
fn shared_terms_are_looked_at_once(rt: HostRuntime) -> Result<(), Fail> {
    let alloc = rt.alloc();
    for (reversed, joined, wanted) in [
        (false, false, "refused"),
        (true, false, "refused"),
        (false, true, "none"),
        (true, true, "none"),
    ] {
        assert!(rt; answers(alloc, 1_000, reversed, joined, wanted)?);
    }
    for count in 0..8 {
        assert!(rt; is_plain(alloc, count, count % 2 == 0)?);
    }
    Ok(())
}
