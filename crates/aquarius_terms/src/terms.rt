//! That each call which can answer want of memory succeeds where there is memory, what it then gives, and
//! the limits.
use cd_list::{Copied, Equals, Sequence};
use cd_term::{
    Args, Path, Subst, Term, apply, at, beside, depth, note_variables, renamed, replace,
    same_places, size, substitute,
};
use std::alloc::{AllocError, Global};
use std::test::Fail;

/// As many arguments as a letter has, from the end of a list: two for `f`, and none for another letter.
fn arguments(alloc: Global, symbol: u8, rest: &mut Args) -> Result<Args, AllocError> {
    let count = if symbol == b'f' { 2 } else { 0 };
    let mut args = Args::new(alloc);
    for _ in 0..count {
        if let Some(arg) = rest.pop() {
            args.push(arg)?;
        }
    }
    Ok(args)
}

/// The term with a head, a letter, or the variable of a digit.
fn headed(alloc: Global, symbol: u8, rest: &mut Args) -> Result<Term, AllocError> {
    if symbol.is_ascii_digit() {
        return Ok(Term::Var(u32::from(symbol - b'0')));
    }
    Ok(Term::App(u16::from(symbol), arguments(alloc, symbol, rest)?))
}

/// The terms that a text spells without brackets.
fn terms(alloc: Global, text: &str) -> Result<Args, AllocError> {
    let mut found = Args::new(alloc);
    for symbol in text.as_bytes().iter().rev() {
        let term = headed(alloc, *symbol, &mut found)?;
        found.push(term)?;
    }
    found.reverse();
    Ok(found)
}

fn term(alloc: Global, text: &str) -> Result<Term, AllocError> {
    let mut found = terms(alloc, text)?;
    Ok(found.pop().unwrap_or(Term::Var(0)))
}

/// Whether a text spells a copy of a term.
fn is_spelled(alloc: Global, value: &Term, wanted: &str) -> Result<bool, AllocError> {
    Ok(value.copy(alloc)?.equals(&term(alloc, wanted)?))
}

fn is_measured(alloc: Global, text: &str, symbols: u64, levels: u64) -> Result<bool, AllocError> {
    let term = term(alloc, text)?;
    Ok(size(&term) == symbols && depth(&term) == levels)
}

fn substitutes(alloc: Global, text: &str, values: &str, wanted: &str) -> Result<bool, AllocError> {
    let values = terms(alloc, values)?;
    let value = substitute(alloc, &term(alloc, text)?, values.as_slice())?;
    is_spelled(alloc, &value, wanted)
}

fn step(alloc: Global, place: u16) -> Result<Path, AllocError> {
    let mut path = Path::new(alloc);
    path.push(place)?;
    path.copy(alloc)
}

/// Whether the argument in a place gives way to another term.
fn replaces(
    alloc: Global,
    text: &str,
    place: u16,
    new: &str,
    wanted: &str,
) -> Result<bool, AllocError> {
    let path = step(alloc, place)?;
    let term_of_text = term(alloc, text)?;
    match replace(alloc, &term_of_text, &path, &term(alloc, new)?) {
        Ok(Some(value)) => Ok(
            at(&term_of_text, &path).is_some() && is_spelled(alloc, &value, wanted)?,
        ),
        _ => Ok(false),
    }
}

/// Whether a term with so many variables is renamed to another.
fn renames(alloc: Global, text: &str, count: usize, wanted: &str) -> Result<bool, AllocError> {
    let term = term(alloc, text)?;
    let mut order = Sequence::new(alloc);
    note_variables(&term, &mut order)?;
    if order.len() != count || count > 9 {
        return Ok(false);
    }
    is_spelled(alloc, &renamed(alloc, &term, order.as_slice())?, wanted)
}

fn are_same(alloc: Global, text: &str, k: u32, other: &str, m: u64) -> Result<bool, AllocError> {
    Ok(same_places(&term(alloc, text)?, k, &term(alloc, other)?, m))
}

fn stands_beside(
    alloc: Global,
    text: &str,
    other: &str,
    n: u64,
) -> Result<Option<u32>, AllocError> {
    Ok(beside(&term(alloc, text)?, &term(alloc, other)?, n))
}

/// A symbol of one argument so many times around a variable.
fn chain(alloc: Global, times: u16) -> Result<Term, AllocError> {
    let mut term = Term::Var(0);
    for _ in 0..times {
        let mut args = Args::new(alloc);
        args.push(term)?;
        term = Term::App(1, args);
    }
    Ok(term)
}

/// A symbol with so many variables as arguments.
fn wide(alloc: Global, width: u16) -> Result<Term, AllocError> {
    let mut args = Args::new(alloc);
    for _ in 0..width {
        args.push(Term::Var(5))?;
    }
    Ok(Term::App(2, args))
}

/// What `apply` gives for a variable with this value, where it isn't refused.
fn given(alloc: Global, value: Term) -> Result<Option<Term>, AllocError> {
    let mut values = Subst::new(alloc);
    values.push(value)?;
    if values.len() < 1 {
        return Ok(None);
    }
    match apply(alloc, &Term::Var(0), &values) {
        Ok(term) => Ok(Some(term)),
        Err(_) => Ok(None),
    }
}

/// Whether a term of these limits is found, and so is the value itself.
fn is_given(alloc: Global, is_wide: bool, count: u16) -> Result<bool, AllocError> {
    let value = if is_wide {
        wide(alloc, count)?
    } else {
        chain(alloc, count)?
    };
    match given(alloc, value.copy(alloc)?)? {
        Some(term) => Ok(term.equals(&value)),
        None => Ok(false),
    }
}

#[test]
fn terms_are_measured_and_changed(rt: HostRuntime) -> Result<(), Fail> {
    let alloc = rt.alloc();
    assert!(rt; is_measured(alloc, "f19", 3, 2)?);
    assert!(rt; substitutes(alloc, "f10", "9", "f19")?);
    assert!(rt; replaces(alloc, "f10", 1, "8", "f18")?);
    assert!(rt; renames(alloc, "f93", 2, "f01")?);
    Ok(())
}

#[test]
fn places_of_variables_are_compared(rt: HostRuntime) -> Result<(), Fail> {
    let alloc = rt.alloc();
    for (m, wanted) in [(0, true), (1, false)] {
        assert!(rt; are_same(alloc, "f93", 9, "f01", m)? == wanted, "{m}");
    }
    for (n, wanted) in [(0, Some(9)), (1, Some(3)), (2, None)] {
        assert!(rt; stands_beside(alloc, "f93", "f01", n)? == wanted, "{n}");
    }
    Ok(())
}

#[test]
fn terms_out_of_bounds_are_refused(rt: HostRuntime) -> Result<(), Fail> {
    let alloc = rt.alloc();
    for (is_wide, count, wanted) in [
        (false, 999, true),
        (false, 1_000, false),
        (true, 65_534, true),
        (true, 65_535, false),
    ] {
        assert!(rt; is_given(alloc, is_wide, count)? == wanted, "{count}");
    }
    Ok(())
}
