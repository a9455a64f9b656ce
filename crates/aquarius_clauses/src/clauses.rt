//! That each call which can answer want of memory succeeds where there is memory, and what it then gives.
use cd_clause::{
    Atom, Clause, Literal, Literals, is_tautology, is_tidied, join, renumber, size, tidy,
    variables, within,
};
use cd_list::{Copied, Equals};
use cd_term::{Args, Subst, Term};
use std::alloc::{AllocError, Global};
use std::test::Fail;

fn variable(digit: u8) -> Term {
    Term::Var(u32::from(digit.saturating_sub(b'0')))
}

/// The atom `=` of two variables, `p` of one, or `$true`.
fn atom(alloc: Global, text: &[u8]) -> Result<Atom, AllocError> {
    match text {
        [b'=', left, right] => Ok(Atom::Equal(variable(*left), variable(*right))),
        [b'p', argument] => {
            let mut args = Args::new(alloc);
            args.push(variable(*argument))?;
            Ok(Atom::Pred(3, args))
        }
        _ => Ok(Atom::Truth),
    }
}

/// The clause of the literals between blanks, each a sign and an atom, where a digit is a variable.
fn clause(alloc: Global, text: &str) -> Result<Clause, AllocError> {
    let mut literals = Literals::new(alloc);
    for part in text.split(' ') {
        if let [sign, rest @ ..] = part.as_bytes() {
            literals.push(Literal {
                positive: *sign == b'+',
                atom: atom(alloc, rest)?,
            })?;
        }
    }
    Ok(Clause { literals })
}

fn is_spelled(alloc: Global, c: &Clause, wanted: &str) -> Result<bool, AllocError> {
    Ok(c.copy(alloc)?.equals(&clause(alloc, wanted)?))
}

fn is_measured(
    alloc: Global,
    text: &str,
    symbols: u64,
    bound: u64,
    is_true: bool,
) -> Result<bool, AllocError> {
    let c = clause(alloc, text)?;
    Ok(size(&c) == symbols && variables(&c) == bound && is_tautology(&c) == is_true && within(&c))
}

fn renumbers(alloc: Global, text: &str, wanted: &str) -> Result<bool, AllocError> {
    let c = clause(alloc, text)?;
    is_spelled(alloc, &renumber(alloc, &c)?, wanted)
}

fn is_form(alloc: Global, text: &str, other: &str) -> Result<bool, AllocError> {
    Ok(is_tidied(&clause(alloc, text)?, &clause(alloc, other)?))
}

fn tidies(alloc: Global, text: &str, wanted: &str) -> Result<bool, AllocError> {
    let c = clause(alloc, text)?;
    let d = tidy(alloc, &c)?;
    Ok(is_tidied(&c, &d) && is_spelled(alloc, &d, wanted)?)
}

/// Whether two clauses with one variable each and at least two literals give a clause without the first literal of
/// the one and the second of the other, where variables 5 and 6 are put in.
fn joins(alloc: Global, a: &str, b: &str, wanted: &str) -> Result<bool, AllocError> {
    let a = clause(alloc, a)?;
    let b = clause(alloc, b)?;
    let mut values = Subst::new(alloc);
    values.push(Term::Var(5))?;
    values.push(Term::Var(6))?;
    if a.literals.len() < 2 || b.literals.len() < 2 {
        return Ok(false);
    }
    if variables(&a) > 1 || variables(&b) > 1 || values.len() < 2 {
        return Ok(false);
    }
    match join(alloc, &a, 0, &b, 1, &values) {
        Ok(c) => is_spelled(alloc, &c, wanted),
        Err(_) => Ok(false),
    }
}

#[test]
fn clauses_are_measured_renumbered_and_joined(rt: HostRuntime) -> Result<(), Fail> {
    let alloc = rt.alloc();
    assert!(rt; is_measured(alloc, "+=49 +p2", 5, 10, false)?);
    assert!(rt; is_measured(alloc, "+=49 -=94", 6, 10, true)?);
    assert!(rt; renumbers(alloc, "+=49 -=97", "+=01 -=12")?);
    assert!(rt; joins(alloc, "+p0 -=00", "+p0 +=00", "-=55 +p6")?);
    Ok(())
}

#[test]
fn clauses_have_one_tidy_form(rt: HostRuntime) -> Result<(), Fail> {
    let alloc = rt.alloc();
    for (text, wanted) in [
        ("+=49 +=94", "+=01"),
        ("-=88 -=97", "-=01"),
        ("-=88 -t", ""),
        ("+=31 +p1", "+=01 +p1"),
    ] {
        assert!(rt; tidies(alloc, text, wanted)?, "{text}");
    }
    Ok(())
}

#[test]
fn tidy_forms_are_told(rt: HostRuntime) -> Result<(), Fail> {
    let alloc = rt.alloc();
    for (text, other, wanted) in [
        ("+=01 +p2", "+=01 +p2", true),
        ("", "", true),
        ("+=01 +p3", "+=01 +p3", false),
        ("+=10 +p2", "+=10 +p2", false),
        ("+p0 +p0", "+p0 +p0", false),
        ("+=01 +=10", "+=01 +=10", false),
        ("-t +p0", "-t +p0", false),
        ("-=00 +p0", "-=00 +p0", false),
        ("+p7 +p5", "+p0 +p1", true),
        ("+p7 +p5", "+p0 +p0", false),
        ("+p7 +p5", "+p1 +p2", false),
        ("+p7 +p5", "+p0", false),
        ("+p0", "+p0 +p1", false),
        ("+p7 +p7", "+p0", true),
        ("+p7 +p7", "+p0 +p0", false),
        ("+=01 +p1", "+=01 +p1", true),
        ("+=49 +=94", "+=01 +p1", false),
    ] {
        assert!(rt; is_form(alloc, text, other)? == wanted, "{text} | {other}");
    }
    Ok(())
}
