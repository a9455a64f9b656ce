//! Right and wrong steps over small clauses: a literal is a sign and an atom, which is a letter and its arguments, or
//! `=` and two sides; `f` has one argument, other letters have none, and a digit is a variable, or a place.
use cd_clause::{Atom, Clause, Literal, Literals};
use cd_list::Equals;
use cd_names::Name;
use cd_steps::{Step, step_gives, step_ok};
use cd_term::{Args, Path, Subst, Term};
use std::alloc::{AllocError, Global};
use std::test::Fail;

const NAME: Name = Name { peer: 0, seq: 1 };

/// A step but for names, path and substitution.
#[derive(Clone, Copy)]
enum Kind {
    Input,
    Copy,
    Resolve(u16, u16),
    Factor(u16, u16),
    Refl(u16),
    EqFac(u16, u8, u16, u8),
    Para(u16, u8, u16),
    Rewrite(u8, u16),
    Tidy,
}

/// A variable or a constant.
fn leaf(alloc: Global, symbol: u8) -> Term {
    if symbol.is_ascii_digit() {
        Term::Var(u32::from(symbol - b'0'))
    } else {
        Term::App(u16::from(symbol), Args::new(alloc))
    }
}

fn of_one(alloc: Global, argument: Term) -> Result<Term, AllocError> {
    let mut args = Args::new(alloc);
    args.push(argument)?;
    Ok(Term::App(u16::from(b'f'), args))
}

/// The terms that a text spells without brackets.
fn terms(alloc: Global, text: &[u8]) -> Result<Args, AllocError> {
    let mut found = Args::new(alloc);
    for symbol in text.iter().rev() {
        let term = match *symbol {
            b'f' => of_one(alloc, found.pop().unwrap_or(Term::Var(0)))?,
            symbol => leaf(alloc, symbol),
        };
        found.push(term)?;
    }
    found.reverse();
    Ok(found)
}

fn atom(alloc: Global, text: &[u8]) -> Result<Atom, AllocError> {
    let [kind, rest @ ..] = text else {
        return Ok(Atom::Truth);
    };
    let mut args = terms(alloc, rest)?;
    if *kind != b'=' {
        return Ok(Atom::Pred(u16::from(*kind), args));
    }
    let right = args.pop().unwrap_or(Term::Var(0));
    let left = args.pop().unwrap_or(Term::Var(0));
    Ok(Atom::Equal(left, right))
}

/// The clause of the literals between blanks.
fn clause(alloc: Global, text: &str) -> Result<Clause, AllocError> {
    let mut literals = Literals::new(alloc);
    for part in text.split(' ') {
        if let [sign, rest @ ..] = part.as_bytes() {
            literals.push(Literal {
                positive: *sign == b'+',
                atom: atom(alloc, rest)?,
            })?;
        }
    }
    Ok(Clause { literals })
}

fn path(alloc: Global, text: &str) -> Result<Path, AllocError> {
    let mut path = Path::new(alloc);
    for digit in text.as_bytes() {
        path.push(u16::from(digit.saturating_sub(b'0')))?;
    }
    Ok(path)
}

fn step(kind: Kind, at: Path, subst: Subst) -> Step {
    let of = NAME;
    match kind {
        Kind::Input => Step::Input { index: 0 },
        Kind::Copy => Step::Copy { of },
        Kind::Resolve(i, j) => Step::Resolve {
            pos: of,
            i,
            neg: of,
            j,
            subst,
        },
        Kind::Factor(i, j) => Step::Factor { of, i, j, subst },
        Kind::Refl(i) => Step::Refl { of, i, subst },
        Kind::EqFac(i, s, j, z) => Step::EqFac {
            of,
            i,
            s,
            j,
            z,
            subst,
        },
        Kind::Para(i, s, j) => Step::Para {
            giver: of,
            i,
            s,
            taker: of,
            j,
            at,
            subst,
        },
        Kind::Rewrite(s, j) => Step::Rewrite {
            by: of,
            s,
            j,
            at,
            subst,
        },
        Kind::Tidy => Step::Tidy,
    }
}

fn spelled(alloc: Global, kind: Kind, at: &str, values: &str) -> Result<Step, AllocError> {
    let subst = terms(alloc, values.as_bytes())?;
    Ok(step(kind, path(alloc, at)?, subst))
}

/// Whether a step gives the wanted clause of two premises, and no other, or nothing where `none` is wanted. The second
/// premise of a step that changes the clause before it is that clause.
fn gives(
    alloc: Global,
    step: &Step,
    first: &str,
    second: &str,
    wanted: &str,
) -> Result<bool, AllocError> {
    let first = clause(alloc, first)?;
    let second = clause(alloc, second)?;
    let conclusion = clause(alloc, wanted)?;
    let right = step_ok(
        step,
        Some(&second),
        Some(&first),
        Some(&second),
        &conclusion,
    );
    match step_gives(alloc, step, Some(&second), Some(&first), Some(&second)) {
        Ok(None) => Ok(!right && wanted == "none"),
        Ok(Some(found)) => Ok(right && found.equals(&conclusion)),
        Err(_) => Ok(false),
    }
}

/// A step with its path and substitution, two premises, and what it gives.
const ROWS: [(Kind, &str, &str, &str, &str, &str); 14] = [
    (Kind::Input, "", "", "+p0 -q0", "", "+p0 -q0"),
    (Kind::Copy, "", "", "+p1 -q0", "", "+p1 -q0"),
    (
        Kind::Resolve(0, 1),
        "",
        "faa1",
        "+p0 +q0",
        "+q1 -pf0",
        "+qfa +q1",
    ),
    (Kind::Resolve(0, 0), "", "fab", "+p0", "-pf0", "none"),
    (Kind::Factor(0, 2), "", "a", "+p0 -qa +pa", "", "+pa -qa"),
    (Kind::Factor(1, 0), "", "a", "+p0 +pa", "", "none"),
    (Kind::Refl(1), "", "ff0f0", "+p0 -=0f1", "", "+pff0"),
    (
        Kind::EqFac(0, 1, 1, 0),
        "",
        "a",
        "+=b0 +=ac",
        "",
        "-=bc +=ac",
    ),
    (Kind::EqFac(0, 0, 0, 0), "", "a", "+=0a", "", "none"),
    (
        Kind::Para(0, 0, 0),
        "00",
        "0b",
        "+=fb0 +q0",
        "-pff0",
        "+q0 -pf0",
    ),
    (Kind::Para(0, 0, 0), "", "", "+=ab", "-pa", "none"),
    (
        Kind::Rewrite(1, 0),
        "10",
        "1",
        "+=0f0",
        "-=0ff1 +p1",
        "-=0f1 +p1",
    ),
    (Kind::Rewrite(0, 0), "0", "", "+=ab +pa", "-pa", "none"),
    (Kind::Tidy, "", "", "", "-=33 +p5 +p5 -q7", "+p0 -q1"),
];

#[test]
fn steps_give_one_clause_or_none(rt: HostRuntime) -> Result<(), Fail> {
    let alloc = rt.alloc();
    for (kind, at, values, first, second, wanted) in ROWS {
        let step = spelled(alloc, kind, at, values)?;
        assert!(rt; gives(alloc, &step, first, second, wanted)?, "{first}");
    }
    Ok(())
}
