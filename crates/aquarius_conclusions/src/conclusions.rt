//! Small clauses, with conclusions found from the rules.
use cd_clause::{Atom, Clause, Literal, Literals};
use cd_infer::{Conclusions, is_usable, pair, solo};
use cd_kbo::{Order, Select};
use cd_list::Equals;
use cd_names::Name;
use cd_term::{Args, Term, TermFault};
use std::alloc::{AllocError, Global};
use std::test::Fail;

const FIRST: Name = Name { peer: 0, seq: 1 };

const SECOND: Name = Name { peer: 0, seq: 2 };

/// The term whose head is a sign, with arguments from the end of a list: two for `=` and `f`, one for `p` and `q`,
/// and none for another letter. A digit is a variable.
fn headed(alloc: Global, symbol: u8, rest: &mut Args) -> Result<Term, AllocError> {
    if symbol.is_ascii_digit() {
        return Ok(Term::Var(u32::from(symbol - b'0')));
    }
    let count = match symbol {
        b'=' | b'f' => 2,
        b'p' | b'q' => 1,
        _ => 0,
    };
    let mut args = Args::new(alloc);
    for _ in 0..count {
        if let Some(arg) = rest.pop() {
            args.push(arg)?;
        }
    }
    Ok(Term::App(u16::from(symbol), args))
}

/// A term looked at as an atom: an equation where its head is `=`.
fn atom(term: Term) -> Atom {
    match term {
        Term::App(61, mut args) => match (args.pop(), args.pop()) {
            (Some(right), Some(left)) => Atom::Equal(left, right),
            _ => Atom::Truth,
        },
        Term::Var(_) => Atom::Truth,
        Term::App(p, args) => Atom::Pred(p, args),
    }
}

/// The clause of the literals that a text spells without brackets, each with its sign before it.
fn clause(alloc: Global, text: &str) -> Result<Clause, AllocError> {
    let mut literals = Literals::new(alloc);
    let mut found = Args::new(alloc);
    for symbol in text.as_bytes().iter().rev() {
        let positive = *symbol == b'+';
        if positive || *symbol == b'-' {
            let atom = atom(found.pop().unwrap_or(Term::Var(0)));
            literals.push(Literal { positive, atom })?;
        } else {
            let term = headed(alloc, *symbol, &mut found)?;
            found.push(term)?;
        }
    }
    literals.reverse();
    Ok(Clause { literals })
}

/// What one clause, or two, conclude; nothing where a clause isn't usable or a conclusion is out of bounds.
fn conclusions(
    alloc: Global,
    first: &str,
    second: Option<&str>,
    select: Select,
) -> Result<Option<Conclusions>, AllocError> {
    let a = clause(alloc, first)?;
    let mut order = Order::plain(alloc);
    order.select = select;
    if !is_usable(&a) {
        return Ok(None);
    }
    let answer = match second {
        None => solo(alloc, FIRST, &a, &order),
        Some(second) => {
            let b = clause(alloc, second)?;
            if !is_usable(&b) {
                return Ok(None);
            }
            pair(alloc, FIRST, &a, SECOND, &b, &order)
        }
    };
    match answer {
        Ok(found) => Ok(Some(found)),
        Err(TermFault::OutOfBounds) => Ok(None),
        Err(TermFault::Memory) => Err(AllocError),
    }
}

/// Whether the conclusions are these clauses, in this order.
fn are_concluded(
    alloc: Global,
    first: &str,
    second: Option<&str>,
    select: Select,
    wanted: &[&str],
) -> Result<bool, AllocError> {
    let Some(found) = conclusions(alloc, first, second, select)? else {
        return Ok(false);
    };
    let found = found.as_slice();
    if found.len() != wanted.len() {
        return Ok(false);
    }
    for (conclusion, text) in found.iter().zip(wanted.iter()) {
        if !conclusion.clause.equals(&clause(alloc, text)?) {
            return Ok(false);
        }
    }
    Ok(true)
}

#[test]
fn conclusions_of_one_clause(rt: HostRuntime) -> Result<(), Fail> {
    let alloc = rt.alloc();
    let none: &[&str] = &[];
    for (text, select, wanted) in [
        ("+p0+pa", Select::Nothing, ["+pa"].as_slice()),
        ("+pa+pb", Select::Nothing, none),
        ("-=0a", Select::Nothing, [""].as_slice()),
        ("-=0a+p0", Select::Nothing, none),
        ("-=0a+p0", Select::First, ["+pa"].as_slice()),
        (
            "+=0a+=0b",
            Select::Nothing,
            [
                "-=ab+=0b", "-=ab+=bb", "-=ab+=ab", "+=0a-=ba", "+=aa-=ba", "+=ba-=ba",
            ]
            .as_slice(),
        ),
    ] {
        assert!(rt; are_concluded(alloc, text, None, select, wanted)?, "{text}");
    }
    Ok(())
}

#[test]
fn conclusions_of_two_clauses(rt: HostRuntime) -> Result<(), Fail> {
    let alloc = rt.alloc();
    let none: &[&str] = &[];
    let square = "+=f00e";
    let associative = "+=ff012f0f12";
    for (first, second, wanted) in [
        ("+p0", "-pa", [""].as_slice()),
        ("-pa", "+p0", none),
        ("+p0+qa", "-pa-q0", ["+p0-pa"].as_slice()),
        ("+=fe00", "+=f0e0", ["+=ee"].as_slice()),
        (square, associative, ["+=ef0f1f01", "+=fe1f0f01"].as_slice()),
        (square, "-=fabfba", none),
        ("+=f01f10", "-=fabfba", ["-=fabfab", "-=fabfab"].as_slice()),
    ] {
        assert!(rt;
            are_concluded(alloc, first, Some(second), Select::Nothing, wanted)?,
            "{first} {second}"
        );
    }
    Ok(())
}
