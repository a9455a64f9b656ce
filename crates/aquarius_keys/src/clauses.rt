//! Small clauses, with answers found from the rules.
use cd_clause::{Atom, Clause, Literal, Literals, within};
use cd_kbo::{Order, Select};
use cd_key::{eligible, key_cmp, laws, literal_greater};
use cd_names::Name;
use cd_term::{Args, Term};
use std::alloc::{AllocError, Global};
use std::cmp::Ordering;
use std::test::Fail;

/// The term whose head is a sign, with arguments from the end of a list: two for `=`, one for `f`, `p` and `q`, and
/// none for another letter. A digit is a variable.
fn headed(alloc: Global, symbol: u8, rest: &mut Args) -> Result<Term, AllocError> {
    if symbol.is_ascii_digit() {
        return Ok(Term::Var(u32::from(symbol - b'0')));
    }
    let count = match symbol {
        b'=' => 2,
        b'f' | b'p' | b'q' => 1,
        _ => 0,
    };
    let mut args = Args::new(alloc);
    for _ in 0..count {
        if let Some(arg) = rest.pop() {
            args.push(arg)?;
        }
    }
    Ok(Term::App(u16::from(symbol), args))
}

/// A term looked at as an atom: an equation where its head is `=`, and `$true` for `t`.
fn atom(term: Term) -> Atom {
    match term {
        Term::App(61, mut args) => match (args.pop(), args.pop()) {
            (Some(right), Some(left)) => Atom::Equal(left, right),
            _ => Atom::Truth,
        },
        Term::App(116, _) | Term::Var(_) => Atom::Truth,
        Term::App(p, args) => Atom::Pred(p, args),
    }
}

/// The clause of the literals that a text spells without brackets, each with its sign before it.
fn clause(alloc: Global, text: &str) -> Result<Clause, AllocError> {
    let mut literals = Literals::new(alloc);
    let mut found = Args::new(alloc);
    for symbol in text.as_bytes().iter().rev() {
        let positive = *symbol == b'+';
        if positive || *symbol == b'-' {
            let atom = atom(found.pop().unwrap_or(Term::Var(0)));
            literals.push(Literal { positive, atom })?;
        } else {
            let term = headed(alloc, *symbol, &mut found)?;
            found.push(term)?;
        }
    }
    literals.reverse();
    Ok(Clause { literals })
}

/// Whether literal `i` of a clause within bounds is greater than literal `j`.
fn is_greater(alloc: Global, text: &str, i: usize, j: usize) -> Result<bool, AllocError> {
    let c = clause(alloc, text)?;
    let literals = c.literals.as_slice();
    if !within(&c) || i >= literals.len() || j >= literals.len() {
        return Ok(false);
    }
    laws::bounded_clauses();
    Ok(literal_greater(&literals[i], &literals[j], &Order::plain(alloc)))
}

/// Whether literal `i` of a clause within bounds is eligible.
fn is_eligible(alloc: Global, text: &str, i: u16, select: Select) -> Result<bool, AllocError> {
    let c = clause(alloc, text)?;
    let mut order = Order::plain(alloc);
    order.select = select;
    if !within(&c) || usize::from(i) >= c.literals.len() {
        return Ok(false);
    }
    laws::bounded_clauses();
    Ok(eligible(&c, i, &order))
}

/// A name by its number, and none for 0.
fn named(seq: u32) -> Option<Name> {
    if seq == 0 {
        None
    } else {
        Some(Name { peer: 0, seq })
    }
}

/// How the keys of two clauses within bounds compare, under names of one peer.
fn keys(alloc: Global, c: &str, n: u32, d: &str, m: u32) -> Result<Option<Ordering>, AllocError> {
    let c = clause(alloc, c)?;
    let d = clause(alloc, d)?;
    if !within(&c) || !within(&d) {
        return Ok(None);
    }
    laws::bounded_clauses();
    Ok(Some(key_cmp(&c, named(n), &d, named(m), &Order::plain(alloc))))
}

#[test]
fn literals_by_sides_and_signs(rt: HostRuntime) -> Result<(), Fail> {
    let alloc = rt.alloc();
    for (i, j, wanted) in [
        (1, 0, true),
        (0, 1, false),
        (1, 2, false),
        (2, 1, false),
        (3, 0, true),
        (3, 2, false),
        (4, 3, true),
        (3, 4, false),
        (0, 5, false),
        (5, 0, false),
        (6, 5, true),
        (5, 6, false),
    ] {
        let text = "+p0-p0+p1+=ff00-=0ff0+t-t";
        assert!(rt; is_greater(alloc, text, i, j)? == wanted, "{i} {j}");
    }
    Ok(())
}

#[test]
fn maximal_and_selected_literals(rt: HostRuntime) -> Result<(), Fail> {
    let alloc = rt.alloc();
    for (text, i, select, wanted) in [
        ("+p0-p1-qf0", 0, Select::Nothing, false),
        ("+p0-p1-qf0", 1, Select::Nothing, true),
        ("+p0-p1-qf0", 2, Select::Nothing, true),
        ("+p0-p1-qf0", 0, Select::First, false),
        ("+p0-p1-qf0", 1, Select::First, true),
        ("+p0-p1-qf0", 2, Select::First, false),
        ("+p0", 0, Select::First, true),
    ] {
        assert!(rt;
            is_eligible(alloc, text, i, select)? == wanted,
            "{text} {i}"
        );
    }
    Ok(())
}

#[test]
fn keys_by_literals_repeats_and_names(rt: HostRuntime) -> Result<(), Fail> {
    let alloc = rt.alloc();
    for (c, n, d, m, wanted) in [
        // a proper prefix is smaller, and the greatest literal decides
        ("+pa", 9, "+pa+pa", 1, Ordering::Less),
        ("+pa+pa", 1, "+pa+qfa+p0", 9, Ordering::Less),
        ("+pa+qfa+p0", 1, "+pa+pa", 9, Ordering::Greater),
        // a negative literal is greater, and `bot` is least
        ("-pa", 0, "+pa", 0, Ordering::Greater),
        ("+p0", 0, "+pa", 0, Ordering::Less),
        // the order of literals and of sides does not count, and then names decide
        ("+pa+qfa+p0", 0, "+p0+pa+qfa", 0, Ordering::Equal),
        ("+pa+qfa+p0", 3, "+p0+pa+qfa", 2, Ordering::Greater),
        ("+pa+qfa+p0", 3, "+p0+pa+qfa", 0, Ordering::Less),
        ("+=ab", 1, "+=ba", 1, Ordering::Equal),
        // repeated variables count before names
        ("+=00", 1, "+=01", 2, Ordering::Greater),
        ("+=01", 0, "+=00", 2, Ordering::Less),
    ] {
        assert!(rt;
            keys(alloc, c, n, d, m)? == Some(wanted),
            "{c} {n} | {d} {m}"
        );
    }
    Ok(())
}
