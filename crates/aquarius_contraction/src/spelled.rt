//! Terms and clauses from short texts.
use cd_clause::{Atom, Clause, Literal, Literals};
use cd_kbo::Order;
use cd_term::{Args, Term};
use std::alloc::{AllocError, Global};

/// The term whose head is a sign, with arguments from the end of a list: two for `=`, `f` and `q`, one for `g`, `h`
/// and `p`, and none for another letter. A digit is a variable.
fn headed(alloc: Global, symbol: u8, rest: &mut Args) -> Result<Term, AllocError> {
    if symbol.is_ascii_digit() {
        return Ok(Term::Var(u32::from(symbol - b'0')));
    }
    let count = match symbol {
        b'=' | b'f' | b'q' => 2,
        b'g' | b'h' | b'p' => 1,
        _ => 0,
    };
    let mut args = Args::new(alloc);
    for _ in 0..count {
        if let Some(arg) = rest.pop() {
            args.push(arg)?;
        }
    }
    Ok(Term::App(u16::from(symbol), args))
}

/// A term looked at as an atom: an equation where its head is `=`, and `$true` for `t`.
fn atom(term: Term) -> Atom {
    match term {
        Term::App(61, mut args) => match (args.pop(), args.pop()) {
            (Some(right), Some(left)) => Atom::Equal(left, right),
            _ => Atom::Truth,
        },
        Term::App(116, _) | Term::Var(_) => Atom::Truth,
        Term::App(p, args) => Atom::Pred(p, args),
    }
}

/// The clause of the literals that a text spells without brackets, each with its sign before it.
pub fn clause(alloc: Global, text: &str) -> Result<Clause, AllocError> {
    let mut literals = Literals::new(alloc);
    let mut found = Args::new(alloc);
    for symbol in text.as_bytes().iter().rev() {
        let positive = *symbol == b'+';
        if positive || *symbol == b'-' {
            let atom = atom(found.pop().unwrap_or(Term::Var(0)));
            literals.push(Literal { positive, atom })?;
        } else {
            let term = headed(alloc, *symbol, &mut found)?;
            found.push(term)?;
        }
    }
    literals.reverse();
    Ok(Clause { literals })
}

/// The terms that a text spells without brackets.
pub fn terms(alloc: Global, text: &str) -> Result<Args, AllocError> {
    let mut found = Args::new(alloc);
    for symbol in text.as_bytes().iter().rev() {
        let term = headed(alloc, *symbol, &mut found)?;
        found.push(term)?;
    }
    found.reverse();
    Ok(found)
}

/// The order in which `h` weighs 3.
pub fn heavy(alloc: Global) -> Result<Order, AllocError> {
    let mut order = Order::plain(alloc);
    order.set(u16::from(b'h'), 3, 0)?;
    Ok(order)
}

/// The clause of `p` over `h` over symbols `g` and a constant, of so many levels.
pub fn deep(alloc: Global, levels: u64) -> Result<Clause, AllocError> {
    let mut text = String::new(alloc);
    text.push_str("+ph")?;
    for _ in 3..levels {
        text.push('g')?;
    }
    text.push('a')?;
    clause(alloc, text.as_str())
}
