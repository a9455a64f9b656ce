//! Prints each form of clauses, in lines that take an input. The stored output is worked out by hand from
//! the output format.
#![tactic(auto)]

use cd_clause::{Atom, Clause, Literal, Literals};
use cd_list::{Sequence, Text};
use cd_outside::Bytes;
use cd_read::{Label, Role};
use cd_symbols::{Kind, Symbols};
use cd_term::{Args, Term};
use cd_text::{Line, LineRole, LineSource, line_text};
use std::alloc::{AllocError, Global};
use std::io::{self, Write};

/// A line's number, its clause, its role, its label, and whether that is an integer.
type Row = (u64, &'static str, Role, &'static str, bool);

const LINES: [Row; 10] = [
    (10, "+q-q", Role::Axiom, "first", false),
    (3, "", Role::Hypothesis, "second", false),
    (7, "-p+e-e+t-t", Role::Definition, "Third", false),
    (1, "+q", Role::Assumption, "", false),
    (u64::MAX, "-q", Role::Lemma, "it's", false),
    (2, "+t", Role::Theorem, "a_B9", false),
    (4, "-t", Role::Corollary, "9", false),
    (5, "", Role::NegatedConjecture, "_", false),
    (6, "", Role::Plain, "plain", false),
    (8, "", Role::Axiom, "007", true),
];

fn main(rt: HostRuntime) -> io::Result<()> {
    let lines = lines(rt.alloc())?;
    rt.stdout().write_all(lines.as_slice())
}

fn lines(alloc: Global) -> Result<Bytes, AllocError> {
    let symbols = symbols(alloc)?;
    let mut printed = Sequence::new(alloc);
    for row in &LINES {
        put_line(alloc, &symbols, row, &mut printed)?;
    }
    Ok(printed)
}

fn put_line(
    alloc: Global,
    symbols: &Symbols,
    row: &Row,
    into: &mut Bytes,
) -> Result<(), AllocError> {
    let line = line(alloc, row)?;
    line_text(symbols, &line, into)?;
    into.push(b'\n')
}

/// The symbols of all lines, with their numbers of arguments.
const SYMBOLS: [(&str, u16, Kind); 4] = [
    ("p", 2, Kind::Predicate),
    ("F", 2, Kind::Function),
    ("a", 0, Kind::Function),
    ("Is it?", 0, Kind::Predicate),
];

fn symbols(alloc: Global) -> Result<Symbols, AllocError> {
    let mut symbols = Symbols::new(alloc);
    for (text, arity, kind) in &SYMBOLS {
        add_symbol(alloc, &mut symbols, text, *arity, *kind)?;
    }
    Ok(symbols)
}

fn add_symbol(
    alloc: Global,
    symbols: &mut Symbols,
    text: &str,
    arity: u16,
    kind: Kind,
) -> Result<(), AllocError> {
    let text = Text::of(alloc, text)?;
    match symbols.intern(&text, arity, kind) {
        Ok(_) => Ok(()),
        Err(_) => Err(AllocError),
    }
}

fn line(alloc: Global, row: &Row) -> Result<Line, AllocError> {
    let (number, text, role, name, is_integer) = row;
    Ok(Line {
        number: *number,
        role: LineRole::Given(*role),
        clause: clause(alloc, text)?,
        source: LineSource::File {
            path: Text::of(alloc, "t.p")?,
            label: label(alloc, name, *is_integer)?,
        },
    })
}

fn label(alloc: Global, name: &str, is_integer: bool) -> Result<Label, AllocError> {
    let text = Text::of(alloc, name)?;
    if is_integer {
        Ok(Label::Integer(text))
    } else {
        Ok(Label::Word(text))
    }
}

/// The clause of the literals that a text spells, each a sign and the letter of an atom.
fn clause(alloc: Global, text: &str) -> Result<Clause, AllocError> {
    let mut literals = Literals::new(alloc);
    let mut positive = true;
    for symbol in text.as_bytes() {
        if *symbol == b'+' || *symbol == b'-' {
            positive = *symbol == b'+';
        } else {
            let atom = atom(alloc, *symbol)?;
            literals.push(Literal { positive, atom })?;
        }
    }
    Ok(Clause { literals })
}

/// A predicate with arguments, one without, an equation, and `$true`.
fn atom(alloc: Global, letter: u8) -> Result<Atom, AllocError> {
    match letter {
        b'p' => Ok(Atom::Pred(0, two(alloc, Term::Var(0), nested(alloc)?)?)),
        b'q' => Ok(Atom::Pred(3, Args::new(alloc))),
        b'e' => Ok(Atom::Equal(Term::App(2, Args::new(alloc)), Term::Var(10))),
        _ => Ok(Atom::Truth),
    }
}

fn nested(alloc: Global) -> Result<Term, AllocError> {
    let args = two(alloc, Term::Var(u32::MAX), Term::App(2, Args::new(alloc)))?;
    Ok(Term::App(1, args))
}

fn two(alloc: Global, first: Term, second: Term) -> Result<Args, AllocError> {
    let mut args = Args::new(alloc);
    args.push(first)?;
    args.push(second)?;
    Ok(args)
}
