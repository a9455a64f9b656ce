//! Truth over the elements 0 and 1: `a` is 0, `f` exchanges the two, `p` is true of 0 alone, `q` is true of 0
//! and 1, in this order, alone, and `g` has the value 1 there and 0 elsewhere.
use cd_clause::{Atom, Clause, Literal, Literals, variables};
use cd_meaning::{Interp, Table, Tables, Values};
use cd_symbols::Kind;
use cd_term::{Args, Term};
use std::alloc::{AllocError, Global};
use std::test::Fail;

const A: u16 = 0;

const F: u16 = 1;

const P: u16 = 2;

const Q: u16 = 3;

const G: u16 = 4;

/// `a`, `f(a)`, a variable, or `f` of a variable.
#[derive(Clone, Copy)]
enum Argument {
    Zero,
    One,
    Any,
    Other,
}

fn table(alloc: Global, kind: Kind, arity: u16, values: &[u32]) -> Result<Table, AllocError> {
    Ok(Table {
        kind,
        arity,
        values: Values::from_slice(alloc, values)?,
    })
}

fn tables(alloc: Global) -> Result<Tables, AllocError> {
    let mut all = Tables::new(alloc);
    all.push(table(alloc, Kind::Function, 0, [0].as_slice())?)?;
    all.push(table(alloc, Kind::Function, 1, [1, 0].as_slice())?)?;
    all.push(table(alloc, Kind::Predicate, 1, [1, 0].as_slice())?)?;
    all.push(table(alloc, Kind::Predicate, 2, [0, 1, 0, 0].as_slice())?)?;
    all.push(table(alloc, Kind::Function, 2, [0, 1, 0, 0].as_slice())?)?;
    Ok(all)
}

fn applied(alloc: Global, f: u16, argument: Term) -> Result<Term, AllocError> {
    let mut args = Args::new(alloc);
    args.push(argument)?;
    Ok(Term::App(f, args))
}

fn term(alloc: Global, argument: Argument) -> Result<Term, AllocError> {
    match argument {
        Argument::Zero => Ok(Term::App(A, Args::new(alloc))),
        Argument::One => applied(alloc, F, Term::App(A, Args::new(alloc))),
        Argument::Any => Ok(Term::Var(0)),
        Argument::Other => applied(alloc, F, Term::Var(0)),
    }
}

/// `p` of one argument, or `q` of two.
fn literal(alloc: Global, arguments: &[Argument]) -> Result<Literal, AllocError> {
    let mut args = Args::new(alloc);
    for argument in arguments {
        args.push(term(alloc, *argument)?)?;
    }
    let symbol = if arguments.len() == 1 { P } else { Q };
    Ok(Literal {
        positive: true,
        atom: Atom::Pred(symbol, args),
    })
}

fn holds(alloc: Global, interp: &Interp, atoms: &[&[Argument]]) -> Result<bool, AllocError> {
    let mut literals = Literals::new(alloc);
    for atom in atoms {
        literals.push(literal(alloc, atom)?)?;
    }
    let clause = Clause { literals };
    let mut scratch = vec![in alloc; 7u32; variables(&clause) as usize]?;
    Ok(interp.holds(&clause, scratch.as_mut_slice()))
}

fn value_at(alloc: Global, interp: &Interp, point: [u32; 2]) -> Result<u32, AllocError> {
    let mut args = Args::new(alloc);
    args.push(Term::Var(0))?;
    args.push(Term::Var(1))?;
    Ok(interp.value(&Term::App(G, args), point.as_slice()))
}

fn is_some(alloc: Global, size: u32, kind: Kind, values: &[u32]) -> Result<bool, AllocError> {
    let mut all = Tables::new(alloc);
    all.push(table(alloc, kind, 2, values)?)?;
    Ok(Interp::new(size, all).is_some())
}

#[test]
fn clauses_hold_where_each_point_has_a_true_literal(rt: HostRuntime) -> Result<(), Fail> {
    let alloc = rt.alloc();
    let Some(interp) = Interp::new(2, tables(alloc)?) else {
        assert!(rt; false);
        return Ok(());
    };
    let zero: &[Argument] = &[Argument::Zero];
    let any: &[Argument] = &[Argument::Any];
    let other: &[Argument] = &[Argument::Other];
    assert!(rt; holds(alloc, &interp, [zero].as_slice())?);
    assert!(rt; holds(alloc, &interp, [any, other].as_slice())?);
    assert!(rt; !holds(alloc, &interp, [any].as_slice())?);
    assert!(rt; !holds(alloc, &interp, [].as_slice())?);
    Ok(())
}

#[test]
fn the_first_argument_counts_most(rt: HostRuntime) -> Result<(), Fail> {
    let alloc = rt.alloc();
    let Some(interp) = Interp::new(2, tables(alloc)?) else {
        assert!(rt; false);
        return Ok(());
    };
    let upwards: &[Argument] = &[Argument::Zero, Argument::One];
    let downwards: &[Argument] = &[Argument::One, Argument::Zero];
    assert!(rt; holds(alloc, &interp, [upwards].as_slice())?);
    assert!(rt; !holds(alloc, &interp, [downwards].as_slice())?);
    for (point, wanted) in [([0, 0], 0), ([0, 1], 1), ([1, 0], 0), ([1, 1], 0)] {
        assert_eq!(rt; value_at(alloc, &interp, point)?, wanted);
    }
    Ok(())
}

#[test]
fn interpretations_have_full_tables_in_range(rt: HostRuntime) -> Result<(), Fail> {
    let alloc = rt.alloc();
    assert!(rt; is_some(alloc, 2, Kind::Function, [0, 1, 1, 0].as_slice())?);
    assert!(rt; !is_some(alloc, 2, Kind::Function, [0, 2, 1, 0].as_slice())?);
    assert!(rt; !is_some(alloc, 2, Kind::Predicate, [0, 2, 1, 0].as_slice())?);
    assert!(rt; !is_some(alloc, 2, Kind::Predicate, [0, 1, 1].as_slice())?);
    assert!(rt;
        is_some(
            alloc,
            3,
            Kind::Function,
            [0, 2, 1, 0, 2, 1, 0, 2, 1].as_slice()
        )?
    );
    assert!(rt;
        !is_some(
            alloc,
            3,
            Kind::Predicate,
            [0, 2, 1, 0, 2, 1, 0, 2, 1].as_slice()
        )?
    );
    assert!(rt; Interp::new(1, Tables::new(alloc)).is_some());
    assert!(rt; Interp::new(0, Tables::new(alloc)).is_none());
    Ok(())
}
