//! How a line of each rule looks.
use cd_clause::{Clause, Literals};
use cd_list::{Sequence, Text};
use cd_names::Name;
use cd_outside::Bytes;
use cd_steps::Step;
use cd_symbols::{Kind, Symbols};
use cd_term::{Args, Path, Subst, Term};
use cd_text::{Line, LineRole, LineSource, line_text};
use std::alloc::{AllocError, Global};
use std::test::Fail;

const NAME: Name = Name { peer: 0, seq: 0 };

/// The rules that have lines, in the order of the rows; the first is resolution without values, at the last place.
#[derive(Clone, Copy)]
enum Rule {
    Unit,
    Resolve,
    Factor,
    Refl,
    EqFac,
    Para,
    Rewrite,
    Tidy,
}

/// A step with places 3, 0, 12 and 1, as many as it has.
fn step(rule: Rule, at: Path, subst: Subst) -> Step {
    let of = NAME;
    match rule {
        Rule::Unit => Step::Resolve {
            pos: of,
            i: 0,
            neg: of,
            j: u16::MAX,
            subst,
        },
        Rule::Resolve => Step::Resolve {
            pos: of,
            i: 3,
            neg: of,
            j: 12,
            subst,
        },
        Rule::Factor => Step::Factor {
            of,
            i: 3,
            j: 12,
            subst,
        },
        Rule::Refl => Step::Refl { of, i: 3, subst },
        Rule::EqFac => Step::EqFac {
            of,
            i: 3,
            s: 0,
            j: 12,
            z: 1,
            subst,
        },
        Rule::Para => Step::Para {
            giver: of,
            i: 3,
            s: 0,
            taker: of,
            j: 12,
            at,
            subst,
        },
        Rule::Rewrite => Step::Rewrite {
            by: of,
            s: 0,
            j: 12,
            at,
            subst,
        },
        Rule::Tidy => Step::Tidy,
    }
}

/// The path 2, 10.
fn path(alloc: Global) -> Result<Path, AllocError> {
    let mut path = Path::new(alloc);
    path.push(2)?;
    path.push(10)?;
    Ok(path)
}

/// A constant, and the variable 7; nothing for the first rule.
fn values(alloc: Global, rule: Rule) -> Result<Subst, AllocError> {
    let mut values = Subst::new(alloc);
    if matches!(rule, Rule::Unit) {
        return Ok(values);
    }
    values.push(Term::App(0, Args::new(alloc)))?;
    values.push(Term::Var(7))?;
    Ok(values)
}

fn line(alloc: Global, rule: Rule) -> Result<Line, AllocError> {
    let step = step(rule, path(alloc)?, values(alloc, rule)?);
    let parents = Sequence::from_slice(alloc, [2, 4].as_slice())?;
    Ok(Line {
        number: 5,
        role: LineRole::Plain,
        clause: Clause {
            literals: Literals::new(alloc),
        },
        source: LineSource::Inference { step, parents },
    })
}

fn symbols(alloc: Global) -> Result<Symbols, Fail> {
    let mut symbols = Symbols::new(alloc);
    symbols.intern(&Text::of(alloc, "a")?, 0, Kind::Function)?;
    Ok(symbols)
}

/// Whether the rule of a line has this text.
fn is_printed(
    alloc: Global,
    symbols: &Symbols,
    rule: Rule,
    wanted: &str,
) -> Result<bool, AllocError> {
    let mut printed: Bytes = Sequence::new(alloc);
    let mut expected: Bytes = Sequence::from_slice(
        alloc,
        b"cnf(c5,plain,$false,inference(".as_slice(),
    )?;
    expected.extend(wanted.as_bytes())?;
    expected.extend(b"],[c2,c4])).")?;
    line_text(symbols, &line(alloc, rule)?, &mut printed)?;
    Ok(printed.as_slice() == expected.as_slice())
}

const ROWS: [(Rule, &str); 8] = [
    (Rule::Unit, "resolve,[status(thm),at(0,65535),subst([])"),
    (Rule::Resolve, "resolve,[status(thm),at(3,12),subst([a,X7])"),
    (Rule::Factor, "factor,[status(thm),at(3,12),subst([a,X7])"),
    (Rule::Refl, "refl,[status(thm),at(3),subst([a,X7])"),
    (Rule::EqFac, "eqfac,[status(thm),at(3,0,12,1),subst([a,X7])"),
    (
        Rule::Para,
        "para,[status(thm),at(3,0,12,[2,10]),subst([a,X7])",
    ),
    (
        Rule::Rewrite,
        "rewrite,[status(thm),at(0,12,[2,10]),subst([a,X7])",
    ),
    (Rule::Tidy, "tidy,[status(thm)"),
];

#[test]
fn lines_of_all_rules(rt: HostRuntime) -> Result<(), Fail> {
    let symbols = symbols(rt.alloc())?;
    for (rule, wanted) in ROWS {
        assert!(rt; is_printed(rt.alloc(), &symbols, rule, wanted)?, "{wanted}");
    }
    Ok(())
}
