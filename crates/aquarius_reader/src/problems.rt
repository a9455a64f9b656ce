//! What a problem holds that was read.
use crate::answers::push_file;
use cd_clause::{size, variables};
use cd_list::{Sequence, Text};
use cd_outside::{Shelf, Shelved};
use cd_read::{Input, Label, Problem, Role, read_problem};
use cd_symbols::{Kind, Symbols};
use std::alloc::{AllocError, Global};
use std::process::Abort;
use std::test::Fail;

/// A file in the lenient forms, and one that it includes in part.
fn lenient(alloc: Global) -> Result<Shelved, AllocError> {
    let text = b"% head
cnf('ax 1',axiom,( ( ~ (p(X)) | ~ X = a ) ),file('x',unknown),[k]).
include('u.p',[7]).
";
    let mut files = Sequence::new(alloc);
    push_file(alloc, &mut files, "t.p", text.as_slice())?;
    let beside = b"cnf(7,hypothesis,'p'(b)).\ncnf(8,axiom,q).\n";
    push_file(alloc, &mut files, "u.p", beside.as_slice())?;
    Ok(files)
}

/// The problem of the file `t.p`. Any fault is taken for want of memory, which ends the test.
fn read(alloc: Global, files: Shelved) -> Result<Problem, AllocError> {
    let mut library = Shelf::new(alloc, files, Sequence::new(alloc));
    let path = Text::of(alloc, "t.p")?;
    match read_problem(alloc, &mut library, &path) {
        Ok(problem) => Ok(problem),
        Err(_) => Err(AllocError),
    }
}

/// A label, whether it is an integer.
fn label_of(label: &Label) -> (&str, bool) {
    match label {
        Label::Word(text) => (text.as_str(), false),
        Label::Integer(digits) => (digits.as_str(), true),
    }
}

fn role_word(role: Role) -> &'static str {
    match role {
        Role::Axiom => "axiom",
        Role::Hypothesis => "hypothesis",
        Role::Definition => "definition",
        Role::Assumption => "assumption",
        Role::Lemma => "lemma",
        Role::Theorem => "theorem",
        Role::Corollary => "corollary",
        Role::NegatedConjecture => "negated_conjecture",
        Role::Plain => "plain",
    }
}

/// What is expected of an input.
#[derive(Clone, Copy)]
struct Row<'a> {
    label: (&'a str, bool),
    role: &'a str,
    file: &'a str,
    /// The signs of the literals.
    signs: &'a [bool],
    size: u64,
    variables: u64,
}

fn expect_input(rt: &impl Abort, input: &Input, row: &Row<'_>) {
    let label = label_of(&input.label);
    assert_eq!(rt; label.0, row.label.0);
    assert_eq!(rt; label.1, row.label.1);
    assert_eq!(rt; role_word(input.role), row.role);
    assert_eq!(rt; input.file.text().as_str(), row.file);
    assert_eq!(rt; input.clause.literals.len(), row.signs.len());
    for (literal, sign) in input.clause.literals.as_slice().iter().zip(row.signs) {
        assert!(rt; literal.positive == *sign);
    }
    assert_eq!(rt; size(&input.clause), row.size);
    assert_eq!(rt; variables(&input.clause), row.variables);
}

fn expect_inputs(rt: &impl Abort, problem: &Problem, rows: &[Row<'_>]) {
    assert_eq!(rt; problem.inputs.len(), rows.len());
    for (input, row) in problem.inputs.as_slice().iter().zip(rows) {
        expect_input(rt, input, row);
    }
}

/// A symbol's text, its number of arguments and whether it is a function.
type SymbolRow<'a> = (&'a str, u16, bool);

fn expect_symbols(rt: &impl Abort, symbols: &Symbols, rows: &[SymbolRow<'_>]) {
    assert_eq!(rt; symbols.len(), rows.len());
    for (n, row) in rows.iter().enumerate() {
        let id = n as u16;
        if n < symbols.len() {
            assert_eq!(rt; symbols.text(id).as_str(), row.0);
            assert_eq!(rt; symbols.arity(id), row.1);
            assert_eq!(rt; matches!(symbols.kind(id), Kind::Function), row.2);
        }
    }
}

#[test]
fn lenient_forms_are_read(rt: HostRuntime) -> Result<(), Fail> {
    let problem = read(rt.alloc(), lenient(rt.alloc())?)?;
    assert_eq!(rt; problem.name.as_str(), "t.p");
    let symbols = [("p", 1, false), ("a", 0, true), ("b", 0, true)];
    expect_symbols(&rt, &problem.symbols, symbols.as_slice());
    let first = Row {
        label: ("ax 1", false),
        role: "axiom",
        file: "t.p",
        signs: [false, false].as_slice(),
        size: 5,
        variables: 1,
    };
    let second = Row {
        label: ("7", true),
        role: "hypothesis",
        file: "u.p",
        signs: [true].as_slice(),
        size: 2,
        variables: 0,
    };
    expect_inputs(&rt, &problem, [first, second].as_slice());
    Ok(())
}

/// All roles, each with a sign: an odd number of `~` changes it, `!=` once more.
const ROLES: [(&str, &str, bool); 9] = [
    ("axiom", "p", true),
    ("hypothesis", "~p", false),
    ("definition", "~ ~p", true),
    ("assumption", "~(~(~p))", false),
    ("lemma", "$true", true),
    ("theorem", "$false", false),
    ("corollary", "~$false", true),
    ("negated_conjecture", "a != b", false),
    ("plain", "~a != b", true),
];

/// A file with an input for each role.
fn all_roles(alloc: Global) -> Result<Shelved, AllocError> {
    let mut text = Text::of(alloc, "")?;
    for row in ROLES {
        for piece in ["cnf(l,", row.0, ",", row.1, ").\n"] {
            text.push_str(piece)?;
        }
    }
    let mut files = Sequence::new(alloc);
    push_file(alloc, &mut files, "t.p", text.as_bytes())?;
    Ok(files)
}

#[test]
fn each_role_is_read_and_each_sign(rt: HostRuntime) -> Result<(), Fail> {
    let problem = read(rt.alloc(), all_roles(rt.alloc())?)?;
    assert_eq!(rt; problem.inputs.len(), 9);
    for (input, row) in problem.inputs.as_slice().iter().zip(ROLES.as_slice()) {
        assert_eq!(rt; role_word(input.role), row.0);
        for literal in input.clause.literals.as_slice() {
            assert!(rt; literal.positive == row.2);
        }
    }
    Ok(())
}
