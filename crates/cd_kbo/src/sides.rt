//! Terms and atoms as they are compared.
#![tactic(auto)]

ghost use Rattle.std.specs.Prelude.{◌≡◌};
ghost use Rattle.cd_kbo.specs.Sides.{term_of};

use cd_term::Term;

/// A term that is looked at: a variable, or a symbol with its arguments. An atom is looked at as a term with
/// its predicate as head.
#[derive(Clone, Copy)]
pub enum Side<'a> {
    Variable(u32),
    Symbol(u16, &'a [Term]),
}

impl<'a> Side<'a> {
    pub fn of(t: &'a Term) -> Side<'a>
        ensures { term_of result ≡ t.now }
    {
        match t {
            Term::Var(n) => Side::Variable(*n),
            Term::App(f, args) => Side::Symbol(*f, args.as_slice()),
        }
    }
}
