//! Counts of symbols, by which most clauses and sides of equations are refused without a look at their terms
//! (Schulz, Simple and efficient clause subsumption with feature vector indexing, 2013).
#![tactic(auto)]

ghost use Rattle.std.specs.Prelude.{◌≡◌, ◌+◌, ◌↔◌, ℕ, cond, nat_eq, max, map, sum_by, IsTrue};
ghost use Rattle.cd_term.specs.Terms.{greatest};
ghost use Rattle.cd_clause.specs.Clauses.{terms_of, clause_terms};
ghost use Rattle.cd_contract.specs.Tallies.{variable_count, symbol_count, count_in, atom_count, literal_count, signed_count, IsTally, IsAtMost};

use cd_clause::{Atom, Clause, Literal};
use cd_term::Term;

/// Eight counts, each up to 65,535: of all that is counted, and of the symbols whose number leaves 0, 1 and so on to 6
/// when it is divided by 7.
#[derive(Clone, Copy, Debug)]
pub struct Tally {
    pub all: u16,
    pub zero: u16,
    pub one: u16,
    pub two: u16,
    pub three: u16,
    pub four: u16,
    pub five: u16,
    pub six: u16,
}

/// The counts of nothing.
fn nothing() -> Tally
    ensures { IsTally (λ class. 0) result }
{
    Tally {
        all: 0,
        zero: 0,
        one: 0,
        two: 0,
        three: 0,
        four: 0,
        five: 0,
        six: 0,
    }
}

/// The counts of a variable, which is of no class but all.
fn variable() -> Tally
    ensures { IsTally (λ class. variable_count class) result }
{
    Tally {
        all: 1,
        zero: 0,
        one: 0,
        two: 0,
        three: 0,
        four: 0,
        five: 0,
        six: 0,
    }
}

/// 1 where a number is another one, and otherwise 0.
fn one_if(class: u16, wanted: u16) -> u16
    ensures { result ≡ cond (nat_eq class wanted) 1 0 }
{
    if class == wanted { 1 } else { 0 }
}

/// The counts of a symbol.
fn symbol(f: u16) -> Tally
    ensures { IsTally (λ class. symbol_count class f) result }
{
    let class = f % 7;
    Tally {
        all: 1,
        zero: one_if(class, 0),
        one: one_if(class, 1),
        two: one_if(class, 2),
        three: one_if(class, 3),
        four: one_if(class, 4),
        five: one_if(class, 5),
        six: one_if(class, 6),
    }
}

impl Tally {
    /// The counts of two things together.
    fn plus(self, other: Tally) -> Tally
        ensures { (g h : ℕ → ℕ) → IsTally g self → IsTally h other → IsTally (λ class. g class + h class) result }
    {
        Tally {
            all: self.all.saturating_add(other.all),
            zero: self.zero.saturating_add(other.zero),
            one: self.one.saturating_add(other.one),
            two: self.two.saturating_add(other.two),
            three: self.three.saturating_add(other.three),
            four: self.four.saturating_add(other.four),
            five: self.five.saturating_add(other.five),
            six: self.six.saturating_add(other.six),
        }
    }

    /// The greater ones of the counts of two things.
    fn most(self, other: Tally) -> Tally
        ensures { (g h : ℕ → ℕ) → IsTally g self → IsTally h other → IsTally (λ class. max (g class) (h class)) result }
    {
        Tally {
            all: self.all.max(other.all),
            zero: self.zero.max(other.zero),
            one: self.one.max(other.one),
            two: self.two.max(other.two),
            three: self.three.max(other.three),
            four: self.four.max(other.four),
            five: self.five.max(other.five),
            six: self.six.max(other.six),
        }
    }

    /// Whether no count is greater than another one's. All are compared at once.
    pub fn is_at_most(self, other: Tally) -> bool
        ensures { IsTrue result ↔ IsAtMost self other }
    {
        (self.all <= other.all)
            & (self.zero <= other.zero)
            & (self.one <= other.one)
            & (self.two <= other.two)
            & (self.three <= other.three)
            & (self.four <= other.four)
            & (self.five <= other.five)
            & (self.six <= other.six)
    }
}

/// The counts of a term.
pub fn of_term(t: &Term) -> Tally
    ensures { IsTally (λ class. count_in class t.now) result }
{
    match t {
        Term::Var(_) => variable(),
        Term::App(f, args) => {
            let mut counts = symbol(*f);
            for arg in args.as_slice() {
                counts = counts.plus(of_term(arg));
            }
            counts
        }
    }
}

/// The counts of several terms together.
fn of_several(terms: &[Term]) -> Tally
    ensures { IsTally (λ class. sum_by (count_in class) terms.now) result }
{
    let mut counts = nothing();
    for term in terms {
        counts = counts.plus(of_term(term));
    }
    counts
}

/// The counts of an atom.
fn of_atom(a: &Atom) -> Tally
    ensures { IsTally (λ class. atom_count class a.now) result }
{
    match a {
        Atom::Truth => nothing(),
        Atom::Pred(p, args) => symbol(*p).plus(of_several(args.as_slice())),
        Atom::Equal(s, t) => of_term(s).plus(of_term(t)),
    }
}

/// The counts of a literal, which is one of all.
fn of_literal(l: &Literal) -> Tally
    ensures { IsTally (λ class. literal_count class l.now.atom) result }
{
    let mut counts = of_atom(&l.atom);
    counts.all = 1;
    counts
}

/// The same where the literal has a sign, and else those of nothing.
fn of_signed(l: &Literal, sign: bool) -> Tally
    ensures { IsTally (λ class. signed_count sign class l.now) result }
{
    if l.positive == sign {
        of_literal(l)
    } else {
        nothing()
    }
}

/// The counts of the literals of a sign.
pub fn of_literals(c: &Clause, sign: bool) -> Tally
    ensures { IsTally (λ class. sum_by (signed_count sign class) c.now.literals) result }
{
    let mut counts = nothing();
    for l in c.literals.as_slice() {
        counts = counts.plus(of_signed(l, sign));
    }
    counts
}

/// The greatest counts of several terms.
fn most_of(terms: &[Term]) -> Tally
    ensures { IsTally (λ class. greatest (map (count_in class) terms.now)) result }
{
    let mut most = nothing();
    for term in terms {
        most = most.most(of_term(term));
    }
    most
}

/// The greatest counts of the terms of an atom.
fn most_of_atom(a: &Atom) -> Tally
    ensures { IsTally (λ class. greatest (map (count_in class) (terms_of a.now))) result }
{
    match a {
        Atom::Truth => nothing(),
        Atom::Pred(_, args) => most_of(args.as_slice()),
        Atom::Equal(s, t) => of_term(s).most(of_term(t)),
    }
}

/// The greatest counts of the terms of a clause.
pub fn of_terms(c: &Clause) -> Tally
    ensures { IsTally (λ class. greatest (map (count_in class) (clause_terms c.now.literals))) result }
{
    let mut most = nothing();
    for l in c.literals.as_slice() {
        most = most.most(most_of_atom(&l.atom));
    }
    most
}
