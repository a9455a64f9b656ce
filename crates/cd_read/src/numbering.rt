//! Symbols interned and variables numbered, in the order of reading.
ghost use Rattle.std.specs.Prelude.{◌≡◌, ◌<◌, ◌≤◌, ◌+◌, ◌^◌, ◌∷◌, ◌++◌, [], length, sum_by, IfOk, IfErr, OnOk, OnErr, MatchOption};
ghost use Rattle.cd_symbols.specs.Symbol.{symbol_of, Interns};
ghost use Rattle.cd_read.specs.Meaning.{GivesTerms, GivesAtom, GivesLiterals, GivesClause, IsNumbered, AreWithin};
ghost use Rattle.cd_parse.specs.Trees.{size_of, atom_size};
ghost use Rattle.cd_read.specs.Overflow.{IsFullAt, WhyTerms, WhyAtom, WhyLiterals, WhyClause};

use cd_clause::{Atom, Clause, Literal};
use cd_list::{Sequence, Text};
use cd_parse::{Side, Tree, TreeAtom, TreeLiteral, TreeLiterals, Word};
use cd_symbols::{Kind, SymbolFault, Symbols};
use cd_term::{Args, Term};
use indexmap::IndexSet;
use std::alloc::{AllocError, Global};
use std::marker::Model;

/// The variables of a clause, in the order of first occurrence. A contract sees the list of their words.
#[derive(Drop)]
pub struct Variables {
    words: IndexSet<Text>,
}

impl Model for Variables {
    ghost use Rattle.std.specs.Prelude.{List, ℕ};

    ghost Value = { List (List ℕ) };

    ghost view = { λ v. v.words.keys };
}

impl Variables {
    pub fn new(alloc: Global) -> Variables
        ensures { result ≡ [] }
    {
        Variables {
            words: IndexSet::new(alloc),
        }
    }

    /// The number of a variable, which is put at the end where it isn't there.
    pub fn number(&mut self, alloc: Global, word: &Word) -> Result<u32, AllocError>
        requires few { length self.old < 2 ^ 32 }
        ensures ok { IfOk result (IsNumbered self.old self.new word.now) }
        ensures err { OnErr result (self.new ≡ self.old) }
    {
        let text = word.text(alloc)?;
        if let Some(place) = self.words.get_index_of(&text) {
            return Ok(place as u32);
        }
        let place = self.words.len();
        self.words.insert(text)?;
        Ok(place as u32)
    }
}

/// Why a clause has no numbers.
#[derive(Clone, Copy)]
pub enum PassFault {
    /// It has a symbol beyond the last that there may be.
    Full,
    Memory,
}

impl From<AllocError> for PassFault {
    ghost use Rattle.std.specs.Prelude.{◌≡◌};
    ghost use Rattle.cd_read.specs.declared.numbering.PassFault.TheVariants.{Memory};

    ghost from_gives = { λ _ fault. fault ≡ Memory };

    fn from(_error: AllocError) -> PassFault {
        PassFault::Memory
    }
}

/// The number of a word with so many arguments.
fn interned(
    alloc: Global,
    symbols: &mut Symbols,
    word: &Word,
    arguments: usize,
    kind: Kind,
) -> Result<u16, PassFault>
    requires few { arguments ≤ 65535 }
    ensures ok { IfOk result (Interns symbols.old symbols.new (symbol_of word.now arguments kind)) }
    ensures err { IfErr result (IsFullAt symbols.old (symbol_of word.now arguments kind)) }
{
    let text = word.text(alloc)?;
    match symbols.intern(&text, arguments as u16, kind) {
        Ok(number) => Ok(number),
        Err(SymbolFault::Full) => Err(PassFault::Full),
        Err(SymbolFault::Memory) => Err(PassFault::Memory),
    }
}

/// The empty list, with room for so many items.
fn with_room<T>(alloc: Global, count: usize) -> Result<Sequence<T>, AllocError>
    ensures { IfOk result (λ items. items ≡ []) }
{
    Ok(Sequence::from_vec(Vec::with_capacity(alloc, count)?))
}

/// The term of a tree.
fn numbered(
    alloc: Global,
    symbols: &mut Symbols,
    variables: &mut Variables,
    tree: &Tree,
) -> Result<Term, PassFault>
    requires few { length variables.old + size_of tree.now ≤ 65535 }
    ensures gives { IfOk result
        (λ t. GivesTerms symbols.old variables.old (tree.now ∷ []) (t ∷ []) symbols.new variables.new) }
    ensures why { IfErr result (WhyTerms symbols.old variables.old (tree.now ∷ [])) }
{
    match tree {
        Tree::Var(word) => Ok(Term::Var(variables.number(alloc, word)?)),
        Tree::App(word, args) => {
            let number = interned(alloc, symbols, word, args.len(), Kind::Function)?;
            let mut terms = with_room(alloc, args.len())?;
            for arg in args.as_slice() {
                let term = numbered(alloc, symbols, variables, arg)?;
                terms.push(term)?;
            }
            Ok(Term::App(number, terms))
        }
    }
}

fn numbered_all(
    alloc: Global,
    symbols: &mut Symbols,
    variables: &mut Variables,
    trees: &[Tree],
) -> Result<Args, PassFault>
    requires few { length variables.old + sum_by size_of trees.now ≤ 65535 }
    ensures gives { IfOk result
        (λ ts. GivesTerms symbols.old variables.old trees.now ts symbols.new variables.new) }
    ensures why { IfErr result (WhyTerms symbols.old variables.old trees.now) }
{
    let mut terms = with_room(alloc, trees.len())?;
    for tree in trees {
        let term = numbered(alloc, symbols, variables, tree)?;
        terms.push(term)?;
    }
    Ok(terms)
}

/// The same of the right side of an equation.
fn numbered_side(
    alloc: Global,
    symbols: &mut Symbols,
    variables: &mut Variables,
    side: &Side,
) -> Result<Term, PassFault>
    requires few { length variables.old + size_of side.now ≤ 65535 }
    ensures gives { IfOk result
        (λ t. GivesTerms symbols.old variables.old (side.now ∷ []) (t ∷ []) symbols.new variables.new) }
    ensures why { IfErr result (WhyTerms symbols.old variables.old (side.now ∷ [])) }
{
    numbered(alloc, symbols, variables, side.tree())
}

fn atom_of(
    alloc: Global,
    symbols: &mut Symbols,
    variables: &mut Variables,
    atom: &TreeAtom,
) -> Result<Atom, PassFault>
    requires few { length variables.old + atom_size atom.now ≤ 65535 }
    ensures gives { IfOk result (λ a. GivesAtom symbols.old variables.old atom.now a symbols.new variables.new) }
    ensures why { IfErr result (WhyAtom symbols.old variables.old atom.now) }
{
    match atom {
        TreeAtom::Truth => Ok(Atom::Truth),
        TreeAtom::Pred(word, args) => {
            let number = interned(alloc, symbols, word, args.len(), Kind::Predicate)?;
            let terms = numbered_all(alloc, symbols, variables, args.as_slice())?;
            Ok(Atom::Pred(number, terms))
        }
        TreeAtom::Equal(l, r) => {
            let left = numbered(alloc, symbols, variables, l)?;
            let right = numbered_side(alloc, symbols, variables, r)?;
            Ok(Atom::Equal(left, right))
        }
    }
}

/// Items to be taken one after another. A contract sees those that are left, in their order.
#[derive(Drop)]
struct Rest<T> {
    /// The first one last.
    items: Vec<T>,
}

impl<T> Model for Rest<T> {
    ghost use Rattle.std.specs.Prelude.{List, reverse};
    ghost use Rattle.std.specs.Coded.{coded_list};

    ghost Value = { List T };

    ghost coded = { coded_list T.code };

    ghost view = { λ it. reverse it.items.items };
}

fn last_of<T>(items: &mut Vec<T>) -> Option<T>
    ensures { MatchOption result ((items.old.items ≡ []) × (items.new.items ≡ [])) (λ last. items.old.items ≡ items.new.items ++ last ∷ []) }
{
    items.pop()
}

/// How many items are taken before their room is given back.
const TAKEN: usize = 1_024;

impl<T> Rest<T> {
    fn of(items: Sequence<T>) -> Rest<T>
        ensures { result ≡ items }
    {
        let mut items = items;
        items.reverse();
        Rest {
            items: items.into_vec(),
        }
    }

    /// Takes the first one, and gives room back that isn't needed any more.
    fn next(&mut self) -> Option<T>
        ensures { MatchOption result ((self.old ≡ []) × (self.new ≡ [])) (λ first. self.old ≡ first ∷ self.new) }
    {
        let first = last_of(&mut self.items);
        if self.items.len() % TAKEN == 0 {
            self.items.shrink_to_fit();
        }
        first
    }
}

/// The clause of literals as they are written, each of which is let go once it is numbered. `Full` where it has a
/// symbol beyond number 65,534; then, and where memory runs out, some of its symbols may be there.
pub fn clause_of(
    alloc: Global,
    symbols: &mut Symbols,
    literals: TreeLiterals,
) -> Result<Clause, PassFault>
    requires within { AreWithin literals }
    ensures gives { IfOk result (λ c. GivesClause symbols.old literals c symbols.new) }
    ensures why { IfErr result (WhyClause symbols.old literals) }
{
    let mut variables = Variables::new(alloc);
    let mut clause = with_room(alloc, literals.len())?;
    let mut rest = Rest::of(literals);
    while let Some(literal) = rest.next() {
        let atom = atom_of(alloc, symbols, &mut variables, &literal.atom)?;
        clause.push(Literal {
            positive: literal.positive,
            atom,
        })?;
    }
    Ok(Clause { literals: clause })
}
