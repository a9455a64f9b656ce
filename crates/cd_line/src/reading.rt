//! Readers of what stands at the front of a text. They take more than is printed: what they found is printed
//! again and compared.
ghost use Rattle.std.specs.Prelude.{◌≡◌, ◌<◌, ◌≤◌, false, true, ℕ, List, length, codes, IfOk};
ghost use Rattle.cd_lex.specs.Bytes.{is_digit, is_word_byte};
ghost use Rattle.cd_symbols.specs.declared.Kind.{Kind as KindValue};
ghost use Rattle.cd_line.specs.Reading.{Gives, Answers, stripped, with_digit, number_read, run_read, inside_read, quoted_read, word_read, label_read, joined_read, symbol_found, variable_read, applied_read, made_term, applied_term_read, term_read, made_predicate, right_read, behind_variable, left_read, behind_applied, negative_read, atom_read, literal_read, literals_read, clause_read, terms_read, subst_read, path_read, next_read, side_read, first_side_read, no_name, resolve_read, factor_read, refl_read, eqfac_read, para_read, rewrite_read, rule_read, role_read, file_read, inference_read, origin_read, body_read};

use cd_clause::{Atom, Clause, Literal, Literals};
use cd_lex::is_word_byte;
use cd_list::Text;
use cd_names::Name;
use cd_read::{Label, Role};
use cd_steps::Step;
use cd_symbols::{Kind, Symbols};
use cd_term::{Args, Path, Subst, Term};
use std::alloc::{AllocError, Global};

/// Why nothing was read.
#[derive(Drop)]
pub enum ReadFault {
    /// The text doesn't begin as it should.
    Form,
    /// Memory ran out.
    Memory,
}

impl From<AllocError> for ReadFault {
    ghost use Rattle.std.specs.Prelude.{◌≡◌};
    ghost use Rattle.cd_line.specs.declared.reading.ReadFault.TheVariants.{Memory};

    ghost from_gives = { λ _ fault. fault ≡ Memory };

    fn from(_error: AllocError) -> ReadFault {
        ReadFault::Memory
    }
}

/// A word and its arguments.
#[derive(Drop)]
pub struct Applied {
    pub word: Text,
    pub args: Args,
}

/// Where a line comes from, without the lines that it stands on.
#[derive(Drop)]
pub enum Origin {
    File {
        role: Role,
        path: Text,
        label: Label,
    },
    Rule {
        step: Step,
    },
}

/// What stands between the number of a line and the names of its parents.
#[derive(Drop)]
pub struct Body {
    pub clause: Clause,
    pub origin: Origin,
}

/// What stands behind a front.
pub fn strip<'a>(text: &'a [u8], front: &[u8]) -> Option<&'a [u8]>
    ensures { Answers (λ x. x.now) result (stripped front.now text.now) }
{
    let mut rest = text;
    let mut wanted = front;
    while let [first, others @ ..] = wanted {
        let [byte, after @ ..] = rest else {
            return None;
        };
        if *byte != *first {
            return None;
        }
        wanted = others;
        rest = after;
    }
    Some(rest)
}

// What stands behind a front that must be there.
pub fn expect<'a>(text: &'a [u8], front: &[u8]) -> Result<&'a [u8], ReadFault>
    ensures { Gives (λ x. x.now) result (stripped front.now text.now) }
{
    match strip(text, front) {
        Some(rest) => Ok(rest),
        None => Err(ReadFault::Form),
    }
}

pub fn is_digit(b: u8) -> bool
    ensures { result ≡ is_digit b }
{
    b'0' <= b && b <= b'9'
}

#[tactic(auto, unfolding(crate::specs::Reading::number_read))]
fn read_number(text: &[u8]) -> Result<(u16, &[u8]), ReadFault>
    ensures { Gives (λ x. (x.0, x.1.now)) result (number_read text.now) }
{
    let mut value: u16 = 0;
    let mut rest = text;
    while let [byte, after @ ..] = rest {
        if !is_digit(*byte) {
            break;
        }
        value = match with_digit(value, *byte - b'0') {
            Some(next) => next,
            None => return Err(ReadFault::Form),
        };
        rest = after;
    }
    Ok((value, rest))
}

fn with_digit(value: u16, digit: u8) -> Option<u16>
    ensures { result ≡ with_digit value digit }
{
    value.checked_mul(10)?.checked_add(u16::from(digit))
}

#[tactic(auto, using(crate::proofs::Fronts::front_start, crate::proofs::Fronts::front_more, crate::proofs::Fronts::front_end))]
fn read_word_run(alloc: Global, text: &[u8]) -> Result<(Text, &[u8]), ReadFault>
    ensures { Gives (λ x. (x.0, x.1.now)) result (run_read is_word_byte text.now) }
{
    let mut content = Text::of(alloc, "")?;
    let mut rest = text;
    while let [byte, after @ ..] = rest {
        if !is_word_byte(*byte) {
            break;
        }
        content.push_ascii(*byte)?;
        rest = after;
    }
    Ok((content, rest))
}

#[tactic(auto, using(crate::proofs::Fronts::front_start, crate::proofs::Fronts::front_more, crate::proofs::Fronts::front_end))]
fn read_digits(alloc: Global, text: &[u8]) -> Result<(Text, &[u8]), ReadFault>
    ensures { Gives (λ x. (x.0, x.1.now)) result (run_read is_digit text.now) }
{
    let mut content = Text::of(alloc, "")?;
    let mut rest = text;
    while let [byte, after @ ..] = rest {
        if !is_digit(*byte) {
            break;
        }
        content.push_ascii(*byte)?;
        rest = after;
    }
    Ok((content, rest))
}

// Reads behind an opening quote.
#[tactic(auto, using(crate::proofs::Fronts::front_start, crate::proofs::Fronts::front_more, crate::proofs::Fronts::front_end))]
fn read_inside(alloc: Global, text: &[u8]) -> Result<(Text, &[u8]), ReadFault>
    ensures { Gives (λ x. (x.0, x.1.now)) result (inside_read false text.now) }
{
    let mut content = Text::of(alloc, "")?;
    let mut escaped = false;
    let mut rest = text;
    while let [byte, after @ ..] = rest {
        if !escaped && *byte == b'\'' {
            return Ok((content, after));
        }
        if !escaped && *byte == b'\\' {
            escaped = true;
        } else {
            if *byte >= 128 {
                return Err(ReadFault::Form);
            }
            content.push_ascii(*byte)?;
            escaped = false;
        }
        rest = after;
    }
    Err(ReadFault::Form)
}

#[tactic(auto, unfolding(crate::specs::Reading::quoted_read))]
fn read_quoted(alloc: Global, text: &[u8]) -> Result<(Text, &[u8]), ReadFault>
    ensures { Gives (λ x. (x.0, x.1.now)) result (quoted_read text.now) }
{
    let rest = expect(text, b"'")?;
    read_inside(alloc, rest)
}

#[tactic(auto, unfolding(crate::specs::Reading::word_read))]
fn read_word(alloc: Global, text: &[u8]) -> Result<(Text, &[u8]), ReadFault>
    ensures { Gives (λ x. (x.0, x.1.now)) result (word_read text.now) }
{
    match text {
        [] => Err(ReadFault::Form),
        [b'\'', rest @ ..] => read_inside(alloc, rest),
        [_, ..] => read_word_run(alloc, text),
    }
}

#[tactic(auto, unfolding(crate::specs::Reading::label_read))]
fn read_label(alloc: Global, text: &[u8]) -> Result<(Label, &[u8]), ReadFault>
    ensures { Gives (λ x. (x.0, x.1.now)) result (label_read text.now) }
{
    let [first, ..] = text else {
        return Err(ReadFault::Form);
    };
    if is_digit(*first) {
        let (digits, rest) = read_digits(alloc, text)?;
        Ok((Label::Integer(digits), rest))
    } else {
        let (word, rest) = read_word(alloc, text)?;
        Ok((Label::Word(word), rest))
    }
}

// The number of a symbol with this word, so many arguments and this kind.
#[tactic(auto, using(crate::proofs::Symbols::found_there, crate::proofs::Symbols::found_nowhere, crate::proofs::Symbols::found_too_many))]
fn find_symbol(symbols: &Symbols, kind: Kind, word: &Text, count: usize) -> Option<u16>
    ensures { result ≡ symbol_found symbols.now kind word.now count }
{
    let _distinct = symbols.len();
    if count > 65_535 {
        return None;
    }
    symbols.find(word, count as u16, kind)
}

fn read_variable(text: &[u8]) -> Result<(Term, &[u8]), ReadFault>
    ensures { Gives (λ x. (x.0, x.1.now)) result (variable_read text.now) }
{
    let (number, rest) = read_number(text)?;
    Ok((Term::Var(u32::from(number)), rest))
}

fn made_term(symbols: &Symbols, applied: Applied) -> Option<Term>
    ensures { result ≡ made_term symbols.now applied }
{
    let Applied { word, args } = applied;
    let symbol = find_symbol(symbols, Kind::Function, &word, args.len())?;
    Some(Term::App(symbol, args))
}

#[cycle(terms)]
fn read_term<'a>(
    alloc: Global,
    symbols: &Symbols,
    levels: u32,
    text: &'a [u8],
) -> Result<(Term, &'a [u8]), ReadFault>
    ensures { Gives (λ x. (x.0, x.1.now)) result (term_read symbols.now levels text.now) }
{
    if levels == 0 {
        return Err(ReadFault::Form);
    }
    match strip(text, b"X") {
        Some(rest) => read_variable(rest),
        None => {
            let (applied, rest) = read_applied(alloc, symbols, levels - 1, text)?;
            match made_term(symbols, applied) {
                Some(term) => Ok((term, rest)),
                None => Err(ReadFault::Form),
            }
        }
    }
}

#[cycle(terms)]
fn read_applied<'a>(
    alloc: Global,
    symbols: &Symbols,
    levels: u32,
    text: &'a [u8],
) -> Result<(Applied, &'a [u8]), ReadFault>
    ensures { Gives (λ x. (x.0, x.1.now)) result (applied_read (λ t. term_read symbols.now levels t) text.now) }
{
    let (word, behind) = read_word(alloc, text)?;
    match strip(behind, b"(") {
        None => {
            let args = Args::new(alloc);
            Ok((Applied { word, args }, behind))
        }
        Some(inner) => {
            let (args, rest) = read_terms_joined(alloc, symbols, levels, inner)?;
            let rest = expect(rest, b")")?;
            Ok((Applied { word, args }, rest))
        }
    }
}

#[cycle(terms)]
#[tactic(auto, using(crate::proofs::Fronts::ends, crate::proofs::Fronts::stops, crate::proofs::Fronts::runs_out))]
fn read_terms_joined<'a>(
    alloc: Global,
    symbols: &Symbols,
    levels: u32,
    text: &'a [u8],
) -> Result<(Args, &'a [u8]), ReadFault>
    ensures { Gives (λ x. (x.0, x.1.now)) result (joined_read (codes ",") (λ t. term_read symbols.now levels t) text.now) }
{
    let (first, after) = read_term(alloc, symbols, levels, text)?;
    let mut args = Args::new(alloc);
    args.push(first)?;
    let mut rest = after;
    for _ in 0..text.len() {
        let Some(behind) = strip(rest, b",") else {
            return Ok((args, rest));
        };
        let (term, after) = read_term(alloc, symbols, levels, behind)?;
        args.push(term)?;
        rest = after;
    }
    Ok((args, rest))
}

fn made_predicate(symbols: &Symbols, positive: bool, applied: Applied) -> Option<Literal>
    ensures { result ≡ made_predicate symbols.now positive applied }
{
    let Applied { word, args } = applied;
    let symbol = find_symbol(symbols, Kind::Predicate, &word, args.len())?;
    let atom = Atom::Pred(symbol, args);
    Some(Literal { positive, atom })
}

fn read_right<'a>(
    alloc: Global,
    symbols: &Symbols,
    levels: u32,
    positive: bool,
    left: Term,
    text: &'a [u8],
) -> Result<(Literal, &'a [u8]), ReadFault>
    ensures { Gives (λ x. (x.0, x.1.now)) result (right_read symbols.now levels positive left text.now) }
{
    let (right, rest) = read_term(alloc, symbols, levels, text)?;
    let atom = Atom::Equal(left, right);
    Ok((Literal { positive, atom }, rest))
}

#[tactic(auto, unfolding(crate::specs::Reading::behind_variable))]
fn read_behind_variable<'a>(
    alloc: Global,
    symbols: &Symbols,
    levels: u32,
    left: Term,
    text: &'a [u8],
) -> Result<(Literal, &'a [u8]), ReadFault>
    ensures { Gives (λ x. (x.0, x.1.now)) result (behind_variable symbols.now levels left text.now) }
{
    if let Some(rest) = strip(text, b" = ") {
        return read_right(alloc, symbols, levels, true, left, rest);
    }
    if let Some(rest) = strip(text, b" != ") {
        return read_right(alloc, symbols, levels, false, left, rest);
    }
    Err(ReadFault::Form)
}

fn read_left<'a>(
    alloc: Global,
    symbols: &Symbols,
    levels: u32,
    positive: bool,
    applied: Applied,
    text: &'a [u8],
) -> Result<(Literal, &'a [u8]), ReadFault>
    ensures { Gives (λ x. (x.0, x.1.now)) result (left_read symbols.now levels positive applied text.now) }
{
    match made_term(symbols, applied) {
        Some(left) => read_right(alloc, symbols, levels, positive, left, text),
        None => Err(ReadFault::Form),
    }
}

#[tactic(auto, unfolding(crate::specs::Reading::behind_applied))]
fn read_behind_applied<'a>(
    alloc: Global,
    symbols: &Symbols,
    levels: u32,
    applied: Applied,
    text: &'a [u8],
) -> Result<(Literal, &'a [u8]), ReadFault>
    ensures { Gives (λ x. (x.0, x.1.now)) result (behind_applied symbols.now levels applied text.now) }
{
    if let Some(rest) = strip(text, b" = ") {
        return read_left(alloc, symbols, levels, true, applied, rest);
    }
    if let Some(rest) = strip(text, b" != ") {
        return read_left(alloc, symbols, levels, false, applied, rest);
    }
    match made_predicate(symbols, true, applied) {
        Some(literal) => Ok((literal, text)),
        None => Err(ReadFault::Form),
    }
}

#[tactic(auto, unfolding(crate::specs::Reading::negative_read))]
fn read_negative<'a>(
    alloc: Global,
    symbols: &Symbols,
    levels: u32,
    text: &'a [u8],
) -> Result<(Literal, &'a [u8]), ReadFault>
    ensures { Gives (λ x. (x.0, x.1.now)) result (negative_read symbols.now levels text.now) }
{
    let (applied, rest) = read_applied(alloc, symbols, levels, text)?;
    match made_predicate(symbols, false, applied) {
        Some(literal) => Ok((literal, rest)),
        None => Err(ReadFault::Form),
    }
}

#[tactic(auto, unfolding(crate::specs::Reading::atom_read))]
fn read_atom<'a>(
    alloc: Global,
    symbols: &Symbols,
    levels: u32,
    text: &'a [u8],
) -> Result<(Literal, &'a [u8]), ReadFault>
    requires { levels < 65536 }
    ensures { Gives (λ x. (x.0, x.1.now)) result (atom_read symbols.now levels text.now) }
{
    if let Some(rest) = strip(text, b"X") {
        let (left, rest) = read_variable(rest)?;
        return read_behind_variable(alloc, symbols, levels + 1, left, rest);
    }
    let (applied, rest) = read_applied(alloc, symbols, levels, text)?;
    read_behind_applied(alloc, symbols, levels + 1, applied, rest)
}

#[tactic(auto, unfolding(crate::specs::Reading::literal_read))]
fn read_literal<'a>(
    alloc: Global,
    symbols: &Symbols,
    levels: u32,
    text: &'a [u8],
) -> Result<(Literal, &'a [u8]), ReadFault>
    requires { levels < 65536 }
    ensures { Gives (λ x. (x.0, x.1.now)) result (literal_read symbols.now levels text.now) }
{
    if let Some(rest) = strip(text, b"$true") {
        let atom = Atom::Truth;
        return Ok((
            Literal {
                positive: true,
                atom,
            },
            rest,
        ));
    }
    if let Some(rest) = strip(text, b"$false") {
        let atom = Atom::Truth;
        return Ok((
            Literal {
                positive: false,
                atom,
            },
            rest,
        ));
    }
    if let Some(rest) = strip(text, b"~") {
        return read_negative(alloc, symbols, levels, rest);
    }
    read_atom(alloc, symbols, levels, text)
}

#[tactic(auto, using(crate::proofs::Fronts::goes_on, crate::proofs::Fronts::ends, crate::proofs::Fronts::stops, crate::proofs::Fronts::runs_out))]
fn read_literals_joined<'a>(
    alloc: Global,
    symbols: &Symbols,
    levels: u32,
    text: &'a [u8],
) -> Result<(Literals, &'a [u8]), ReadFault>
    requires { levels < 65536 }
    ensures { Gives (λ x. (x.0, x.1.now)) result (joined_read (codes " | ") (λ t. literal_read symbols.now levels t) text.now) }
{
    let (first, after) = read_literal(alloc, symbols, levels, text)?;
    let mut literals = Literals::new(alloc);
    literals.push(first)?;
    let mut rest = after;
    for _ in 0..text.len() {
        let Some(behind) = strip(rest, b" | ") else {
            return Ok((literals, rest));
        };
        let (literal, after) = read_literal(alloc, symbols, levels, behind)?;
        literals.push(literal)?;
        rest = after;
    }
    Ok((literals, rest))
}

#[tactic(auto, unfolding(crate::specs::Reading::literals_read))]
fn read_literals<'a>(
    alloc: Global,
    symbols: &Symbols,
    levels: u32,
    text: &'a [u8],
) -> Result<(Clause, &'a [u8]), ReadFault>
    requires { levels < 65536 }
    ensures { Gives (λ x. (x.0, x.1.now)) result (literals_read symbols.now levels text.now) }
{
    let inner = expect(text, b"(")?;
    let (literals, rest) = read_literals_joined(alloc, symbols, levels, inner)?;
    let rest = expect(rest, b")")?;
    Ok((Clause { literals }, rest))
}

#[tactic(auto, unfolding(crate::specs::Reading::clause_read))]
fn read_clause<'a>(
    alloc: Global,
    symbols: &Symbols,
    levels: u32,
    text: &'a [u8],
) -> Result<(Clause, &'a [u8]), ReadFault>
    requires { levels < 65536 }
    ensures { Gives (λ x. (x.0, x.1.now)) result (clause_read symbols.now levels text.now) }
{
    match strip(text, b"$false") {
        Some(rest) => {
            let literals = Literals::new(alloc);
            Ok((Clause { literals }, rest))
        }
        None => read_literals(alloc, symbols, levels, text),
    }
}

#[tactic(auto, unfolding(crate::specs::Reading::terms_read))]
fn read_terms<'a>(
    alloc: Global,
    symbols: &Symbols,
    levels: u32,
    text: &'a [u8],
) -> Result<(Subst, &'a [u8]), ReadFault>
    ensures { Gives (λ x. (x.0, x.1.now)) result (terms_read symbols.now levels text.now) }
{
    match strip(text, b"]") {
        Some(_) => Ok((Subst::new(alloc), text)),
        None => read_terms_joined(alloc, symbols, levels, text),
    }
}

#[tactic(auto, unfolding(crate::specs::Reading::subst_read))]
fn read_subst<'a>(
    alloc: Global,
    symbols: &Symbols,
    levels: u32,
    text: &'a [u8],
) -> Result<(Subst, &'a [u8]), ReadFault>
    ensures { Gives (λ x. (x.0, x.1.now)) result (subst_read symbols.now levels text.now) }
{
    let inner = expect(text, b"),subst([")?;
    let (terms, rest) = read_terms(alloc, symbols, levels, inner)?;
    let rest = expect(rest, b"])]")?;
    Ok((terms, rest))
}

#[tactic(auto, using(crate::proofs::Fronts::goes_on, crate::proofs::Fronts::ends, crate::proofs::Fronts::stops, crate::proofs::Fronts::runs_out))]
fn read_places(alloc: Global, text: &[u8]) -> Result<(Path, &[u8]), ReadFault>
    ensures { Gives (λ x. (x.0, x.1.now)) result (joined_read (codes ",") number_read text.now) }
{
    let (first, after) = read_number(text)?;
    let mut places = Path::new(alloc);
    places.push(first)?;
    let mut rest = after;
    for _ in 0..text.len() {
        let Some(behind) = strip(rest, b",") else {
            return Ok((places, rest));
        };
        let (place, after) = read_number(behind)?;
        places.push(place)?;
        rest = after;
    }
    Ok((places, rest))
}

#[tactic(auto, unfolding(crate::specs::Reading::path_read))]
fn read_path(alloc: Global, text: &[u8]) -> Result<(Path, &[u8]), ReadFault>
    ensures { Gives (λ x. (x.0, x.1.now)) result (path_read text.now) }
{
    let inner = expect(text, b",[")?;
    let (places, rest) = read_places(alloc, inner)?;
    let rest = expect(rest, b"]")?;
    Ok((places, rest))
}

fn read_next(text: &[u8]) -> Result<(u16, &[u8]), ReadFault>
    ensures { Gives (λ x. (x.0, x.1.now)) result (next_read text.now) }
{
    let rest = expect(text, b",")?;
    read_number(rest)
}

fn read_first_side(text: &[u8]) -> Result<(u8, &[u8]), ReadFault>
    ensures { Gives (λ x. (x.0, x.1.now)) result (first_side_read text.now) }
{
    let (number, rest) = read_number(text)?;
    if number < 2 {
        Ok((number as u8, rest))
    } else {
        Err(ReadFault::Form)
    }
}

fn read_side(text: &[u8]) -> Result<(u8, &[u8]), ReadFault>
    ensures { Gives (λ x. (x.0, x.1.now)) result (side_read text.now) }
{
    let rest = expect(text, b",")?;
    read_first_side(rest)
}

// A step that was read names no clauses.
fn no_name() -> Name
    ensures { result ≡ no_name }
{
    Name { peer: 0, seq: 0 }
}

#[tactic(auto, unfolding(crate::specs::Reading::resolve_read))]
fn read_resolve<'a>(
    alloc: Global,
    symbols: &Symbols,
    levels: u32,
    text: &'a [u8],
) -> Result<(Step, &'a [u8]), ReadFault>
    ensures { Gives (λ x. (x.0, x.1.now)) result (resolve_read symbols.now levels text.now) }
{
    let (i, rest) = read_number(text)?;
    let (j, rest) = read_next(rest)?;
    let (subst, rest) = read_subst(alloc, symbols, levels, rest)?;
    let step = Step::Resolve {
        pos: no_name(),
        i,
        neg: no_name(),
        j,
        subst,
    };
    Ok((step, rest))
}

#[tactic(auto, unfolding(crate::specs::Reading::factor_read))]
fn read_factor<'a>(
    alloc: Global,
    symbols: &Symbols,
    levels: u32,
    text: &'a [u8],
) -> Result<(Step, &'a [u8]), ReadFault>
    ensures { Gives (λ x. (x.0, x.1.now)) result (factor_read symbols.now levels text.now) }
{
    let (i, rest) = read_number(text)?;
    let (j, rest) = read_next(rest)?;
    let (subst, rest) = read_subst(alloc, symbols, levels, rest)?;
    Ok((
        Step::Factor {
            of: no_name(),
            i,
            j,
            subst,
        },
        rest,
    ))
}

#[tactic(auto, unfolding(crate::specs::Reading::refl_read))]
fn read_refl<'a>(
    alloc: Global,
    symbols: &Symbols,
    levels: u32,
    text: &'a [u8],
) -> Result<(Step, &'a [u8]), ReadFault>
    ensures { Gives (λ x. (x.0, x.1.now)) result (refl_read symbols.now levels text.now) }
{
    let (i, rest) = read_number(text)?;
    let (subst, rest) = read_subst(alloc, symbols, levels, rest)?;
    Ok((
        Step::Refl {
            of: no_name(),
            i,
            subst,
        },
        rest,
    ))
}

#[tactic(auto, unfolding(crate::specs::Reading::eqfac_read))]
fn read_eqfac<'a>(
    alloc: Global,
    symbols: &Symbols,
    levels: u32,
    text: &'a [u8],
) -> Result<(Step, &'a [u8]), ReadFault>
    ensures { Gives (λ x. (x.0, x.1.now)) result (eqfac_read symbols.now levels text.now) }
{
    let (i, rest) = read_number(text)?;
    let (s, rest) = read_side(rest)?;
    let (j, rest) = read_next(rest)?;
    let (z, rest) = read_side(rest)?;
    let (subst, rest) = read_subst(alloc, symbols, levels, rest)?;
    let step = Step::EqFac {
        of: no_name(),
        i,
        s,
        j,
        z,
        subst,
    };
    Ok((step, rest))
}

#[tactic(auto, unfolding(crate::specs::Reading::para_read))]
fn read_para<'a>(
    alloc: Global,
    symbols: &Symbols,
    levels: u32,
    text: &'a [u8],
) -> Result<(Step, &'a [u8]), ReadFault>
    ensures { Gives (λ x. (x.0, x.1.now)) result (para_read symbols.now levels text.now) }
{
    let (i, rest) = read_number(text)?;
    let (s, rest) = read_side(rest)?;
    let (j, rest) = read_next(rest)?;
    let (at, rest) = read_path(alloc, rest)?;
    let (subst, rest) = read_subst(alloc, symbols, levels, rest)?;
    let step = Step::Para {
        giver: no_name(),
        i,
        s,
        taker: no_name(),
        j,
        at,
        subst,
    };
    Ok((step, rest))
}

#[tactic(auto, unfolding(crate::specs::Reading::rewrite_read))]
fn read_rewrite<'a>(
    alloc: Global,
    symbols: &Symbols,
    levels: u32,
    text: &'a [u8],
) -> Result<(Step, &'a [u8]), ReadFault>
    ensures { Gives (λ x. (x.0, x.1.now)) result (rewrite_read symbols.now levels text.now) }
{
    let (s, rest) = read_first_side(text)?;
    let (j, rest) = read_next(rest)?;
    let (at, rest) = read_path(alloc, rest)?;
    let (subst, rest) = read_subst(alloc, symbols, levels, rest)?;
    let step = Step::Rewrite {
        by: no_name(),
        s,
        j,
        at,
        subst,
    };
    Ok((step, rest))
}

#[tactic(auto, unfolding(crate::specs::Reading::rule_read))]
fn read_rule<'a>(
    alloc: Global,
    symbols: &Symbols,
    levels: u32,
    text: &'a [u8],
) -> Result<(Step, &'a [u8]), ReadFault>
    ensures { Gives (λ x. (x.0, x.1.now)) result (rule_read symbols.now levels text.now) }
{
    if let Some(rest) = strip(text, b"resolve,[status(thm),at(") {
        return read_resolve(alloc, symbols, levels, rest);
    }
    if let Some(rest) = strip(text, b"factor,[status(thm),at(") {
        return read_factor(alloc, symbols, levels, rest);
    }
    if let Some(rest) = strip(text, b"refl,[status(thm),at(") {
        return read_refl(alloc, symbols, levels, rest);
    }
    if let Some(rest) = strip(text, b"eqfac,[status(thm),at(") {
        return read_eqfac(alloc, symbols, levels, rest);
    }
    if let Some(rest) = strip(text, b"para,[status(thm),at(") {
        return read_para(alloc, symbols, levels, rest);
    }
    if let Some(rest) = strip(text, b"rewrite,[status(thm),at(") {
        return read_rewrite(alloc, symbols, levels, rest);
    }
    let rest = expect(text, b"tidy,[status(thm)]")?;
    Ok((Step::Tidy, rest))
}

#[tactic(auto, unfolding(crate::specs::Reading::role_read))]
fn read_role(text: &[u8]) -> Result<(Role, &[u8]), ReadFault>
    ensures { Gives (λ x. (x.0, x.1.now)) result (role_read text.now) }
{
    if let Some(rest) = strip(text, b"axiom") {
        return Ok((Role::Axiom, rest));
    }
    if let Some(rest) = strip(text, b"hypothesis") {
        return Ok((Role::Hypothesis, rest));
    }
    if let Some(rest) = strip(text, b"definition") {
        return Ok((Role::Definition, rest));
    }
    if let Some(rest) = strip(text, b"assumption") {
        return Ok((Role::Assumption, rest));
    }
    if let Some(rest) = strip(text, b"lemma") {
        return Ok((Role::Lemma, rest));
    }
    if let Some(rest) = strip(text, b"theorem") {
        return Ok((Role::Theorem, rest));
    }
    if let Some(rest) = strip(text, b"corollary") {
        return Ok((Role::Corollary, rest));
    }
    if let Some(rest) = strip(text, b"negated_conjecture") {
        return Ok((Role::NegatedConjecture, rest));
    }
    let rest = expect(text, b"plain")?;
    Ok((Role::Plain, rest))
}

#[tactic(auto, unfolding(crate::specs::Reading::file_read))]
fn read_file(alloc: Global, role: Role, text: &[u8]) -> Result<(Origin, &[u8]), ReadFault>
    ensures { Gives (λ x. (x.0, x.1.now)) result (file_read role text.now) }
{
    let (path, rest) = read_quoted(alloc, text)?;
    let rest = expect(rest, b",")?;
    let (label, rest) = read_label(alloc, rest)?;
    let rest = expect(rest, b")")?;
    Ok((Origin::File { role, path, label }, rest))
}

#[tactic(auto, unfolding(crate::specs::Reading::inference_read))]
fn read_inference<'a>(
    alloc: Global,
    symbols: &Symbols,
    levels: u32,
    text: &'a [u8],
) -> Result<(Origin, &'a [u8]), ReadFault>
    ensures { Gives (λ x. (x.0, x.1.now)) result (inference_read symbols.now levels text.now) }
{
    let inner = expect(text, b"inference(")?;
    let (step, rest) = read_rule(alloc, symbols, levels, inner)?;
    let rest = expect(rest, b",[")?;
    Ok((Origin::Rule { step }, rest))
}

#[tactic(auto, unfolding(crate::specs::Reading::origin_read))]
fn read_origin<'a>(
    alloc: Global,
    symbols: &Symbols,
    levels: u32,
    role: Role,
    text: &'a [u8],
) -> Result<(Origin, &'a [u8]), ReadFault>
    ensures { Gives (λ x. (x.0, x.1.now)) result (origin_read symbols.now levels role text.now) }
{
    match strip(text, b"file(") {
        Some(rest) => read_file(alloc, role, rest),
        None => read_inference(alloc, symbols, levels, text),
    }
}

/// Reads what stands behind the number of a line, up to the names of its parents or to its end.
#[tactic(auto, unfolding(crate::specs::Reading::body_read))]
pub fn read_body<'a>(
    alloc: Global,
    symbols: &Symbols,
    levels: u32,
    text: &'a [u8],
) -> Result<(Body, &'a [u8]), ReadFault>
    requires { levels < 65536 }
    ensures { Gives (λ x. (x.0, x.1.now)) result (body_read symbols.now levels text.now) }
{
    let (role, rest) = read_role(text)?;
    let rest = expect(rest, b",")?;
    let (clause, rest) = read_clause(alloc, symbols, levels, rest)?;
    let rest = expect(rest, b",")?;
    let (origin, rest) = read_origin(alloc, symbols, levels + 1, role, rest)?;
    Ok((Body { clause, origin }, rest))
}
