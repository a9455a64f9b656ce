//! Ground forms of literals, compared.
#![tactic(auto)]

ghost use Rattle.std.specs.Prelude.{◌≡◌, ◌^◌, ◌<◌, IfSome, option_map};
ghost use Rattle.std.specs.Option.{option_cmp};
ghost use Rattle.cd_term.specs.Terms.{size_of};
ghost use Rattle.cd_kbo.specs.Kbo.{ground_compare};
ghost use Rattle.cd_kbo.specs.Sides.{term_of};
ghost use Rattle.cd_key.specs.Literals.{HasSmallSides};
ghost use Rattle.cd_key.specs.Forms.{greater_term, lesser_term, greater_side, lesser_side, literal_compare};

use cd_clause::{Atom, Literal};
use cd_kbo::{Order, Side, ground_cmp, side_cmp};
use cd_term::Term;
use std::cmp::Ordering;

/// The greater of two terms in the ground order, the first where they are the same.
fn greater_of<'a>(s: &'a Term, t: &'a Term, order: &Order) -> &'a Term
    requires left { size_of s.now < 2 ^ 32 }
    requires right { size_of t.now < 2 ^ 32 }
    ensures { result.now ≡ greater_term order.now s.now t.now }
{
    if ground_cmp(s, t, order).is_lt() {
        t
    } else {
        s
    }
}

fn lesser_of<'a>(s: &'a Term, t: &'a Term, order: &Order) -> &'a Term
    requires left { size_of s.now < 2 ^ 32 }
    requires right { size_of t.now < 2 ^ 32 }
    ensures { result.now ≡ lesser_term order.now s.now t.now }
{
    if ground_cmp(s, t, order).is_lt() {
        s
    } else {
        t
    }
}

fn upper<'a>(a: &'a Atom, order: &Order) -> Option<Side<'a>>
    requires { HasSmallSides a.now }
    ensures value { option_map term_of result ≡ greater_side order.now a.now }
    ensures small { IfSome result (λ s. size_of (term_of s) < 2 ^ 32) }
{
    match a {
        Atom::Truth => None,
        Atom::Pred(p, args) => Some(Side::Symbol(*p, args.as_slice())),
        Atom::Equal(s, t) => Some(Side::of(greater_of(s, t, order))),
    }
}

fn lower<'a>(a: &'a Atom, order: &Order) -> Option<Side<'a>>
    requires { HasSmallSides a.now }
    ensures value { option_map term_of result ≡ lesser_side order.now a.now }
    ensures small { IfSome result (λ s. size_of (term_of s) < 2 ^ 32) }
{
    match a {
        Atom::Equal(s, t) => Some(Side::of(lesser_of(s, t, order))),
        _ => None,
    }
}

/// Compares two sides in the ground order, where a missing one is smaller than every term.
fn optional_cmp(s: Option<Side>, t: Option<Side>, order: &Order) -> Ordering
    requires left { IfSome s (λ side. size_of (term_of side) < 2 ^ 32) }
    requires right { IfSome t (λ side. size_of (term_of side) < 2 ^ 32) }
    ensures { result ≡ option_cmp (ground_compare order.now) (option_map term_of s.entry) (option_map term_of t.entry) }
{
    match (s, t) {
        (None, None) => Ordering::Equal,
        (None, Some(_)) => Ordering::Less,
        (Some(_), None) => Ordering::Greater,
        (Some(s), Some(t)) => side_cmp(s, t, order),
    }
}

/// Compares the ground forms of two literals: by the greater side, then by the sign with negative greater, then
/// by the lesser side.
pub fn form_cmp(l: &Literal, m: &Literal, order: &Order) -> Ordering
    requires left { HasSmallSides l.now.atom }
    requires right { HasSmallSides m.now.atom }
    ensures { result ≡ literal_compare order.now l.now m.now }
{
    let by_upper = optional_cmp(upper(&l.atom, order), upper(&m.atom, order), order);
    if by_upper.is_ne() {
        return by_upper;
    }
    let by_sign = m.positive.cmp(&l.positive);
    if by_sign.is_ne() {
        return by_sign;
    }
    optional_cmp(lower(&l.atom, order), lower(&m.atom, order), order)
}
