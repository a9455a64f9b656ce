//! Comparisons of small terms, with answers found from the rules.
ghost use Rattle.std.specs.Prelude.{◌≤◌};

use cd_kbo::{Order, Select, greater, ground_cmp};
use cd_list::{Copied, Equals};
use cd_term::{Args, Term, size};
use std::alloc::{AllocError, Global};
use std::cmp::Ordering;
use std::test::Fail;

/// Digits are variables, and so are some capitals, far apart.
fn variable(symbol: u8) -> Option<u32> {
    match symbol {
        b'0'..=b'9' => Some(u32::from(symbol - b'0')),
        b'V' => Some(70),
        b'W' => Some(71),
        b'X' => Some(200),
        b'Y' => Some(3_999_999_999),
        b'Z' => Some(4_000_000_000),
        _ => None,
    }
}

/// The term whose head is a letter, with arguments from the end of a list: two for `h`, one for `f` and `g`, and
/// none for another letter; or a variable.
fn headed(alloc: Global, symbol: u8, rest: &mut Args) -> Result<Term, AllocError> {
    if let Some(k) = variable(symbol) {
        return Ok(Term::Var(k));
    }
    let count = match symbol {
        b'h' => 2,
        b'f' | b'g' => 1,
        _ => 0,
    };
    let mut args = Args::new(alloc);
    for _ in 0..count {
        if let Some(arg) = rest.pop() {
            args.push(arg)?;
        }
    }
    Ok(Term::App(u16::from(symbol), args))
}

/// The term that a text spells without brackets.
fn term(alloc: Global, text: &str) -> Result<Term, AllocError> {
    let mut found = Args::new(alloc);
    for symbol in text.as_bytes().iter().rev() {
        let term = headed(alloc, *symbol, &mut found)?;
        found.push(term)?;
    }
    Ok(found.pop().unwrap_or(Term::Var(0)))
}

/// Whether the terms are greater one way, greater the other way, and compare so in the ground order.
fn compares(
    alloc: Global,
    order: &Order,
    s: &str,
    t: &str,
    wanted: (bool, bool, Ordering),
) -> Result<bool, AllocError> {
    let s = term(alloc, s)?;
    let t = term(alloc, t)?;
    let limit = 4_294_967_296;
    if size(&s) >= limit || size(&t) >= limit {
        return Ok(false);
    }
    let (left, right, ground) = wanted;
    Ok(
        greater(&s, &t, order) == left
            && greater(&t, &s, order) == right
            && ground_cmp(&s, &t, order) == ground
            && ground_cmp(&t, &s, order) == ground.reverse(),
    )
}

/// The order in which `f` has this weight and rank.
fn with(alloc: Global, weight: u8, rank: u16) -> Result<Order, AllocError>
    requires { 1 ≤ weight }
{
    let mut order = Order::plain(alloc);
    order.set(u16::from(b'f'), weight, rank)?;
    Ok(order)
}

const LESS: (bool, bool, Ordering) = (false, true, Ordering::Less);

const GREATER: (bool, bool, Ordering) = (true, false, Ordering::Greater);
/// Apart for all values of the variables, and then greater or equal in the ground order.
const ABOVE: (bool, bool, Ordering) = (false, false, Ordering::Greater);

const LEVEL: (bool, bool, Ordering) = (false, false, Ordering::Equal);

#[test]
fn a_table_of_comparisons(rt: HostRuntime) -> Result<(), Fail> {
    let alloc = rt.alloc();
    let plain = Order::plain(alloc);
    for (s, t, wanted) in [
        // variables are apart, and below all terms in which they occur
        ("0", "1", LEVEL),
        ("f0", "0", GREATER),
        ("f0", "1", ABOVE),
        // a constant is above `bot`, and beside a variable
        ("a", "0", ABOVE),
        ("b", "a", GREATER),
        ("a", "a", LEVEL),
        // the first argument decides, where the variables allow it
        ("f0", "f1", LEVEL),
        ("fa", "f0", ABOVE),
        ("h01", "h10", LEVEL),
        ("ha0", "h0a", ABOVE),
        ("h0a", "f0", GREATER),
        ("h01", "fa", GREATER),
        // variables past the first 16, and far apart
        ("hWfV", "hVW", GREATER),
        ("hWfV", "h01", ABOVE),
        ("hf3Z", "h3Z", GREATER),
        ("hf3Z", "h3Y", ABOVE),
        ("hf3Z", "hXZ", ABOVE),
    ] {
        assert!(rt; compares(alloc, &plain, s, t, wanted)?, "{s} | {t}");
    }
    Ok(())
}

#[test]
fn orders_are_set_and_copied(rt: HostRuntime) -> Result<(), Fail> {
    let alloc = rt.alloc();
    assert!(rt; compares(alloc, &with(alloc, 1, 0)?, "f0", "g0", LESS)?);
    assert!(rt; compares(alloc, &with(alloc, 2, 0)?, "f0", "g0", GREATER)?);
    assert!(rt; compares(alloc, &with(alloc, 1, 1)?, "f0", "g0", GREATER)?);
    let mut order = Order::plain(alloc);
    assert!(rt; order.select == Select::Nothing);
    order.set(3, 7, 9)?;
    order.set(1, 255, 0)?;
    assert_eq!(rt; order.weights.as_slice(), [1, 255, 1, 7].as_slice());
    assert_eq!(rt; order.ranks.as_slice(), [0, 0, 0, 9].as_slice());
    let mut copy = order.copy(alloc)?;
    assert!(rt; copy.equals(&order));
    copy.select = Select::First;
    assert!(rt; !copy.equals(&order));
    Ok(())
}
