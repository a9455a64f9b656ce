//! That interning succeeds where there is memory, and which numbers come out.
use cd_list::Text;
use cd_symbols::{Kind, Symbols};
use std::alloc::Global;
use std::test::Fail;

/// Whether a symbol gets this number, and is found by it.
fn has_number(
    alloc: Global,
    symbols: &mut Symbols,
    text: &str,
    arity: u16,
    kind: Kind,
    number: u16,
) -> Result<bool, Fail> {
    let interned = symbols.intern(&Text::of(alloc, text)?, arity, kind)?;
    Ok(
        interned == number
            && symbols.text(interned).as_str() == text
            && symbols.arity(interned) == arity
            && symbols.kind(interned) == kind,
    )
}

#[test]
fn symbols_are_numbered_in_the_order_of_first_interning(rt: HostRuntime) -> Result<(), Fail> {
    let alloc = rt.alloc();
    let mut symbols = Symbols::new(alloc);
    for (text, arity, kind, number) in [
        ("p", 1, Kind::Predicate, 0),
        ("f", 1, Kind::Function, 1),
        ("p", 1, Kind::Predicate, 0),
        ("p", 1, Kind::Function, 2),
        ("p", 0, Kind::Predicate, 3),
        ("f", 1, Kind::Function, 1),
    ] {
        assert!(rt;
            has_number(alloc, &mut symbols, text, arity, kind, number)?,
            "{text} {arity}"
        );
    }
    assert!(rt; symbols.len() == 4);
    Ok(())
}
