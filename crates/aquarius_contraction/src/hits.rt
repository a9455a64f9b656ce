//! Hits among held clauses, with answers found from the rules.
use crate::spelled::{clause, deep, heavy};
use cd_clause::within;
use cd_contract::{Held, backward, forward, reducer};
use cd_kbo::Order;
use cd_names::{How, Name};
use std::alloc::{AllocError, Global};
use std::test::Fail;

/// A name by its number.
fn name(seq: u32) -> Name {
    Name { peer: 0, seq }
}

/// The clauses that texts spell, under the names 0, 1, 2 and so on.
fn held(alloc: Global, texts: &[&str]) -> Result<Held, AllocError> {
    let mut held = Held::new(alloc);
    let mut seq: u32 = 0;
    for text in texts {
        let clause = clause(alloc, text)?;
        if within(&clause) {
            held.add(alloc, name(seq), &clause)?;
        }
        seq = seq.wrapping_add(1);
    }
    Ok(held)
}

/// Whether `forward` finds a clause by its number in a way, and `reducer` another one, for a clause under a name.
fn are_found(
    alloc: Global,
    texts: &[&str],
    c: &str,
    own: Option<u32>,
    wanted: Option<(u32, How)>,
    by: Option<u32>,
) -> Result<bool, AllocError> {
    let held = held(alloc, texts)?;
    let c = clause(alloc, c)?;
    if !within(&c) {
        return Ok(false);
    }
    let order = Order::plain(alloc);
    let own = own.map(name);
    let is_found = match forward(alloc, &held, &c, own, &order)? {
        None => wanted.is_none(),
        Some(hit) => wanted == Some((hit.by.seq, hit.how)),
    };
    Ok(is_found && reducer(alloc, &held, &c, own, &order)? == by.map(name))
}

/// Whether `backward` strikes the clauses of these numbers in these ways, for a clause under the name 9.
fn are_struck(
    alloc: Global,
    texts: &[&str],
    d: &str,
    wanted: &[(u32, How)],
) -> Result<bool, AllocError> {
    let held = held(alloc, texts)?;
    let d = clause(alloc, d)?;
    if !within(&d) {
        return Ok(false);
    }
    let hits = backward(alloc, &held, &d, name(9), &Order::plain(alloc))?;
    if hits.len() != wanted.len() {
        return Ok(false);
    }
    for (hit, (of, how)) in hits.as_slice().iter().zip(wanted) {
        if hit.of != name(*of) || hit.how != *how {
            return Ok(false);
        }
    }
    Ok(true)
}

#[test]
fn hits_of_smaller_key(rt: HostRuntime) -> Result<(), Fail> {
    let alloc = rt.alloc();
    let several = ["+=hab", "+qaa", "+p0", "+pha"].as_slice();
    let same = ["+p0"].as_slice();
    let group = ["+=ff012f0f12", "+pffabc", "-pfafbc"].as_slice();
    for (texts, c, own, wanted, by) in [
        // a subsumer goes before an equation, wherever it stands
        (several, "+pha", None, Some((2, How::Subsumes)), Some(0)),
        (several, "+qhaa", None, Some((0, How::Reduces)), Some(0)),
        (several, "+qab", None, None, None),
        // variables once and twice
        (
            ["+q01"].as_slice(),
            "+q00",
            None,
            Some((0, How::Subsumes)),
            None,
        ),
        (["+q00"].as_slice(), "+q01", None, None, None),
        // associativity reduces one clause and leaves the other
        (group, "+pffabc", Some(1), Some((0, How::Reduces)), Some(0)),
        (group, "-pfafbc", Some(2), None, None),
        // the same clause: the smaller name decides, and no name is greatest
        (same, "+p0", None, Some((0, How::Subsumes)), None),
        (same, "+p0", Some(1), Some((0, How::Subsumes)), None),
        (same, "+p0", Some(0), None, None),
    ] {
        assert!(rt; are_found(alloc, texts, c, own, wanted, by)?, "{c}");
    }
    Ok(())
}

#[test]
fn struck_clauses_of_greater_key(rt: HostRuntime) -> Result<(), Fail> {
    let alloc = rt.alloc();
    let several = ["+=hab", "+qhaa", "+p0", "+pha", "+pha+q00"].as_slice();
    for (d, wanted) in [
        ("+p0", [(3, How::Subsumes), (4, How::Subsumes)].as_slice()),
        (
            "+=hab",
            [(1, How::Reduces), (3, How::Reduces), (4, How::Reduces)].as_slice(),
        ),
        ("+pb", [].as_slice()),
        // the same ground forms, and fewer repeats
        ("+q01", [(1, How::Subsumes), (4, How::Subsumes)].as_slice()),
    ] {
        assert!(rt; are_struck(alloc, several, d, wanted)?, "{d}");
    }
    Ok(())
}

#[test]
fn a_reduct_out_of_bounds_is_a_hit(rt: HostRuntime) -> Result<(), Fail> {
    let alloc = rt.alloc();
    let order = heavy(alloc)?;
    let e = clause(alloc, "+=h0gg0")?;
    let c = deep(alloc, 1000)?;
    assert!(rt; within(&e) && within(&c));
    let mut held = Held::new(alloc);
    held.add(alloc, name(0), &e)?;
    held.add(alloc, name(1), &c)?;
    let found = forward(alloc, &held, &c, Some(name(1)), &order)?;
    assert!(rt; found.map(|hit| (hit.by, hit.how)) == Some((name(0), How::Reduces)));
    assert!(rt; reducer(alloc, &held, &c, Some(name(1)), &order)? == Some(name(0)));
    let hits = backward(alloc, &held, &e, name(0), &order)?;
    assert!(rt; hits.len() == 1 && hits.as_slice()[0].of == name(1));
    Ok(())
}

#[test]
fn entries_by_name(rt: HostRuntime) -> Result<(), Fail> {
    let alloc = rt.alloc();
    let mut held = held(alloc, ["+p0", "+pa", "+pb"].as_slice())?;
    assert!(rt; held.len() == 3 && held.get(name(1)).is_some() && held.get(name(3)).is_none());
    assert!(rt; held.remove(name(1)).is_some() && held.remove(name(1)).is_none());
    assert!(rt; held.len() == 2 && held.get(name(2)).is_some());
    Ok(())
}
