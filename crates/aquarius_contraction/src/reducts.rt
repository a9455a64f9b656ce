//! Reducts of small clauses, with answers found from the rule.
use crate::spelled::{clause, deep, heavy, terms};
use cd_clause::{Clause, within};
use cd_kbo::Order;
use cd_list::Equals;
use cd_rewrite::{ReductAt, reduces, reduct};
use cd_term::TermFault;
use std::alloc::{AllocError, Global};
use std::test::Fail;

/// The reduct of a clause within bounds, in the plain order, by both calls.
fn reduct_of(alloc: Global, e: &Clause, c: &Clause) -> Result<Option<ReductAt>, AllocError> {
    let order = Order::plain(alloc);
    if !within(c) || !reduces(alloc, e, c, &order)? {
        return Ok(None);
    }
    match reduct(alloc, e, c, &order) {
        Ok(found) => Ok(found),
        Err(TermFault::OutOfBounds) => Ok(None),
        Err(TermFault::Memory) => Err(AllocError),
    }
}

/// Whether an equation makes of a clause what a text spells, at a place and by a substitution; or nothing, where the
/// text is a dash.
fn is_answer(
    alloc: Global,
    e: &str,
    c: &str,
    place: (u8, u16, &[u16]),
    subst: &str,
    wanted: &str,
) -> Result<bool, AllocError> {
    let e = clause(alloc, e)?;
    let c = clause(alloc, c)?;
    let Some(r) = reduct_of(alloc, &e, &c)? else {
        return Ok(wanted == "-");
    };
    let is_place = r.s == place.0 && r.j == place.1 && r.at.as_slice() == place.2;
    Ok(
        is_place
            && r.subst.equals(&terms(alloc, subst)?)
            && r.clause.equals(&clause(alloc, wanted)?),
    )
}

/// Whether the reduct of a clause within bounds is refused, where there is one.
fn is_refused(
    alloc: Global,
    e: &Clause,
    c: &Clause,
    order: &Order,
) -> Result<Option<bool>, AllocError> {
    if !within(c) || !reduces(alloc, e, c, order)? {
        return Ok(None);
    }
    match reduct(alloc, e, c, order) {
        Ok(None) => Ok(None),
        Ok(Some(r)) => Ok(Some(!within(&r.clause))),
        Err(TermFault::OutOfBounds) => Ok(Some(true)),
        Err(TermFault::Memory) => Err(AllocError),
    }
}

#[test]
fn reducts_at_the_first_place(rt: HostRuntime) -> Result<(), Fail> {
    let alloc = rt.alloc();
    let nowhere = (0, 0, [].as_slice());
    let first = (0, 0, [0].as_slice());
    for (e, c, place, subst, wanted) in [
        ("+=ff012f0f12", "+pffabc", first, "abc", "+pfafbc"),
        ("+=ff012f0f12", "+pfafbc", nowhere, "", "-"),
        // the right side, in the second literal, below the first argument
        (
            "+=bh0",
            "+pb+qbfhaha",
            (1, 1, [1, 0].as_slice()),
            "a",
            "+pb+qbfbha",
        ),
        // a place before those below it
        ("+=h00", "-phha", first, "ha", "-pha"),
        ("+=0a", "+pfab", first, "fab", "+pa"),
        ("+=0a", "+p1", nowhere, "", "-"),
        // only where the instance gets smaller
        ("+=f01f10", "+pfba", first, "ba", "+pfab"),
        ("+=f01f10", "+pfab", nowhere, "", "-"),
        // sides of equations
        ("+=f0ah0", "+=hbfba", (0, 0, [1].as_slice()), "b", "+=hbhb"),
        // one positive equation alone, of which a side has the variables of the other
        ("-=hab", "+pha", nowhere, "", "-"),
        ("+=hab+pa", "+pha", nowhere, "", "-"),
        ("+ph0", "+pha", nowhere, "", "-"),
        ("+=h01", "+pha", nowhere, "", "-"),
        ("+=hab", "+pa", nowhere, "", "-"),
    ] {
        assert!(rt; is_answer(alloc, e, c, place, subst, wanted)?, "{e} | {c}");
    }
    Ok(())
}

#[test]
fn a_reduct_of_too_many_levels(rt: HostRuntime) -> Result<(), Fail> {
    let alloc = rt.alloc();
    let e = clause(alloc, "+=h0gg0")?;
    let order = heavy(alloc)?;
    for (levels, wanted) in [(999, Some(false)), (1000, Some(true)), (1001, None)] {
        let c = deep(alloc, levels)?;
        assert!(rt; is_refused(alloc, &e, &c, &order)? == wanted, "{levels}");
    }
    Ok(())
}
