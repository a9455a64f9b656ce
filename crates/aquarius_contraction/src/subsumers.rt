//! Small clauses that subsume others, with answers found from the rule.
use crate::spelled::{clause, terms};
use cd_list::Equals;
use cd_subsume::subsumes;
use std::alloc::{AllocError, Global};
use std::test::Fail;

/// Whether a clause subsumes another one, by the substitution that a text spells, by some one where the text is `?`,
/// and by none where it is `-`.
fn is_answer(alloc: Global, d: &str, c: &str, wanted: &str) -> Result<bool, AllocError> {
    let d = clause(alloc, d)?;
    let c = clause(alloc, c)?;
    match subsumes(alloc, &d, &c)? {
        None => Ok(wanted == "-"),
        Some(s) => Ok(wanted == "?" || s.equals(&terms(alloc, wanted)?)),
    }
}

#[test]
fn subsumed_clauses(rt: HostRuntime) -> Result<(), Fail> {
    let alloc = rt.alloc();
    for (d, c, wanted) in [
        ("", "", ""),
        ("", "+pa", ""),
        ("+pa", "", "-"),
        ("+t", "+t", ""),
        ("+p0", "+pa", "a"),
        ("+pa", "+p0", "-"),
        ("+p0", "-pa", "-"),
        ("+p0", "+qaa", "-"),
        // variables once and twice, and those of the other clause
        ("+q01", "+q00", "00"),
        ("+q00", "+q01", "-"),
        ("+q01", "+q10", "10"),
        ("+p0", "+ph0", "h0"),
        ("+qh01", "+q01", "-"),
        // each literal has a partner of its own
        ("+p0+p1", "+pa", "-"),
        ("+p0+p1", "+pa+pb", "?"),
        ("+p0+p0", "+pa+pb", "-"),
        ("+p0+p0", "+pa+pa", "a"),
        ("+p0+pa", "+pa+pb", "b"),
        // a choice is taken back
        ("+q01+q1c", "+qab+qad+qdc", "ad"),
        ("+q01+q1c", "+qab+qad+qec", "-"),
        ("+q01+q12+q20", "+qab+qbc+qca", "?"),
        ("+q01+q12+q20", "+qab+qbc+qac", "-"),
        ("+p0-q01", "-qab+pb+pa", "ab"),
        ("+p0-q01", "-qba+pa", "-"),
        // sides exchanged
        ("+=h00", "+=aha", "a"),
        ("+=01+p1", "+=ab+pa", "ba"),
        ("+=0a+p0", "+=ab+pa", "-"),
        ("-=0f01", "-=fabb", "-"),
        ("-=0f10", "-=fabb", "ba"),
    ] {
        assert!(rt; is_answer(alloc, d, c, wanted)?, "{d} | {c}");
    }
    Ok(())
}
