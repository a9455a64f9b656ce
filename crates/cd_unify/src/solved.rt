//! Unification by classes of nodes.
#![tactic(auto)]

ghost use Rattle.std.specs.Prelude.{◌≡◌, ◌≤◌, map, length, IfOk, MatchOption};
ghost use Rattle.cd_term.specs.Terms.{bound_of, greatest};
ghost use Rattle.cd_unify.specs.Unifiers.{raised, HaveNoUnifier};
ghost use Rattle.cd_unify.specs.Solved.{IsProblem, IsSolved};

use crate::classes::{Pairs, merge, push_pairs};
use crate::graph::{Graph, Nodes, add_all, variables};
use crate::trees::{ranked, rooted};
use cd_term::Term;
use std::alloc::{AllocError, Global};

/// The nodes of two lists of terms, and the pairs of them that have to stand for one term.
#[derive(Drop)]
pub struct Problem {
    pub graph: Graph,
    pub pairs: Pairs,
}

/// The nodes of two lists of terms, and the greatest node of the class of each.
#[derive(Drop)]
pub struct Solved {
    pub graph: Graph,
    pub roots: Nodes,
}

fn pose(
    alloc: Global,
    left: &[Term],
    right: &[Term],
    up: u32,
    vars: u32,
) -> Result<Problem, AllocError>
    requires as_many { length left.now ≡ length right.now }
    requires left { greatest (map bound_of left.now) ≤ vars }
    requires right { greatest (map bound_of (map (raised up) right.now)) ≤ vars }
    ensures { IfOk result (IsProblem vars left.now (map (raised up) right.now)) }
{
    let mut graph = variables(alloc, vars)?;
    let lefts = add_all(alloc, left, 0, &mut graph)?;
    let rights = add_all(alloc, right, up, &mut graph)?;
    let mut pairs = Pairs::new(alloc);
    push_pairs(&mut pairs, lefts.as_slice(), rights.as_slice())?;
    Ok(Problem { graph, pairs })
}

/// The classes that make two lists of terms equal, the second with its variables moved up, or `None` where there
/// is no unifier.
pub fn solve_classes(
    alloc: Global,
    left: &[Term],
    right: &[Term],
    up: u32,
    vars: u32,
) -> Result<Option<Solved>, AllocError>
    requires as_many { length left.now ≡ length right.now }
    requires left { greatest (map bound_of left.now) ≤ vars }
    requires right { greatest (map bound_of (map (raised up) right.now)) ≤ vars }
    ensures { IfOk result (λ o. MatchOption o (HaveNoUnifier left.now (map (raised up) right.now)) (IsSolved vars left.now (map (raised up) right.now))) }
{
    let Problem { graph, pairs } = pose(alloc, left, right, up, vars)?;
    let count = vars as usize;
    let Some(parents) = merge(alloc, &graph, count, pairs)? else {
        return Ok(None);
    };
    let roots = rooted(parents);
    let Some(_) = ranked(alloc, &graph, count, roots.as_slice())? else {
        return Ok(None);
    };
    Ok(Some(Solved { graph, roots }))
}
