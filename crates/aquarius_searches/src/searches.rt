//! What searches settle, and where they end at their limit of units.
use cd_acts::State;
use cd_ledger::{Act, Event, Limits, Outcome, Settled, Verdict};
use cd_list::{Sequence, Text};
use cd_names::Policy;
use cd_outside::Shelf;
use cd_premises::formed_inputs_fit;
use cd_read::read_problem;
use cd_search::search;
use std::alloc::{AllocError, Global};

fn shelf_of(alloc: Global, file: &str) -> Result<Shelf, AllocError> {
    let mut files = Sequence::new(alloc);
    files.push((
        Text::of(alloc, "t.p")?,
        Sequence::from_slice(alloc, file.as_bytes())?,
    ))?;
    Ok(Shelf::new(alloc, files, Sequence::new(alloc)))
}

/// The state at the end of a search on a file, `None` where the file isn't read.
fn searched(alloc: Global, file: &str, steps: u64) -> Result<Option<State>, AllocError> {
    let mut library = shelf_of(alloc, file)?;
    let path = Text::of(alloc, "t.p")?;
    formed_inputs_fit();
    let Ok(problem) = read_problem(alloc, &mut library, &path) else {
        return Ok(None);
    };
    let peer = search(alloc, &problem, Policy::Round, Limits { steps })?;
    Ok(Some(peer.into_state()))
}

fn is_trivial(entry: &Settled) -> bool {
    match entry.outcome {
        Outcome::Trivial => true,
        _ => false,
    }
}

/// Whether one entry is settled, as a tautology.
fn settles_a_tautology(state: &State) -> bool {
    match state.settled.as_slice() {
        [entry] => is_trivial(entry),
        _ => false,
    }
}

#[test]
fn the_outcome_of_a_tautology_is_trivial(rt: HostRuntime) -> Result<(), AllocError> {
    match searched(rt.alloc(), "cnf(a,axiom,p | ~p).\n", 50_000)? {
        Some(state) => assert!(rt; settles_a_tautology(&state)),
        None => assert!(rt; false),
    }
    Ok(())
}

const GROUP: &str = "cnf(left_identity,axiom,( f(e,X) = X )).
cnf(right_identity,axiom,( f(X,e) = X )).
cnf(square,axiom,( f(X,X) = e )).
cnf(assoc,axiom,( f(f(X,Y),Z) = f(X,f(Y,Z)) )).
cnf(goal,negated_conjecture,( f(a,b) != f(b,a) )).
";

fn is_keep(event: &Event) -> bool {
    match event.act {
        Act::Keep { place: _ } => true,
        _ => false,
    }
}

fn is_work(event: &Event) -> bool {
    match event.act {
        Act::Work { task: _ } => true,
        _ => false,
    }
}

fn is_spent(event: &Event) -> bool {
    match event.act {
        Act::End {
            verdict: Verdict::Spent,
        } => true,
        _ => false,
    }
}

/// Whether the journal has five inputs kept, a task, and the end.
fn ends_at_one_unit(state: &State) -> bool {
    match state.journal.as_slice() {
        [a, b, c, d, e, work, end] => {
            is_keep(a)
                && is_keep(b)
                && is_keep(c)
                && is_keep(d)
                && is_keep(e)
                && is_work(work)
                && is_spent(end)
        }
        _ => false,
    }
}

#[test]
fn a_search_ends_where_its_units_are_used(rt: HostRuntime) -> Result<(), AllocError> {
    match searched(rt.alloc(), GROUP, 1)? {
        Some(state) => assert!(rt; ends_at_one_unit(&state)),
        None => assert!(rt; false),
    }
    Ok(())
}
