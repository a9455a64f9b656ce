//! Letters as a peer might forge them.
use cd_clause::{Clause, Literals};
use cd_ledger::{Body, Letter, Record};
use cd_list::{Copied, Sequence};
use cd_names::Name;
use cd_read::Problem;
use cd_steps::Step;
use std::alloc::{AllocError, Global};

/// A letter to peer 0 that tells of a record with one step.
#[derive(Clone, Copy)]
pub struct Told {
    /// What it shows.
    pub shows: &'static str,
    pub sender: u16,
    pub time: u64,
    /// The peer whose name number 0 the record has.
    pub issuer: u16,
    pub owner: u16,
    /// The input that the step names.
    pub input: u32,
    /// The input whose clause the record has, or none: the empty clause.
    pub clause: usize,
    /// Whether the record cites the first peer's first name, which no step of it mentions.
    pub is_citing: bool,
}

fn clause_of(alloc: Global, problem: &Problem, place: usize) -> Result<Clause, AllocError> {
    match problem.inputs.as_slice().get(place) {
        Some(input) => input.clause.copy(alloc),
        None => Ok(Clause {
            literals: Literals::new(alloc),
        }),
    }
}

fn record_of(alloc: Global, problem: &Problem, told: &Told) -> Result<Record, AllocError> {
    let mut steps = Sequence::new(alloc);
    steps.push(Step::Input { index: told.input })?;
    let mut cites = Sequence::new(alloc);
    if told.is_citing {
        cites.push(Name { peer: 0, seq: 0 })?;
    }
    Ok(Record {
        name: Name {
            peer: told.issuer,
            seq: 0,
        },
        owner: told.owner,
        clause: clause_of(alloc, problem, told.clause)?,
        steps,
        cites,
    })
}

/// The letter.
pub fn letter_of(alloc: Global, problem: &Problem, told: &Told) -> Result<Letter, AllocError> {
    let record_ = record_of(alloc, problem, told)?;
    Ok(Letter {
        sender: told.sender,
        to: 0,
        time: told.time,
        body: Body::Kept(record_),
    })
}
