//! A peer, and its calls.
#![tactic(auto)]

ghost use Rattle.std.specs.Prelude.{◌≡◌, ◌<◌, ◌^◌, [], false, true, length, None, IfOk, OnErr, OnOk, option_map};
ghost use Rattle.std.specs.List.{AllByRecursion as Each};
ghost use Rattle.std.specs.Option.{option_copied};
ghost use Rattle.cd_acts.specs.View.{local_of};
ghost use Rattle.cd_ledger.specs.Records.{look};
ghost use Rattle.cd_machine.specs.Rules.{IsFit, clauses_of};
ghost use Rattle.cd_peer.specs.Peers.{IsFallen, ReceivesTo, StartsAs, TurnsTo};
ghost use Rattle.cd_peer.specs.Plain.{plain};
ghost use Rattle.cd_peer.specs.Readiness.{ready_of};
ghost use Rattle.cd_peer.specs.Whole.{IsWhole};

use crate::readiness::{Ready, ready_of};
use crate::receiving::receive;
use crate::starting::start;
use crate::turning::turn;
use cd_acts::State;
use cd_ledger::{Events, Known, Knowns, Letter, Letters, Limits, Record, Status, Verdict};
use cd_list::Equals;
use cd_names::{Name, Policy};
use cd_read::Problem;
use std::alloc::{AllocError, Global};
use std::marker::Model;
use std::mem;

/// What a turn did.
#[derive(Clone, Copy)]
pub enum Turned {
    /// It made one event.
    Did,
    /// Nothing was to be done, and nothing changed.
    Idle,
}

/// One of the peers of a run: its state, the problem, and the letters that nobody has taken yet. It orders terms by the
/// plain order.
///
/// After want of memory in [`Peer::turn`] or [`Peer::receive`] a peer has fallen: its journal and its letters are as before
/// the call, it has no verdict, and it makes no event any more.
#[derive(Drop)]
pub struct Peer<'p> {
    alloc: Global,
    problem: &'p Problem,
    state: State,
    outgoing: Letters,
    fallen: bool,
}

impl<'p> Model for Peer<'p> {
    ghost use Rattle.std.specs.Prelude.{◌≡◌, false};
    ghost use Rattle.cd_peer.specs.Peers.{PeerView};

    ghost Value = { PeerView };

    ghost use Rattle.std.specs.Coded.{codes};
    ghost use Rattle.cd_ledger.specs.contracts.letters.Letter as letter_row;
    ghost use Rattle.cd_ledger.specs.contracts.local.Local as local_row;
    ghost use Rattle.cd_read.specs.contracts.problem.Problem as problem_row;

    ghost coded = { Prim.hlevel (codes, letter_row.the_row.coded, local_row.the_row.coded, problem_row.the_row.coded) };

    ghost use Rattle.cd_acts.specs.View.{local_of};
    ghost use Rattle.cd_peer.specs.Plain.{plain};
    ghost use Rattle.cd_peer.specs.Whole.{IsWhole};

    ghost view = { λ it. record { problem = it.problem.now; local = local_of it.state; outgoing = it.outgoing; fallen = it.fallen } };

    ghost invariant = { λ it. it.fallen ≡ false → IsWhole plain it.problem.now it.state };
}

/// The first entry with a name.
fn entry_named(known: &Knowns, n: Name) -> Option<&Known>
    ensures { option_copied result ≡ look known.now n }
{
    known.as_slice().iter().find(|e| e.entry.name.equals(&n))
}

/// What becomes of a peer after want of memory.
fn fall(state: &mut State, fallen: &mut bool)
    ensures state { state.new ≡ record state.old { verdict = None } }
    ensures fallen { fallen.new ≡ true }
{
    state.verdict = None;
    *fallen = true;
}

impl<'p> Peer<'p> {
    /// Peer `me` of `peers`, with its share of the inputs pending, which may do so many rewritings and tasks together. The
    /// error is want of memory.
    pub fn start(
        alloc: Global,
        problem: &'p Problem,
        me: u16,
        peers: u16,
        policy: Policy,
        limits: Limits,
    ) -> Result<Peer<'p>, AllocError>
        requires some { me < peers }
        requires few { length problem.now.inputs < 2 ^ 32 }
        requires fit { Each (IsFit problem.now) (clauses_of problem.now) }
        ensures { IfOk result (StartsAs problem.now me peers policy limits) }
    {
        cd_premises::premises_meet();
        cd_alone::starts_go();
        let state = start(alloc, problem, me, peers, policy, limits)?;
        Ok(Peer {
            alloc,
            problem,
            state,
            outgoing: Letters::new(alloc),
            fallen: false,
        })
    }

    /// Makes the first event by the rules, where the peer isn't idle. After want of memory the peer has fallen.
    pub fn turn(&mut self) -> Result<Turned, AllocError>
        requires standing { self.old.fallen ≡ false }
        requires running { self.old.local.verdict ≡ None }
        ensures ok { IfOk result (TurnsTo self.old self.new) }
        ensures err { OnErr result (IsFallen self.old self.new) }
    {
        match turn(
            self.alloc,
            &mut self.state,
            self.problem,
            &mut self.outgoing,
        ) {
            Ok(true) => Ok(Turned::Did),
            Ok(false) => Ok(Turned::Idle),
            Err(error) => {
                fall(&mut self.state, &mut self.fallen);
                Err(error)
            }
        }
    }

    /// Receives a letter that is addressed to this peer, whoever sent it and whatever it says. After want of memory the
    /// peer has fallen.
    pub fn receive(&mut self, letter: Letter) -> Result<(), AllocError>
        requires standing { self.old.fallen ≡ false }
        requires running { self.old.local.verdict ≡ None }
        requires mine { letter.to ≡ self.old.local.me }
        ensures ok { OnOk result (ReceivesTo self.old self.new letter) }
        ensures err { OnErr result (IsFallen self.old self.new) }
    {
        cd_premises::premises_meet();
        cd_alone::events_keep_going();
        match receive(self.alloc, &mut self.state, letter) {
            Ok(()) => Ok(()),
            Err(error) => {
                fall(&mut self.state, &mut self.fallen);
                Err(error)
            }
        }
    }

    /// The letters since the last taking, in order; none are left. No memory is taken.
    pub fn take_outgoing(&mut self) -> Letters
        ensures letters { result ≡ self.old.outgoing }
        ensures rest { self.new ≡ record self.old { outgoing = [] } }
    {
        mem::replace(&mut self.outgoing, Letters::new(self.alloc))
    }

    /// The peer's number.
    pub fn me(&self) -> u16
        ensures { result ≡ self.now.local.me }
    {
        self.state.me
    }

    /// The known names with their statuses, in the order in which they became known.
    pub fn entries(&self) -> &Knowns
        ensures { result.now ≡ self.now.local.known }
    {
        &self.state.known
    }

    /// How the peer ended, where it has.
    pub fn verdict(&self) -> Option<Verdict>
        ensures { result ≡ self.now.local.verdict }
    {
        self.state.verdict
    }

    /// Whether the peer has fallen.
    pub fn fallen(&self) -> bool
        ensures { result ≡ self.now.fallen }
    {
        self.fallen
    }

    /// The peer's events, in order.
    pub fn journal(&self) -> &Events
        ensures { result.now ≡ self.now.local.journal }
    {
        &self.state.journal
    }

    /// What the peer knows under a name: by its number, or one by one where the peer has fallen. No memory is taken.
    fn look(&self, n: Name) -> Option<&Known>
        ensures { option_copied result ≡ look self.now.local.known n }
    {
        cd_infer::laws::usable();
        if self.fallen {
            return entry_named(&self.state.known, n);
        }
        self.state.look(n)
    }

    /// The record under a name, `None` exactly where the name is unknown here. No memory is taken.
    pub fn known(&self, n: Name) -> Option<&Record>
        ensures { option_copied result ≡ option_map (λ e. e.entry) (look self.now.local.known n) }
    {
        match self.look(n) {
            None => None,
            Some(e) => Some(&e.entry),
        }
    }

    /// The status of a name, `None` exactly where the name is unknown here. No memory is taken.
    pub fn status(&self, n: Name) -> Option<&Status>
        ensures { option_copied result ≡ option_map (λ e. e.status) (look self.now.local.known n) }
    {
        match self.look(n) {
            None => None,
            Some(e) => Some(&e.status),
        }
    }

    /// What the next turn would do. No memory is taken.
    pub fn ready(&self) -> Ready
        requires { self.now.fallen ≡ false }
        ensures { result ≡ ready_of self.now.local }
    {
        ready_of(&self.state)
    }

    /// The whole state.
    pub fn state(&self) -> &State
        ensures local { local_of result.now ≡ self.now.local }
        ensures whole { self.now.fallen ≡ false → IsWhole plain self.now.problem result.now }
    {
        &self.state
    }

    /// The same, where the peer is no longer needed.
    pub fn into_state(self) -> State
        ensures local { local_of result ≡ self.entry.local }
        ensures whole { self.entry.fallen ≡ false → IsWhole plain self.entry.problem result }
    {
        let Peer {
            alloc: _,
            problem: _,
            state,
            outgoing: _,
            fallen: _,
        } = self;
        state
    }
}

fn moves<T: Send>(_value: &T) {}

// Peers may move between threads.
fn cross<'p>(peer: &Peer<'p>) {
    moves(peer);
}
