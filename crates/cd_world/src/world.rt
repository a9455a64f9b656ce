//! All peers of a run and the letters that travel, as one value.
ghost use Rattle.std.specs.List.{AllByRecursion as Each};
ghost use Rattle.std.specs.Prelude.{◌≡◌, ◌<◌, ◌^◌, ◌≤◌, false, length, IfOk, OnErr, OnOk};
ghost use Rattle.cd_machine.specs.Rules.{IsFit, clauses_of};
ghost use Rattle.cd_machine.specs.Schedule.{IsRunning};
ghost use Rattle.cd_world.specs.Schedule.{Picks, RunsScheduled, VerdictTest};
ghost use Rattle.cd_world.specs.Worlds.{ArePeers, Broke, HasFallen, IsWorld, MayStep, Stands, StartsWorld, Steps, peer_at, world_of};

use crate::choosing::{Generator, counted, draw_choice, has_verdict, is_token_choice};
use crate::moving::{Choice, do_choice};
use cd_ledger::{Letter, Letters, Limits};
use cd_list::Sequence;
use cd_names::Policy;
use cd_peer::{Peer, Turned};
use cd_read::Problem;
use std::alloc::{AllocError, Global};
use std::marker::Model;

/// The peers of events, in the order of the events.
pub type Turns = Sequence<u16>;

/// All peers of a run, the letters that travel, and the peer of each event so far.
///
/// After want of memory a world has fallen: only its peers and its order may be asked for. Each event that stands in the
/// journals is in the order, and no other.
#[derive(Drop)]
pub struct World<'p> {
    problem: &'p Problem,
    policy: Policy,
    limits: Limits,
    peers: Vec<Peer<'p>>,
    travelling: Letters,
    order: Turns,
    fallen: bool,
}

impl<'p> Model for World<'p> {
    ghost use Rattle.cd_world.specs.Worlds.{IsWorld, WorldView};

    ghost Value = { WorldView };

    ghost use Rattle.std.specs.Coded.{codes};
    ghost use Rattle.cd_ledger.specs.contracts.letters.Letter as letter_row;
    ghost use Rattle.cd_ledger.specs.contracts.local.Local as local_row;
    ghost use Rattle.cd_read.specs.contracts.problem.Problem as problem_row;

    ghost coded = { Prim.hlevel (codes, letter_row.the_row.coded, local_row.the_row.coded, problem_row.the_row.coded) };

    ghost view = { λ w. record { problem = w.problem.now; policy = w.policy; limits = w.limits; parts = record { peers = w.peers.items; travelling = w.travelling; order = w.order }; fallen = w.fallen } };

    ghost invariant = { λ w. IsWorld (record { problem = w.problem.now; policy = w.policy; limits = w.limits; parts = record { peers = w.peers.items; travelling = w.travelling; order = w.order }; fallen = w.fallen }) };
}

/// The peers, each with its share of the inputs.
fn start_peers<'p>(
    alloc: Global,
    problem: &'p Problem,
    peers: u16,
    policy: Policy,
    limits: Limits,
) -> Result<Vec<Peer<'p>>, AllocError>
    requires few { length problem.now.inputs < 2 ^ 32 }
    requires fit { Each (IsFit problem.now) (clauses_of problem.now) }
    ensures many { IfOk result (λ all. length all.items ≡ peers) }
    ensures each { IfOk result (λ all. ArePeers problem.now peers policy limits all.items) }
{
    let mut all = Vec::new(alloc);
    for me in 0..peers {
        let peer = Peer::start(alloc, problem, me, peers, policy, limits)?;
        all.push(peer)?;
    }
    Ok(all)
}

impl<'p> World<'p> {
    /// The start of so many peers: each with its share of the inputs, and nothing that travels. The error is want of memory.
    pub fn start(
        alloc: Global,
        problem: &'p Problem,
        peers: u16,
        policy: Policy,
        limits: Limits,
    ) -> Result<World<'p>, AllocError>
        requires some { 0 < peers }
        requires few { length problem.now.inputs < 2 ^ 32 }
        requires fit { Each (IsFit problem.now) (clauses_of problem.now) }
        ensures { IfOk result (StartsWorld problem.now peers policy limits) }
    {
        let all = start_peers(alloc, problem, peers, policy, limits)?;
        Ok(World {
            problem,
            policy,
            limits,
            peers: all,
            travelling: Letters::new(alloc),
            order: Turns::new(alloc),
            fallen: false,
        })
    }

    /// Does what was chosen: a turn of a peer, or the delivery of a letter. It is `Idle` exactly where that turn is idle. The
    /// letters of an event go behind those that travel. After want of memory the world has fallen: that came before the
    /// event, in it, or after it.
    pub fn step(&mut self, choice: Choice) -> Result<Turned, AllocError>
        requires standing { self.old.fallen ≡ false }
        requires may { MayStep self.old.parts choice }
        ensures ok { IfOk result (Steps self.old self.new choice) }
        ensures err { OnErr result (Broke self.old self.new choice) }
    {
        match do_choice(
            &mut self.peers,
            &mut self.travelling,
            &mut self.order,
            choice,
        ) {
            Ok(turned) => Ok(turned),
            Err(error) => {
                self.fallen = true;
                Err(error)
            }
        }
    }

    /// One draw of the stated schedule; the new counter of token choices in a row.
    fn pick(&mut self, generator: &mut Generator, counter: u64) -> Result<u64, AllocError>
        requires standing { self.old.fallen ≡ false }
        requires running { IsRunning (world_of self.old.parts) }
        requires few { counter ≤ length self.old.parts.order }
        ensures ok { IfOk result (Picks self.old self.new generator.old.state generator.new.state counter) }
        ensures err { OnErr result (HasFallen self.old self.new) }
    {
        let _short = self.order.len();
        let choice = draw_choice(generator, &self.peers, self.travelling.as_slice(), counter);
        let token = is_token_choice(&self.peers, self.travelling.as_slice(), choice);
        let next = counted(token, counter);
        self.step(choice)?;
        Ok(next)
    }

    /// Whether some peer has a verdict.
    fn has_verdict(&self) -> bool
        ensures { VerdictTest result self.now.parts.peers }
    {
        has_verdict(&self.peers)
    }

    /// Runs the stated schedule until some peer has a verdict. Draws take no memory and are linear in the number of peers;
    /// only where the token choices are left out does a draw look at the letters that travel. After want of memory the world
    /// has fallen.
    pub fn scheduled(&mut self, seed: u64) -> Result<(), AllocError>
        requires standing { self.old.fallen ≡ false }
        requires running { IsRunning (world_of self.old.parts) }
        ensures ok { OnOk result (RunsScheduled self.old self.new seed) }
        ensures err { OnErr result (HasFallen self.old self.new) }
    {
        let mut generator = Generator { state: seed };
        let mut counter = 0u64;
        while !self.has_verdict() {
            counter = self.pick(&mut generator, counter)?;
        }
        Ok(())
    }

    /// How many peers there are.
    pub fn len(&self) -> usize
        ensures { result ≡ length self.now.parts.peers }
    {
        self.peers.len()
    }

    /// A peer.
    pub fn peer(&self, p: u16) -> &Peer<'p>
        requires { p < length self.now.parts.peers }
        ensures value { result.now ≡ peer_at self.now.parts.peers p }
        ensures stands { self.now.fallen ≡ false → Stands self.now.problem result.now }
    {
        &self.peers[p as usize]
    }

    /// The letters that travel, in the order in which they were sent.
    pub fn travelling(&self) -> &[Letter]
        ensures { result.now ≡ self.now.parts.travelling }
    {
        self.travelling.as_slice()
    }

    /// The peer of each event so far; and what these events are.
    pub fn order(&self) -> &Turns
        ensures order { result.now ≡ self.now.parts.order }
        ensures run { IsWorld self.now }
    {
        &self.order
    }

    /// The peers and the order, where the world is no longer needed.
    pub fn into_parts(self) -> (Vec<Peer<'p>>, Turns)
        ensures peers { result.0.items ≡ self.entry.parts.peers }
        ensures order { result.1 ≡ self.entry.parts.order }
        ensures run { IsWorld self.entry }
        ensures stands { self.entry.fallen ≡ false → Each (Stands self.entry.problem) result.0.items }
    {
        let World {
            problem: _,
            policy: _,
            limits: _,
            peers,
            travelling: _,
            order,
            fallen: _,
        } = self;
        (peers, order)
    }
}
