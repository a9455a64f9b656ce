//! The token: it is passed on with this peer's counts, or it closes both waves.
#![tactic(auto)]

ghost use Rattle.std.specs.Prelude.{◌≡◌, ◌↔◌, IsTrue, Option, Some, None, IfOk, OnOk, ℕ, ◌+◌, ◌<◌, ◌==◌, [], if◌then◌else◌};
ghost use Rattle.cd_ledger.specs.declared.events.Act.TheVariants.{Pass};
ghost use Rattle.cd_machine.specs.Fits.{MayDeclare};
ghost use Rattle.cd_machine.specs.Tokens.{counted, is_full, passed, turned};
ghost use Rattle.cd_read.specs.declared.problem.Problem.{Problem};
ghost use Rattle.cd_kbo.specs.declared.order.Order.{Order};
ghost use Rattle.cd_acts.specs.Acts.{Does, MayPass};
ghost use Rattle.cd_acts.specs.Indexed.{IsIndexed};
ghost use Rattle.cd_acts.specs.View.{local_of};

use crate::state::State;
use cd_ledger::{Body, Letter, Letters};
use cd_names::{Count, Counts, Token, wave_closed};
use std::alloc::{AllocError, Global};

fn is_full(token: &Token, peers: u16) -> bool
    ensures { result ≡ is_full peers token.now }
{
    token.one.len() == usize::from(peers) && token.two.len() == usize::from(peers)
}

/// Where both waves are full, the second becomes the first.
fn turned(alloc: Global, token: Token, peers: u16) -> Token
    ensures { result ≡ turned peers token }
{
    if is_full(&token, peers) {
        let Token { one: _, two } = token;
        Token {
            one: two,
            two: Counts::new(alloc),
        }
    } else {
        token
    }
}

/// The count joins the first wave that isn't full.
fn counted(token: Token, count: Count, peers: u16) -> Result<Token, AllocError>
    ensures { IfOk result (λ t. t ≡ counted peers count token) }
{
    let Token { mut one, mut two } = token;
    if one.len() < usize::from(peers) {
        one.push(count)?;
        return Ok(Token { one, two });
    }
    two.push(count)?;
    Ok(Token { one, two })
}

fn next_peer(me: u16, peers: u16) -> u16
    requires { me < peers }
    ensures { result ≡ (if me + 1 == peers then 0 else me + 1) }
{
    if me + 1 == peers { 0 } else { me + 1 }
}

impl State {
    /// Whether this peer may declare, given the token that it holds.
    pub fn may_declare(&self, token: &Token) -> bool
        ensures { IsTrue result ↔ MayDeclare (local_of self.now) token.now }
    {
        self.me == 0 && wave_closed(token, self.peers)
    }

    /// Passes the token on; with one peer it stays here.
    pub fn pass(&mut self, alloc: Global, time: u64) -> Result<Letters, AllocError>
        requires indexed { IsIndexed self.old }
        requires places { self.old.me < self.old.peers }
        requires may { MayPass (local_of self.old) }
        ensures does { IfOk result (λ letters. (order : Order) (p : Problem) → Does order p (local_of self.old) time Pass (local_of self.new) letters) }
        ensures indexed { OnOk result (IsIndexed self.new) }
        ensures journal { self.new.journal ≡ self.old.journal }
    {
        let Some(token) = self.token.take() else {
            unreachable!();
        };
        let token = turned(alloc, token, self.peers);
        let token = counted(token, self.count, self.peers)?;
        let mut letters = Letters::new(alloc);
        if self.peers == 1 {
            self.token = Some(token);
            return Ok(letters);
        }
        letters.push(Letter {
            sender: self.me,
            to: next_peer(self.me, self.peers),
            time,
            body: Body::Token(token),
        })?;
        Ok(letters)
    }
}
