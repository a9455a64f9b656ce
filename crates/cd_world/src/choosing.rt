//! The generator, and the choice that it draws. A draw takes no memory: it counts the choices, and goes to the one it names.
ghost use Rattle.std.specs.Prelude.{◌≡◌, ◌<◌, ◌≤◌, ◌^◌, ◌%◌, ◌+◌, cond, false, length, slice_get, true, Some};
ghost use Rattle.cd_peer.specs.Readiness.{ready_of};
ghost use Rattle.cd_world.specs.Worlds.{AreStanding, locals_of};
ghost use Rattle.cd_world.specs.Schedule.{InRange, IsDrawnFrom, IsOffer, VerdictTest, busy_by, deliveries_from, drawn, is_only, is_token_choice, next_state, offered, turns_from};

use crate::moving::Choice;
use cd_ledger::Letter;
use cd_peer::turning::is_token;
use cd_peer::{Peer, Ready};

/// The generator of the stated schedule (a linear congruential one; Knuth, The Art of Computer Programming, volume 2).
#[derive(Clone, Copy)]
pub struct Generator {
    pub state: u64,
}

impl Generator {
    /// Goes to the next state, and gives its upper bits.
    pub fn draw(&mut self) -> u64
        ensures next { self.new.state ≡ next_state self.old.state }
        ensures value { result ≡ drawn self.new.state }
    {
        self.state = self
            .state
            .wrapping_mul(6364136223846793005)
            .wrapping_add(1442695040888963407);
        self.state / 0x2_0000_0000
    }
}

/// Whether a peer's turn is a choice, with those of the token or without them.
fn is_busy(peer: &Peer, tokens: bool) -> bool
    requires { peer.now.fallen ≡ false }
    ensures { result ≡ busy_by tokens (ready_of peer.now.local) }
{
    match peer.ready() {
        Ready::Nothing => false,
        Ready::TokenOnly => tokens,
        Ready::More => true,
    }
}

/// How many turns are choices.
fn count_turns(peers: &[Peer], tokens: bool) -> usize
    requires { AreStanding peers.now }
    ensures value { result ≡ length (turns_from tokens 0 (locals_of peers.now)) }
    ensures few { result ≤ length peers.now }
{
    let mut count = 0usize;
    for peer in peers {
        if is_busy(peer, tokens) {
            count += 1;
        }
    }
    count
}

/// The peer of the turn at place k among those that are choices.
fn turn_at(peers: &[Peer], tokens: bool, k: usize) -> u16
    requires standing { AreStanding peers.now }
    requires few { length peers.now < 2 ^ 16 }
    requires within { k < length (turns_from tokens 0 (locals_of peers.now)) }
    ensures { slice_get (turns_from tokens 0 (locals_of peers.now)) k ≡ Some (Choice.Turn result) }
{
    let mut left = k;
    let mut q = 0u16;
    for peer in peers {
        if is_busy(peer, tokens) {
            if left == 0 {
                return q;
            }
            left -= 1;
        }
        q += 1;
    }
    unreachable!()
}

/// How many deliveries of letters but the token there are.
fn count_others(letters: &[Letter]) -> usize
    ensures value { result ≡ length (deliveries_from false 0 letters.now) }
    ensures few { result ≤ length letters.now }
{
    let mut count = 0usize;
    for letter in letters {
        if !is_token(letter) {
            count += 1;
        }
    }
    count
}

/// The place of the delivery at place k among those of letters but the token.
fn other_at(letters: &[Letter], k: usize) -> u64
    requires { k < length (deliveries_from false 0 letters.now) }
    ensures { slice_get (deliveries_from false 0 letters.now) k ≡ Some (Choice.Deliver result) }
{
    let mut left = k;
    let mut place = 0u64;
    for letter in letters {
        if !is_token(letter) {
            if left == 0 {
                return place;
            }
            left -= 1;
        }
        place += 1;
    }
    unreachable!()
}

/// The place of the delivery at place k among those that are choices. With those of the token all letters are.
fn delivery_at(letters: &[Letter], tokens: bool, k: usize) -> u64
    requires { k < length (deliveries_from tokens 0 letters.now) }
    ensures { slice_get (deliveries_from tokens 0 letters.now) k ≡ Some (Choice.Deliver result) }
{
    if tokens {
        return k as u64;
    }
    other_at(letters, k)
}

/// The choices at a moment: whether those of the token are among them, how many are turns, and how many deliveries.
#[derive(Clone, Copy)]
struct Offer {
    tokens: bool,
    turns: usize,
    deliveries: usize,
}

/// The choices without those of the token.
fn offer_others(peers: &[Peer], letters: &[Letter]) -> Offer
    requires { AreStanding peers.now }
    ensures tokens { result.tokens ≡ false }
    ensures turns { result.turns ≡ length (turns_from false 0 (locals_of peers.now)) }
    ensures deliveries { result.deliveries ≡ length (deliveries_from false 0 letters.now) }
    ensures few_turns { result.turns ≤ length peers.now }
    ensures few_deliveries { result.deliveries ≤ length letters.now }
{
    Offer {
        tokens: false,
        turns: count_turns(peers, false),
        deliveries: count_others(letters),
    }
}

/// All choices.
fn offer_all(peers: &[Peer], letters: &[Letter]) -> Offer
    requires { AreStanding peers.now }
    ensures tokens { result.tokens ≡ true }
    ensures turns { result.turns ≡ length (turns_from true 0 (locals_of peers.now)) }
    ensures deliveries { result.deliveries ≡ length (deliveries_from true 0 letters.now) }
    ensures few_turns { result.turns ≤ length peers.now }
    ensures few_deliveries { result.deliveries ≤ length letters.now }
{
    Offer {
        tokens: true,
        turns: count_turns(peers, true),
        deliveries: letters.len(),
    }
}

/// The choices that are offered, where so many token choices were taken in a row.
fn make_offer(peers: &[Peer], letters: &[Letter], counter: u64) -> Offer
    requires standing { AreStanding peers.now }
    requires few { length peers.now < 2 ^ 16 }
    ensures { IsOffer counter peers.now letters.now result }
{
    if counter >= 4 * peers.len() as u64 {
        let others = offer_others(peers, letters);
        if others.turns > 0 || others.deliveries > 0 {
            return others;
        }
    }
    offer_all(peers, letters)
}

/// The choice that the generator's next number names.
pub fn draw_choice(
    generator: &mut Generator,
    peers: &[Peer],
    letters: &[Letter],
    counter: u64,
) -> Choice
    requires standing { AreStanding peers.now }
    requires few { length peers.now < 2 ^ 16 }
    requires some { 0 < length (offered counter (record { locals = locals_of peers.now; travelling = letters.now })) }
    ensures next { generator.new.state ≡ next_state generator.old.state }
    ensures choice { IsDrawnFrom counter (record { locals = locals_of peers.now; travelling = letters.now }) generator.new.state result }
{
    let offer = make_offer(peers, letters, counter);
    let number = generator.draw();
    let k = (number % (offer.turns + offer.deliveries) as u64) as usize;
    if k < offer.turns {
        Choice::Turn(turn_at(peers, offer.tokens, k))
    } else {
        Choice::Deliver(delivery_at(letters, offer.tokens, k - offer.turns))
    }
}

/// Whether a peer's turn is a choice of the token.
fn is_only(peer: &Peer) -> bool
    requires { peer.now.fallen ≡ false }
    ensures { result ≡ is_only (ready_of peer.now.local) }
{
    match peer.ready() {
        Ready::Nothing => false,
        Ready::TokenOnly => true,
        Ready::More => false,
    }
}

/// Whether a choice is of the token.
pub fn is_token_choice(peers: &[Peer], letters: &[Letter], choice: Choice) -> bool
    requires standing { AreStanding peers.now }
    requires within { InRange peers.now letters.now choice }
    ensures { result ≡ is_token_choice (record { locals = locals_of peers.now; travelling = letters.now }) choice }
{
    match choice {
        Choice::Turn(q) => is_only(&peers[q as usize]),
        Choice::Deliver(place) => is_token(&letters[place as usize]),
    }
}

/// Whether some peer has a verdict.
pub fn has_verdict(peers: &[Peer]) -> bool
    ensures { VerdictTest result peers.now }
{
    for q in 0..peers.len() {
        match peers[q].verdict() {
            Some(_) => return true,
            None => {}
        }
    }
    false
}

/// The counter after a choice.
pub fn counted(token: bool, counter: u64) -> u64
    requires { counter < 2 ^ 63 }
    ensures { result ≡ cond token (counter + 1) 0 }
{
    if token { counter + 1 } else { 0 }
}
