//! The calls of one mailbox.
ghost use Rattle.std.specs.Prelude.{◌≡◌, true, [], IfOk, MatchOption, MatchResult};
ghost use Rattle.crossbeam_queue.specs.SegTies.{IsSegPassOf};
ghost use Rattle.cd_mailbox.specs.Views.{has_in, newest, dealt, named, grown, sealed, others, first_alone, joined, after_post, after_take, view, parts_from};
ghost use Rattle.cd_mailbox.specs.Rule.{IsFor, Stood};
ghost use Rattle.cd_mailbox.specs.Known.{seen, IsSingle};
ghost use Rattle.cd_mailbox.specs.Life.{IsDealt, AreJoinable, Drains};

use crate::rule::{Gives, Grows, Joins, Mailbox, MailboxPass, Names, Posts, Seals, Takes};
use cd_letter::Addressed;
use cd_list::Sequence;
use std::alloc::{AllocError, Global};
use std::sync::Wait;

/// One push.
pub fn post_at<R: Wait, L: Addressed>(
    rt: &R,
    queue: &Mailbox<L>,
    pass: &mut MailboxPass<L>,
    letter: L,
) -> Result<(), L>
    requires queue { IsSegPassOf queue.now pass.old }
    requires sender { has_in (L.sender letter) (seen pass.old).parts ≡ true }
    requires receiver { L.receiver letter ≡ (seen pass.old).owner }
    ensures queue { IsSegPassOf queue.now pass.new }
    ensures posted { MatchResult result (λ _. seen pass.new ≡ after_post L.sender (seen pass.old) letter) (λ back. (back ≡ letter) × (seen pass.new ≡ seen pass.old)) }
{
    queue.push_as::<Posts, R>(rt, pass, letter)
}

/// One pop.
pub fn take_at<R: Wait, L: Addressed>(
    rt: &R,
    queue: &Mailbox<L>,
    pass: &mut MailboxPass<L>,
) -> Option<L>
    requires queue { IsSegPassOf queue.now pass.old }
    requires owner { has_in (seen pass.old).owner (seen pass.old).parts ≡ true }
    ensures queue { IsSegPassOf queue.now pass.new }
    ensures taken { MatchOption result ((seen pass.new ≡ seen pass.old) × Stood L.sender L.receiver (seen pass.old) []) (λ letter. (seen pass.new ≡ after_take (seen pass.old) letter) × IsFor L.sender L.receiver (seen pass.old).peers (seen pass.old).owner letter) }
{
    queue.pop_as::<Takes, R>(rt, pass)
}

/// A mailbox, and a pass with the numbers of all peers.
pub fn open_at<L: Addressed>(
    alloc: Global,
    owner: u16,
    peers: u16,
) -> Result<(Mailbox<L>, MailboxPass<L>), AllocError>
    ensures { IfOk result (λ it. IsSegPassOf it.0 it.1 × (seen it.1 ≡ dealt peers owner 0 peers)) }
{
    let (queue, mut pass) = Mailbox::with_rule(alloc)?;
    name(&queue, &mut pass, owner);
    grow(&queue, &mut pass, owner, peers);
    let _ = queue.another::<Seals>(&mut pass);
    Ok((queue, pass))
}

fn name<L: Addressed>(queue: &Mailbox<L>, pass: &mut MailboxPass<L>, owner: u16)
    requires { IsSegPassOf queue.now pass.old × (seen pass.old ≡ newest) }
    ensures { IsSegPassOf queue.now pass.new × (seen pass.new ≡ view true 0 owner [] []) }
{
    for number in 0..owner {
        let _ = queue.another::<Names>(pass);
    }
}

fn grow<L: Addressed>(queue: &Mailbox<L>, pass: &mut MailboxPass<L>, owner: u16, peers: u16)
    requires { IsSegPassOf queue.now pass.old × (seen pass.old ≡ view true 0 owner [] []) }
    ensures { IsSegPassOf queue.now pass.new × (seen pass.new ≡ view true peers owner (parts_from 0 peers) []) }
{
    for number in 0..peers {
        let _ = queue.another::<Grows>(pass);
    }
}

/// A pass with the first number.
pub fn give_at<L: Addressed>(queue: &Mailbox<L>, pass: &mut MailboxPass<L>) -> MailboxPass<L>
    requires queue { IsSegPassOf queue.now pass.old }
    requires numbers { IsDealt (seen pass.old) }
    ensures queue { IsSegPassOf queue.now pass.new × IsSegPassOf queue.now result }
    ensures numbers { (seen pass.new ≡ others (seen pass.old)) × (seen result ≡ first_alone (seen pass.old)) }
{
    queue.another::<Gives>(pass)
}

/// The pass gets all that both have.
pub fn join_at<L: Addressed>(queue: &Mailbox<L>, pass: &mut MailboxPass<L>, other: MailboxPass<L>)
    requires queue { IsSegPassOf queue.now pass.old × IsSegPassOf queue.now other }
    requires numbers { AreJoinable (seen pass.old) (seen other) }
    ensures queue { IsSegPassOf queue.now pass.new }
    ensures numbers { seen pass.new ≡ joined (seen pass.old) (seen other) }
{
    queue.absorb::<Joins>(pass, other);
}

/// All letters that are left, the oldest first.
pub fn drain_at<R: Wait, L: Addressed>(
    rt: &R,
    alloc: Global,
    queue: &Mailbox<L>,
    pass: &mut MailboxPass<L>,
) -> Result<Sequence<L>, AllocError>
    requires queue { IsSegPassOf queue.now pass.old }
    requires owner { has_in (seen pass.old).owner (seen pass.old).parts ≡ true }
    ensures queue { IsSegPassOf queue.now pass.new }
    ensures left { IfOk result (λ left. Drains L.sender L.receiver (seen pass.old) left) }
{
    let letters = take_all(rt, alloc, queue, pass)?;
    if letters.len() >= LIMIT {
        return Err(AllocError);
    }
    Ok(Sequence::from_vec(letters))
}

/// One more than the greatest length of a list.
const LIMIT: usize = 0x4000_0000_0000_0000;

fn take_all<R: Wait, L: Addressed>(
    rt: &R,
    alloc: Global,
    queue: &Mailbox<L>,
    pass: &mut MailboxPass<L>,
) -> Result<Vec<L>, AllocError>
    requires queue { IsSegPassOf queue.now pass.old }
    requires owner { has_in (seen pass.old).owner (seen pass.old).parts ≡ true }
    ensures queue { IsSegPassOf queue.now pass.new }
    ensures left { IfOk result (λ left. Drains L.sender L.receiver (seen pass.old) left.items) }
{
    let mut left = Vec::new(alloc);
    for _ in rt.forever() {
        left.reserve(1)?;
        match take_at(rt, queue, pass) {
            Some(letter) => left.push_reserved(letter),
            None => return Ok(left),
        }
    }
    unreachable!()
}
