//! Mailboxes are made.
ghost use Rattle.std.specs.Prelude.{◌≡◌, ◌+◌, ◌<◌, length, IfOk, OnOk};
ghost use Rattle.cd_mailbox.specs.Known.{fresh};
ghost use Rattle.cd_mailbox.specs.Life.{Opened};
ghost use Rattle.cd_mailbox.specs.Opening.{RestsAre};

use crate::boxes::{BoxPass, Boxes, Passes};
use crate::queue::{give_at, open_at};
use crate::rule::MailboxPass;
use cd_letter::Addressed;
use std::alloc::{AllocError, Global};

/// The mailboxes of `peers` peers, all empty, and a pass for each peer, in the order of their numbers.
pub fn open_boxes<L: Addressed>(
    alloc: Global,
    peers: u16,
) -> Result<(Boxes<L>, Passes<L>), AllocError>
    ensures { IfOk result (λ it. Opened peers it.0 it.1) }
{
    let (boxes, mut rests) = open_all(alloc, peers)?;
    let mut passes = Passes::new(alloc);
    for number in 0..peers {
        let pass = pass_of(alloc, &boxes, &mut rests, number)?;
        passes.push(pass)?;
    }
    Ok((boxes, passes))
}

// The mailboxes, and a seat at each with the numbers of all peers.
fn open_all<L: Addressed>(
    alloc: Global,
    peers: u16,
) -> Result<(Boxes<L>, Vec<MailboxPass<L>>), AllocError>
    ensures { IfOk result (λ it. (length it.0 ≡ peers) × RestsAre it.0 peers 0 it.1.items) }
{
    let mut boxes = Boxes {
        queues: Vec::new(alloc),
    };
    let mut rests = Vec::new(alloc);
    for owner in 0..peers {
        boxes.queues.reserve(1)?;
        let (queue, rest) = open_at(alloc, owner, peers)?;
        boxes.queues.push_reserved(queue);
        rests.push(rest)?;
    }
    Ok((boxes, rests))
}

// The pass of one peer: its number is given away at each mailbox.
fn pass_of<L: Addressed>(
    alloc: Global,
    boxes: &Boxes<L>,
    rests: &mut Vec<MailboxPass<L>>,
    number: u16,
) -> Result<BoxPass<L>, AllocError>
    requires rests { RestsAre boxes.now (length boxes.now) number rests.old.items }
    requires number { number < length boxes.now }
    ensures rests { OnOk result (RestsAre boxes.now (length boxes.now) (number + 1) rests.new.items) }
    ensures pass { IfOk result (λ pass. pass ≡ fresh boxes.now number) }
{
    let mut seats = Vec::new(alloc);
    for q in 0..boxes.queues.len() {
        let rest = &mut rests[q];
        let seat = give_at(&boxes.queues[q], rest);
        seats.push(seat)?;
    }
    Ok(BoxPass {
        peer: number,
        seats,
    })
}
