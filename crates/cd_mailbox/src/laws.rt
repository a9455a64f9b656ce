//! What the rule of a mailbox says. The function of this module does nothing: its clauses are the laws, and the check of
//! this crate proves them.
ghost use Rattle.cd_mailbox.specs.Laws.{NumbersAreHeldOnce, TakenThenHeldIsPosted, LettersAreAddressed};

use cd_letter::Addressed;

/// No two passes hold the same number; of each peer, what was taken and then what the mailbox holds is what was posted, in
/// order; and each letter goes to the mailbox's owner and comes from a peer.
pub fn mailboxes_deliver<L: Addressed>()
    ensures once { NumbersAreHeldOnce L.sender L.receiver }
    ensures order { TakenThenHeldIsPosted L.sender L.receiver }
    ensures addressed { LettersAreAddressed L.sender L.receiver }
{}
