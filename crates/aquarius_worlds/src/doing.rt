//! Reads choices, and does them.
ghost use Rattle.std.specs.Prelude.{◌≡◌, false, IsTrue, OnOk};
ghost use Rattle.cd_world.specs.Worlds.{MayStep, MayTurn};
ghost use Rattle.cd_world.specs.declared.moving.Choice.TheVariants.{Deliver};

use cd_world::{Choice, World};
use std::alloc::{AllocError, Global};

/// The number of peers, and the choices.
pub fn choices_of(alloc: Global, text: &str) -> Result<(u16, Vec<Choice>), AllocError> {
    let mut peers = 0u16;
    let mut choices = Vec::new(alloc);
    for word in text.split(' ') {
        match word.as_bytes() {
            [b't', digits @ ..] => choices.push(Choice::Turn(number(digits)))?,
            [b'd', digits @ ..] => choices.push(Choice::Deliver(u64::from(number(digits))))?,
            digits => peers = number(digits),
        }
    }
    Ok((peers, choices))
}

fn number(digits: &[u8]) -> u16 {
    let mut number = 0u16;
    for digit in digits {
        number = number
            .saturating_mul(10)
            .saturating_add(u16::from(digit.saturating_sub(b'0')));
    }
    number
}

/// Whether the choice can be made: it is in range, and its peer has no verdict.
fn may(world: &World, choice: Choice) -> bool
    ensures { IsTrue result → MayStep world.now.parts choice }
{
    match choice {
        Choice::Turn(q) => may_peer(world, q),
        Choice::Deliver(place) => may_deliver(world, place as usize),
    }
}

fn may_deliver(world: &World, place: usize) -> bool
    ensures { IsTrue result → MayStep world.now.parts (Deliver place) }
{
    let letters = world.travelling();
    if place >= letters.len() {
        return false;
    }
    may_peer(world, letters[place].to)
}

fn may_peer(world: &World, q: u16) -> bool
    ensures { IsTrue result → MayTurn world.now.parts.peers q }
{
    usize::from(q) < world.len() && world.peer(q).verdict().is_none()
}

/// Does the choices up to the first that can't be made; whether there is none.
pub fn all_done(world: &mut World, choices: &[Choice]) -> Result<bool, AllocError>
    requires { world.old.fallen ≡ false }
    ensures standing { OnOk result (world.new.fallen ≡ false) }
    ensures problem { OnOk result (world.new.problem ≡ world.old.problem) }
{
    for choice in choices {
        if !may(world, *choice) {
            return Ok(false);
        }
        let _turned = world.step(*choice)?;
    }
    Ok(true)
}
