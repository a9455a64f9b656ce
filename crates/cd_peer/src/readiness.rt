//! What a peer's turn would do.
#![tactic(auto)]

ghost use Rattle.std.specs.Prelude.{◌≡◌, [], None, Some};
ghost use Rattle.std.specs.Option.{option_copied};
ghost use Rattle.cd_acts.specs.Indexed.{IsIndexed};
ghost use Rattle.cd_acts.specs.View.{local_of};
ghost use Rattle.cd_machine.specs.Schedule.{first_letter, has_work};
ghost use Rattle.cd_peer.specs.Readiness.{ready_by, ready_of};

use crate::choosing::first_item;
use crate::turning::is_token;
use cd_acts::State;
use cd_ledger::Letter;

/// What a turn would do.
#[derive(Clone, Copy)]
pub enum Ready {
    /// It would be idle.
    Nothing,
    /// It would pass the token or admit one.
    TokenOnly,
    /// It would do anything else.
    More,
}

/// The first waiting letter that is ready.
fn first_letter(state: &State) -> Option<&Letter>
    requires { IsIndexed state.now }
    ensures { option_copied result ≡ first_letter (local_of state.now) }
{
    match state.first_ready() {
        None => None,
        Some(place) => Some(state.letter_at(place)),
    }
}

/// Whether something is pending or owed.
fn has_work(state: &State) -> bool
    ensures { result ≡ has_work (local_of state.now) }
{
    match first_item(state) {
        Some(_item) => true,
        None => match state.tasks.next() {
            Some(_task) => true,
            None => false,
        },
    }
}

/// What a turn would do where no letter is ready.
fn ready_alone(state: &State) -> Ready
    ensures { result ≡ ready_by (local_of state.now) None }
{
    if has_work(state) {
        return Ready::More;
    }
    match &state.token {
        None => Ready::Nothing,
        Some(token) => {
            if state.may_declare(token) {
                return Ready::More;
            }
            Ready::TokenOnly
        }
    }
}

/// What the next turn would do. No memory is taken.
pub fn ready_of(state: &State) -> Ready
    requires { IsIndexed state.now }
    ensures { result ≡ ready_of (local_of state.now) }
{
    match first_letter(state) {
        None => ready_alone(state),
        Some(l) => {
            if is_token(l) {
                return Ready::TokenOnly;
            }
            Ready::More
        }
    }
}
