//! What peers tell each other.
use crate::records::Record;
use cd_list::{Copied, Sequence};
use cd_names::{How, Name, Token};
use std::alloc::{AllocError, Global};

/// What a letter says.
#[derive(Drop)]
pub enum Body {
    /// Its sender recorded this.
    Kept(Record),
    /// The clause with the name `by` makes that with the name `of` superfluous, in this way.
    Notice { of: Name, by: Name, how: How },
    /// The token goes to its receiver.
    Token(Token),
}

/// A letter from one peer to another, sent at this time on the clock of its sender.
#[derive(Drop)]
pub struct Letter {
    pub sender: u16,
    pub to: u16,
    pub time: u64,
    pub body: Body,
}

pub type Letters = Sequence<Letter>;

impl Copied for Body {
    fn copy(&self, alloc: Global) -> Result<Body, AllocError> {
        match self {
            Body::Kept(record) => Ok(Body::Kept(record.copy(alloc)?)),
            Body::Notice { of, by, how } => Ok(Body::Notice {
                of: *of,
                by: *by,
                how: *how,
            }),
            Body::Token(token) => Ok(Body::Token(token.copy(alloc)?)),
        }
    }
}

impl Copied for Letter {
    fn copy(&self, alloc: Global) -> Result<Letter, AllocError> {
        Ok(Letter {
            sender: self.sender,
            to: self.to,
            time: self.time,
            body: self.body.copy(alloc)?,
        })
    }
}

fn moves<T: Send>(_value: &T) {}

// Letters may move between threads.
fn cross(letter: &Letter) {
    moves(letter);
}
