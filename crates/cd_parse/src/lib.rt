//! Statements of a file: from its bytes to what each of them says, or to the first fault at its place.
//!
//! `specs/Grammar.antt` and `specs/Statements.antt` are the grammar, over whole lists of tokens. A token is
//! wrong where the ones before it begin a statement, and none begins with them and it. `specs/Parts.antt`
//! says this of bytes. The code takes one token at a time, and holds no more than a statement.
#![tactic(auto)]

mod label;
pub mod laws;
mod machine;
mod part;
mod stack;
mod statement;
mod terminal;
mod terminals;
mod tree;
mod word;

pub use label::{Label, Labels, Role, What};
pub use machine::{Frame, Held, Mode, StepFault};
pub use part::{Found, PartFault, Progress, read_part};
pub use stack::Stack;
pub use statement::{Stage, Statement};
pub use terminal::{Foreign, Sign, Terminal};
pub use tree::{Side, Tree, TreeAtom, TreeLiteral, TreeLiterals, Trees};
pub use word::Word;
