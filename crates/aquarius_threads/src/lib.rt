//! Tests of mailboxes and of the bell, within a thread and between threads, apart from the crates that they test.
#![tactic(auto)]

#[cfg(test)]
mod bells;
#[cfg(test)]
mod mailboxes;
