// What is answered as one, and the answer to it.
use crate::{Command, Reply, ReplyError};
use nx_lists::List;

/// What is answered as one.
#[derive(Drop)]
pub enum Request {
    /// A command of its own.
    Single(Command),
    /// Commands that are carried out all, in their order, or not at all.
    Transaction(List<Command>),
}

/// The answer to a request.
#[derive(Drop)]
pub enum Answer {
    /// The reply to a command of its own.
    One(Reply),
    /// A transaction was carried out: the replies to its commands, in their order.
    All(List<Reply>),
    /// A transaction changed nothing: which of its commands was refused first, counted from 1, and why.
    RefusedAt { number: u64, error: ReplyError },
}
