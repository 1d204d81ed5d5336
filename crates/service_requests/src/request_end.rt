//! What became of a request on a connection.
use gateway::Outcome;

/// What became of a request on a connection.
#[derive(Debug, PartialEq, Eq, Drop)]
pub enum RequestEnd {
    /// The frames that came gave it this outcome.
    Told(Outcome),
    /// The stream began as no frame, or the connection ended before the reply.
    Lost,
}
