//! What a connection to a peer shares with all others of its site.
use crate::end::LinkEnd;
use crate::gate::Gate;

/// The site under its lock, whoever reaches its gateways, and the gate of its connections.
#[derive(Drop)]
pub(crate) struct Link<'a, A, P, G> {
    pub(crate) site: &'a A,
    pub(crate) gateways: &'a P,
    pub(crate) gate: &'a G,
}

impl<A, P, G: Gate> Link<'_, A, P, G> {
    /// A message of a connection is let in, or ends the connection.
    pub(crate) fn enter(&self, connection: usize, message: u32) -> Result<(), LinkEnd> {
        if self.gate.enter(connection, u64::from(message)) {
            Ok(())
        } else {
            Err(LinkEnd::Gate)
        }
    }

    /// A message is let in unless it is in already, or ends the connection.
    pub(crate) fn enter_once(
        &self,
        connection: usize,
        message: u32,
        is_in: bool,
    ) -> Result<(), LinkEnd> {
        if is_in {
            return Ok(());
        }
        self.enter(connection, message)
    }

    /// It was answered, and is let out, or ends the connection.
    pub(crate) fn leave(&self, connection: usize, message: u32) -> Result<(), LinkEnd> {
        if self.gate.leave(connection, u64::from(message)) {
            Ok(())
        } else {
            Err(LinkEnd::Gate)
        }
    }
}
