//! A gate that is always open.
use pcrf_serve::Gate;

/// Lets every message through.
#[derive(Drop)]
pub struct Open;

impl Gate for Open {
    fn enter(&self, _connection: usize, _message: u64) -> bool {
        true
    }

    fn leave(&self, _connection: usize, _message: u64) -> bool {
        true
    }
}
