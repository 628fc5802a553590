//! What a worker enters between taking a tile and building it.
use layer_expr::name::Name;

/// A place that every worker passes between taking a tile and building it.
pub trait Gate {
    /// A worker is about to build the tile of a layer and column. It goes on when this returns.
    fn enter(&self, name: &Name, column: u8);
}

/// A gate that holds nobody.
#[derive(Clone, Copy, Debug)]
pub struct OpenGate;

impl Gate for OpenGate {
    fn enter(&self, _name: &Name, _column: u8) {}
}
