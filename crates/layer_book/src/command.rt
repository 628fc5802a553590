//! What can be asked of the layers.
ghost use Rattle.std.specs.Prelude.{◌≡◌};
ghost use Rattle.overlay_terms.specs.Touched.{name_of};
ghost use Rattle.layer_book.specs.Command.{command};

use layer_expr::Expr;
use layer_expr::name::Name;
use plane_base::BaseLayer;
use std::sync::Arc;

/// A change of the layers.
#[derive(Debug, Drop)]
pub enum Command {
    /// Keeps rings under a name that is new or a base layer's.
    Put(Name, Arc<BaseLayer>),
    /// Keeps an expression under a name that is new or a derived layer's.
    Define(Name, Arc<Expr>),
    /// Takes a layer out that no definition names.
    Remove(Name),
}

impl Command {
    /// The name that the command puts, defines or takes out.
    pub fn name(&self) -> &Name
        ensures { result.now ≡ name_of (command self.now) }
    {
        match self {
            Command::Put(name, _) => name,
            Command::Define(name, _) => name,
            Command::Remove(name) => name,
        }
    }
}
