//! What can be wrong with a file.
ghost use Rattle.std.specs.Prelude.{◌≡◌};
ghost use Rattle.store_terms.specs.Damage.{code_of};

/// The first thing that is wrong with the bytes of a store.
#[derive(Clone, Copy, Debug, PartialEq, Eq)]
pub enum Damage {
    /// The file is too short, no root slot is open, or an open one has another magic.
    NotAStore,
    /// An open slot has another format.
    Format,
    /// An open slot has a number that is too great, or a sequence of the other slot.
    Numbers,
    /// The catalog does not lie in the file, after the slots.
    CatalogPlace,
    CatalogForm,
    /// A record does not lie in the file, after the slots.
    RecordPlace,
    /// A base or definition record has not its form.
    LayerForm,
    /// A layer may not follow those before it.
    LayerRefused,
    /// A tile record has not its form, or is that of another column.
    TileForm,
    /// Two records have a block in common.
    Overlap,
}

impl Damage {
    /// The code under which damage is reported; `None` where the file is no store.
    pub fn code(&self) -> Option<u8>
        ensures { result ≡ code_of self.now }
    {
        match self {
            Damage::NotAStore => None,
            Damage::Format => Some(1),
            Damage::Numbers => Some(2),
            Damage::CatalogPlace => Some(3),
            Damage::CatalogForm => Some(4),
            Damage::RecordPlace => Some(5),
            Damage::LayerForm => Some(6),
            Damage::LayerRefused => Some(7),
            Damage::TileForm => Some(8),
            Damage::Overlap => Some(9),
        }
    }
}
