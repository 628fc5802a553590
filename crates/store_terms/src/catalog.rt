//! What a catalog lists: the layers in order, each with its name and where its records lie.
use crate::root::RecordExtent;

/// Where the records of a layer lie: that of a base layer; or that of a definition, and by column
/// those of its finished tiles.
#[derive(Debug, Drop)]
pub enum Records {
    Base(RecordExtent),
    Derived(RecordExtent, Vec<Option<RecordExtent>>),
}

/// The name of a layer, as its bytes, and where its records lie.
#[derive(Debug, Drop)]
pub struct Listed {
    pub name: Vec<u8>,
    pub records: Records,
}
