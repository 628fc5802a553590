//! Names of layers.
ghost use Rattle.std.specs.Prelude.{◌≡◌, ◌≤◌, List, ℕ, length, take, IfOk, IsOk, IsTrue, true, false};
ghost use Rattle.std.specs.List.{list_all};
ghost use Rattle.layer_expr.specs.Name.{is_name, is_name_byte};

use crate::fault::ExprFault;
use std::alloc::{AllocError, Global};
use std::marker::Model;

/// The most bytes of a name.
pub const NAME_MAX: usize = 32;

/// A name of at least one byte: a letter, then letters, digits and underscores. It holds its bytes in
/// place, so a copy takes no memory.
#[derive(Debug, Drop)]
pub struct Name {
    bytes: [u8; NAME_MAX],
    len: usize,
}

impl Model for Name {
    ghost Value = { List ℕ };

    ghost view = { λ n. take n.len n.bytes };

    ghost invariant = { λ n. (n.len ≤ 32) × IsTrue (is_name (take n.len n.bytes)) };
}

impl Name {
    /// The name with these bytes. It takes no memory.
    pub fn new(_alloc: Global, bytes: &[u8]) -> Result<Name, ExprFault>
        ensures ok { IfOk result (λ name. name ≡ bytes.now) }
        ensures refused { is_name bytes.now ≡ false → result ≡ Err ExprFault.BadName }
        ensures accepted { is_name bytes.now ≡ true → IsOk result }
    {
        if !is_well_formed(bytes) {
            return Err(ExprFault::BadName);
        }
        Ok(Name {
            bytes: placed(bytes),
            len: bytes.len(),
        })
    }

    pub fn bytes(&self) -> &[u8]
        ensures value { result.now ≡ self.now }
        ensures valid { IsTrue (is_name result.now) }
    {
        &self.bytes[..self.len]
    }
}

impl Clone for Name {
    ghost is_clone = { λ name copy. copy ≡ name };

    fn clone(&self) -> Result<Name, AllocError> {
        Ok(Name {
            bytes: self.bytes,
            len: self.len,
        })
    }
}

/// The bytes in the first places of an array.
fn placed(bytes: &[u8]) -> [u8; NAME_MAX]
    requires { length bytes.now ≤ 32 }
    ensures { take (length bytes.now) result ≡ bytes.now }
{
    let mut places = [0; NAME_MAX];
    places[..bytes.len()].copy_from_slice(bytes);
    places
}

/// Whether the bytes are those of a name.
pub(crate) fn is_well_formed(bytes: &[u8]) -> bool
    ensures value { result ≡ is_name bytes.now }
    ensures short { IsTrue result → length bytes.now ≤ 32 }
{
    let [first, ..] = bytes else {
        return false;
    };
    first.is_ascii_alphabetic() && bytes.len() <= NAME_MAX && all_name_bytes(bytes)
}

fn all_name_bytes(bytes: &[u8]) -> bool
    ensures { result ≡ list_all is_name_byte bytes.now }
{
    bytes.iter().all(|b| goes_on(*b))
}

/// Whether the byte may follow the first of a name.
pub(crate) fn goes_on(b: u8) -> bool
    ensures { result ≡ is_name_byte b }
{
    b.is_ascii_alphanumeric() || b == b'_'
}
