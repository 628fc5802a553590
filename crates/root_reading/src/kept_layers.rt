//! Layers of a file, one after another.
ghost use Rattle.std.specs.Prelude.{◌≡◌, List, ℕ, true, IfOk, IfErr};
ghost use Rattle.overlay_terms.specs.Layers.{Content, Layer};
ghost use Rattle.layer_expr.specs.Name.{is_name};
ghost use Rattle.layer_book.specs.Command.{command};
ghost use Rattle.layer_book.specs.Layer.{keeping};
ghost use Rattle.store_terms.specs.Image.{with_layer};
ghost use Rattle.record_reading.specs.Answers.{Reads, Tells};

use layer_book::Layers;
use layer_book::command::Command;
use layer_book::fault::LayerFault;
use layer_expr::fault::ExprFault;
use layer_expr::name::Name;
use record_reading::fault::RecordFault;
use std::alloc::Global;
use store_terms::damage::Damage;

/// The name with these bytes.
pub(crate) fn name_in(alloc: Global, bytes: &[u8]) -> Result<Name, RecordFault>
    ensures ok { IfOk result (λ name. name ≡ bytes.now) }
    ensures valid { IfOk result (λ name. is_name bytes.now ≡ true) }
    ensures refused { IfErr result
        (λ fault. (layers : List Layer) (content : Content) → Tells fault (with_layer layers bytes.now content)) }
{
    match Name::new(alloc, bytes) {
        Ok(name) => {
            // It is a name by its type: the clauses rest on that.
            let _ = name.bytes();
            Ok(name)
        }
        Err(ExprFault::OutOfMemory) => Err(RecordFault::OutOfMemory),
        Err(_) => Err(RecordFault::Damaged(Damage::LayerRefused)),
    }
}

/// The layers with one more after them, which a command keeps under a name that none of them has.
pub(crate) fn keep(alloc: Global, layers: &Layers, change: &Command) -> Result<Layers, RecordFault>
    ensures { (name : List ℕ) (content : Content) → is_name name ≡ true → command change.now ≡ keeping name content
        → Reads (λ l. l) result (with_layer layers.now name content) }
{
    if layers.stands(change.name()) {
        return Err(RecordFault::Damaged(Damage::LayerRefused));
    }
    match layers.apply(alloc, change) {
        Ok(layers) => Ok(layers),
        Err(LayerFault::OutOfMemory) => Err(RecordFault::OutOfMemory),
        Err(_) => Err(RecordFault::Damaged(Damage::LayerRefused)),
    }
}
