//! Files that are no store, or that a part is cut off.
use crate::tests::testing::{BLOCKS, disk_of, put_square, writes_nothing};
use commit_plan::fault::StoreFault;
use disk_model::mem_disk::MemDisk;
use std::alloc::Global;
use std::test::Fail;
use store_terms::damage::Damage;
use test_machines::machine::Machine;
use test_machines::refused::Refused;

/// So many bytes of the front of a store that holds a layer, why they are not recovered, and the number of that fault.
const FRONTS: [(usize, Damage, u8); 3] = [
    (0, Damage::NotAStore, 32),
    (8191, Damage::NotAStore, 32),
    // The catalog lies in the block after.
    (16384, Damage::CatalogPlace, 33),
];

/// The file of a store that holds a layer.
fn stored(alloc: Global) -> Result<Vec<u8>, Fail> {
    let mut engine = Machine::in_memory(alloc, BLOCKS)?;
    put_square(alloc, &mut engine, 8)?;
    Ok(engine.into_disk().bytes().to_vec(alloc)?)
}

/// The fault, where nothing was written.
fn reported(refused: &Refused<MemDisk>) -> Result<StoreFault, Fail> {
    if !writes_nothing(refused.disk.calls()) {
        return Err(Fail::new("written"));
    }
    Ok(refused.fault)
}

/// Why a file is not recovered.
fn refusal(alloc: Global, file: &[u8]) -> Result<StoreFault, Fail> {
    match Machine::recover(alloc, disk_of(alloc, file)?, BLOCKS) {
        Ok(_) => Err(Fail::new("recovered")),
        Err(refused) => reported(&refused),
    }
}

#[test]
fn a_file_that_is_empty_or_cut_is_not_recovered(rt: HostRuntime) -> Result<(), Fail> {
    let file = stored(rt.alloc())?;
    for &(length, damage, code) in &FRONTS {
        let front = file.get(0..length).unwrap_or(&[]);
        let fault = refusal(rt.alloc(), front)?;
        assert!(rt;
            fault == StoreFault::Damaged(damage),
            "the first {length} bytes"
        );
        assert_eq!(rt; fault.code(), code, "the first {length} bytes");
    }
    Ok(())
}

#[test]
fn a_file_of_one_byte_is_made_no_store(rt: HostRuntime) -> Result<(), Fail> {
    let disk = MemDisk::new(rt.alloc(), vec![in rt.alloc(); 0; 1]?)?;
    match Machine::create(rt.alloc(), disk, BLOCKS) {
        Ok(_) => Err(Fail::new("made")),
        Err(refused) => {
            assert_eq!(rt; reported(&refused)?.code(), 34);
            assert_eq!(rt; refused.disk.bytes().len(), 1);
            Ok(())
        }
    }
}
