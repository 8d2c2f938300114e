use super::*;
use crate::tests::fill_block;
use std::alloc::Global;
use std::test::Fail;

/// A disk of two blocks of ones.
fn disk(alloc: Global, name: &str) -> Result<MemDisk, Fail> {
    let mut bytes = Vec::new(alloc);
    bytes.extend_from_slice(&[1; 1024])?;
    let name = String::from_str(alloc, name)?;
    Ok(MemDisk { name, bytes })
}

/// The disk `a`, and these calls fail.
fn disks(alloc: Global, fails: &[u64]) -> Result<MemDisks, Fail> {
    let mut held = Vec::new(alloc);
    held.push(disk(alloc, "a")?)?;
    Ok(MemDisks::new(held, fails.to_vec(alloc)?))
}

/// Each of the five calls fails where its number is listed. A name that a slot has is a fault as well.
#[test]
fn failing_calls(rt: HostRuntime) -> Result<(), Fail> {
    for call in 1..=5 {
        let mut disks = disks(rt.alloc(), &[call])?;
        assert_eq!(rt; fill_block(&mut disks, "a", 1, 9), Err(DiskFault));
    }
    let mut disks = disks(rt.alloc(), &[6])?;
    assert_eq!(rt; fill_block(&mut disks, "a", 1, 9), Ok((1024, 9, 1)));
    assert_eq!(rt; fill_block(&mut disks, "a", 1, 9), Err(DiskFault));
    assert_eq!(rt; fill_block(&mut disks, "a", 1, 9), Err(DiskFault));
    Ok(())
}
