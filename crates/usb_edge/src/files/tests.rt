use super::*;
use crate::tests::fill_block;
use std::fs;
use std::io::ErrorKind;
use std::test::Fail;

/// A file of two blocks and 7 bytes more is read and written in place. What isn't there and what is a folder give faults.
#[test]
fn files(rt: HostRuntime) -> Result<(), Fail> {
    fs::write(&rt, "disk", [5; 1031].as_slice())?;
    fs::create_dir(&rt, "folder")?;
    let mut disks = FileDisks::new(rt);
    assert_eq!(rt; fill_block(&mut disks, "absent", 1, 6), Err(DiskFault));
    assert_eq!(rt; fill_block(&mut disks, "folder", 1, 6), Err(DiskFault));
    assert_eq!(rt; fill_block(&mut disks, "disk", 1, 6), Ok((1031, 6, 5)));
    let file = fs::read(&rt, "disk")?;
    assert_eq!(rt; file.len(), 1031);
    assert_eq!(rt;
        [file[511], file[512], file[1023], file[1024]],
        [5, 6, 6, 5]
    );
    Ok(())
}

/// A file of which each call moves so many bytes, or fails.
#[derive(Drop)]
struct Fake {
    given: Option<usize>,
}

impl FileExt for Fake {
    fn read_at(&self, buf: &mut [u8], _offset: u64) -> io::Result<usize> {
        match self.given {
            Some(n) => Ok(n.min(buf.len())),
            None => Err(ErrorKind::Other.into()),
        }
    }

    fn write_at(&self, buf: &[u8], _offset: u64) -> io::Result<usize> {
        match self.given {
            Some(n) => Ok(n.min(buf.len())),
            None => Err(ErrorKind::Other.into()),
        }
    }
}

/// A block that moved whole passes. A short one, none and an error are faults, and `buf` stays.
#[test]
fn short_blocks(rt: HostRuntime) {
    let cases = [
        (Some(512), Ok(()), 0),
        (Some(511), Err(DiskFault), 1),
        (Some(0), Err(DiskFault), 1),
        (None, Err(DiskFault), 1),
    ];
    for (given, want, want_faults) in cases {
        let file = Fake { given };
        let mut buf = [7; 512];
        let mut faults = 0;
        assert_eq!(rt; read_from_file(&file, 3, &mut buf, &mut faults), want);
        assert_eq!(rt; faults, want_faults);
        assert_eq!(rt; buf[0], if want.is_ok() { 0 } else { 7 });
        assert_eq!(rt; write_to_file(&file, 3, &buf, &mut faults), want);
        assert_eq!(rt; faults, 2 * want_faults);
    }
}
