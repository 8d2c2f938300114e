ghost use Rattle.std.specs.Prelude.{[], ◌∷◌};

use crate::{
    DiskFault, Disks, Got, MOST_TEXT, MemSink, MemSource, NoSink, Sink, Source, StderrSink,
    StdoutSink, Text, Wrote,
};
use arrayvec::ArrayVec;
use std::test::Fail;

/// What is left, in pieces of two bytes, where the third call fails.
#[test]
fn source_in_pieces(rt: HostRuntime) -> Result<(), Fail> {
    let bytes = [1, 2, 3].to_vec(rt.alloc())?;
    let fails = [3].to_vec(rt.alloc())?;
    let mut source = MemSource::new(bytes, 2, fails);
    let mut buf = [0; 4];
    assert_eq!(rt; read_once(&mut source, &mut buf), Got::Bytes(2));
    assert_eq!(rt; buf, [1, 2, 0, 0]);
    assert_eq!(rt; read_once(&mut source, &mut buf), Got::Bytes(1));
    assert_eq!(rt; read_once(&mut source, &mut buf), Got::Failed);
    assert_eq!(rt; read_once(&mut source, &mut buf), Got::End);
    Ok(())
}

fn read_once<S: Source>(source: &mut S, buf: &mut [u8; 4]) -> Got {
    source.read(buf)
}

fn write_once<K: Sink>(sink: &mut K, bytes: &[u8; 3]) -> Wrote {
    sink.write(bytes)
}

/// A sink takes what fits its room, and not at a call that is to fail.
#[test]
fn sink_within_its_room(rt: HostRuntime) -> Result<(), Fail> {
    let fails = [2].to_vec(rt.alloc())?;
    let mut sink = MemSink::new(rt.alloc(), 4, fails)?;
    assert_eq!(rt; write_once(&mut sink, &[9, 8, 7]), Wrote::Bytes(3));
    assert_eq!(rt; write_once(&mut sink, &[6, 5, 4]), Wrote::Failed);
    assert_eq!(rt; write_once(&mut sink, &[6, 5, 4]), Wrote::Failed);
    assert_eq!(rt; sink.bytes(), [9, 8, 7].as_slice());
    Ok(())
}

/// The real sinks take bytes.
#[test]
fn real_sinks(rt: HostRuntime) {
    assert_eq!(rt;
        write_once(&mut StdoutSink::new(rt.stdout()), b"ok\n"),
        Wrote::Bytes(3)
    );
    assert_eq!(rt;
        write_once(&mut StderrSink::new(rt.stderr()), b"ok\n"),
        Wrote::Bytes(3)
    );
}

/// What is dropped is taken whole.
#[test]
fn nothing_kept(rt: HostRuntime) {
    let mut sink = NoSink::new();
    assert_eq!(rt; write_once(&mut sink, &[1, 2, 3]), Wrote::Bytes(3));
    assert_eq!(rt; write_once(&mut sink, &[4, 5, 6]), Wrote::Bytes(3));
    assert!(rt; tell_once(&mut sink, &Byte { byte: 7 }));
}

/// A text of one byte.
struct Byte {
    byte: u8,
}

impl Text for Byte {
    ghost text = { λ b. b.byte ∷ [] };

    fn put(&self, to: &mut ArrayVec<u8, MOST_TEXT>) {
        to.push(self.byte);
    }
}

fn tell_once<K: Sink, X: Text>(sink: &mut K, item: &X) -> bool {
    sink.tell(item)
}

/// A sink in memory is told a text by writing it.
#[test]
fn texts_in_memory(rt: HostRuntime) -> Result<(), Fail> {
    let fails = [2].to_vec(rt.alloc())?;
    let mut sink = MemSink::new(rt.alloc(), 4, fails)?;
    assert!(rt; tell_once(&mut sink, &Byte { byte: 7 }));
    assert!(rt; !tell_once(&mut sink, &Byte { byte: 8 }));
    assert!(rt; tell_once(&mut sink, &Byte { byte: 9 }));
    assert_eq!(rt; sink.bytes(), [7, 9].as_slice());
    Ok(())
}

/// Attaches a disk, fills a block of it with a byte and reads that block and the first one: the disk's size, and a byte of each.
pub(crate) fn fill_block<D: Disks>(
    disks: &mut D,
    name: &str,
    lba: u32,
    byte: u8,
) -> Result<(u64, u8, u8), DiskFault> {
    let size = disks.attach(0, name)?;
    if size / 512 <= lba as u64 {
        return Ok((size, 0, 0));
    }
    disks.write(0, lba, &[byte; 512])?;
    disks.sync(0)?;
    let mut block = [0; 512];
    disks.read(0, lba, &mut block)?;
    let last = block[511];
    disks.read(0, 0, &mut block)?;
    Ok((size, last, block[511]))
}
