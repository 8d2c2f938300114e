ghost use Rattle.std.specs.Prelude.{◌≡◌, ◌⊎◌, None, map, string_bytes, drop};
ghost use Rattle.usbrun.specs.Written.{ways};
ghost use Rattle.usbrun.specs.Status.{Tells};
ghost use Rattle.usbrun.specs.Top.{Claims};

use crate::status::Status;
use crate::top::{tell, usb_top};
use std::alloc::Global;
use usb_edge::{Disks, FileDisks, NoSink, Sink, Source, StderrSink, StdinSource, StdoutSink};

/// Runs the program on these words: its job comes from `src`, its output goes to `out`, and what it ends with is told on
/// `err`. Nobody reads its trace. Where there is no memory for the words, nothing is read and nothing written but that.
fn run_words<S: Source, K: Sink, E: Sink, D: Disks>(
    alloc: Global,
    words: &[String],
    src: &mut S,
    out: &mut K,
    err: &mut E,
    disks: &mut D,
) -> Status
    ensures claims { ((result ≡ Status.NoMemory) × (src.new ≡ src.old) × (out.new ≡ out.old)) ⊎ Claims result (map string_bytes words.now) (ways
        (S.left src.old) (S.left src.new) (S.faults src.old) (S.faults src.new)
        (K.taken out.old) (K.taken out.new) (K.faults out.old) (K.faults out.new) None None 0 0) }
    ensures errors { Tells result (E.taken err.old) (E.taken err.new) (E.faults err.old) (E.faults err.new) }
{
    let mut texts: Vec<&str> = Vec::new(alloc);
    for word in words {
        if texts.push(word.as_str()).is_err() {
            return no_memory(err);
        }
    }
    let mut trace = NoSink::new();
    usb_top(alloc, texts.as_slice(), src, out, err, &mut trace, disks)
}

/// Runs the program on the process's words, of which the first is the program's name, and on the process's streams and
/// files.
pub fn run_process(
    alloc: Global,
    args: &[String],
    src: &mut StdinSource,
    out: &mut StdoutSink,
    err: &mut StderrSink,
    disks: &mut FileDisks,
) -> Status
    ensures claims { ((result ≡ Status.NoMemory) × (src.new ≡ src.old) × (out.new ≡ out.old)) ⊎ Claims result (map string_bytes (drop 1 args.now)) (ways
        (⟦<StdinSource as Source>⟧.left src.old) (⟦<StdinSource as Source>⟧.left src.new)
        (⟦<StdinSource as Source>⟧.faults src.old) (⟦<StdinSource as Source>⟧.faults src.new)
        (⟦<StdoutSink as Sink>⟧.taken out.old) (⟦<StdoutSink as Sink>⟧.taken out.new)
        (⟦<StdoutSink as Sink>⟧.faults out.old) (⟦<StdoutSink as Sink>⟧.faults out.new)
        None None 0 0) }
{
    run_words(alloc, behind_first(args), src, out, err, disks)
}

/// The words behind the first one.
fn behind_first(words: &[String]) -> &[String]
    ensures { result.now ≡ drop 1 words.now }
{
    match words {
        [] => words,
        [_, rest @ ..] => rest,
    }
}

/// Ends for want of memory, before anything was read.
pub fn no_memory<E: Sink>(err: &mut E) -> Status
    ensures status { result ≡ Status.NoMemory }
    ensures errors { Tells Status.NoMemory (E.taken err.old) (E.taken err.new) (E.faults err.old) (E.faults err.new) }
{
    tell(Status::NoMemory, err);
    Status::NoMemory
}
