use crate::status::Status;
use crate::top::usb_top;
use std::alloc::Global;
use std::test::Fail;
use usb_edge::{MemDisks, MemSink, MemSource, NoSink};

const HEAD: &str =
    "device 1201000200000040feca0140000100000001\nconfig 0902120001010080320904000000ff000000\nbegin\n";

/// The head alone, without `begin`.
const DEVICE: &str = "device 1201000200000040feca0140000100000001\n";

const CONFIG: &str = "config 0902120001010080320904000000ff000000\n";

/// What a run did: how it ended, and what was written to `out`, to `err` and to the trace.
#[derive(Drop)]
struct Outcome {
    status: Status,
    text: Vec<u8>,
    told: Vec<u8>,
    traced: Vec<u8>,
}

/// How a run is disturbed: the most bytes of one read, and the numbers of the read, of the write to `out` and of the
/// write to the trace that fail, where 0 is none.
#[derive(Clone, Copy)]
struct Trial {
    piece: usize,
    read: u64,
    write: u64,
    mark: u64,
}

impl Trial {
    fn plain() -> Trial {
        Trial {
            piece: 4096,
            read: 0,
            write: 0,
            mark: 0,
        }
    }
}

/// The program on a job in memory.
fn run_job(alloc: Global, words: &[&str], job: &str, trial: Trial) -> Result<Outcome, Fail> {
    let reads = [trial.read].to_vec(alloc)?;
    let writes = [trial.write].to_vec(alloc)?;
    let marks = [trial.mark].to_vec(alloc)?;
    let bytes = job.as_bytes().to_vec(alloc)?;
    let mut src = MemSource::new(bytes, trial.piece.max(1), reads);
    let mut out = MemSink::new(alloc, 65536, writes)?;
    let mut err = MemSink::new(alloc, 64, Vec::new(alloc))?;
    let mut trace = MemSink::new(alloc, 262_144, marks)?;
    let mut disks = MemDisks::new(Vec::new(alloc), Vec::new(alloc));
    let status = usb_top(
        alloc, words, &mut src, &mut out, &mut err, &mut trace, &mut disks,
    );
    Ok(Outcome {
        status,
        text: out.bytes().to_vec(alloc)?,
        told: err.bytes().to_vec(alloc)?,
        traced: trace.bytes().to_vec(alloc)?,
    })
}

fn joined(alloc: Global, parts: &[&str]) -> Result<String, Fail> {
    let mut text = String::new(alloc);
    for part in parts {
        text.push_str(part)?;
    }
    Ok(text)
}

/// Whole runs: the schedule after the head, and its answers.
#[test]
fn runs_jobs(rt: HostRuntime) -> Result<(), Fail> {
    let asked = "reset\nirq\ntask\nsetup 0 8006000100001200 ok\nirq\ntask\nirq\n";
    let data = "data1 1201000200000040feca0140000100000001\n";
    let first = joined(
        rt.alloc(),
        &["ok\nok\nok\nack\nok\nok\nok\n", data, "ok\nok\nack\n"],
    )?;
    let lost = joined(rt.alloc(), &[first.as_str(), "ack\nnak\n"])?;
    let early = joined(rt.alloc(), &["ok\nok\nack\nok\nnak\nok\nnak\nok\n", data])?;
    let table = [
        (
            joined(
                rt.alloc(),
                &[asked, "in 0 0 ok\nirq\ntask\nout 0 0 1 - ok\n"],
            )?,
            first,
        ),
        (
            joined(
                rt.alloc(),
                &[
                    asked,
                    "in 0 0 noack\nirq\ntask\nout 0 0 1 - ok\nout 0 0 1 - ok\nin 0 0 ok\n",
                ],
            )?,
            lost,
        ),
        (
            joined(
                rt.alloc(),
                &[
                    "reset\nirq\nsetup 0 8006000100001200 ok\nirq\nin 0 0 ok\ntask\nin 0 0 ok\nirq\nin 0 0 ok\n",
                ],
            )?,
            early,
        ),
        (
            joined(
                rt.alloc(),
                &[
                    "reset\nirq\nsetup 0 8006000100001200 ok\nsetup 0 8006000100001200 ok\nsetup 0 8006000100001200 ok\n",
                    "setup 0 8006000100001200 ok\nirq\nsetup 0 8006000100001200 ok\n",
                ],
            )?,
            joined(rt.alloc(), &["ok\nok\nack\nack\nack\nnone\nok\nack\n"])?,
        ),
        (joined(rt.alloc(), &[""])?, joined(rt.alloc(), &[""])?),
    ];
    for (schedule, answers) in &table {
        let job = joined(rt.alloc(), &[HEAD, schedule.as_str(), "end\n"])?;
        for piece in [1, 7, 4096] {
            let trial = Trial {
                piece,
                read: 0,
                write: 0,
                mark: 0,
            };
            let run = run_job(rt.alloc(), &["device"], job.as_str(), trial)?;
            assert_eq!(rt; run.status, Status::Ok, "{schedule}");
            assert_eq!(rt; run.text.as_slice(), answers.as_bytes(), "{schedule}");
            assert!(rt; run.told.is_empty());
        }
    }
    Ok(())
}

/// Requests of USB 2.0, 9.4: an address that takes effect after its status stage, a session that begins in the task that
/// takes its SETUP and ends where a handler run serves a reset, data that is cut, and requests that are refused.
#[test]
fn serves_standard_requests(rt: HostRuntime) -> Result<(), Fail> {
    for (schedule, answers) in [
        (
            "reset\nirq\nsetup 0 0005050000000000 ok\nirq\ntask\nirq\nin 0 0 noack\nin 0 0 ok\nin 5 0 ok\nirq\nin 0 0 ok\nin 5 0 ok\nstate\n",
            "ok\nok\nack\nok\nok\nok\ndata1 -\ndata1 -\nnone\nok\nnone\nnak\nstate 5 0\n",
        ),
        (
            "state\nreset\nirq\nsetup 0 0009010000000000 ok\nirq\ntask\nstate\nirq\nin 0 0 ok\nirq\ntask\nreset\nstate\nirq\nstate\n",
            "state 0 0\nok\nok\nack\nok\nok\nstate 0 1\nok\ndata1 -\nok\nok\nok\nstate 0 1\nok\nstate 0 0\n",
        ),
        (
            "reset\nirq\nsetup 0 8006000200000900 ok\nirq\ntask\nirq\nin 0 0 ok\n",
            "ok\nok\nack\nok\nok\nok\ndata1 090212000101008032\n",
        ),
        (
            "reset\nirq\nsetup 0 8008000000000100 ok\nirq\ntask\nirq\nin 0 0 ok\n",
            "ok\nok\nack\nok\nok\nok\ndata1 00\n",
        ),
        (
            "reset\nirq\nsetup 0 8006000300000400 ok\nirq\ntask\nin 0 0 ok\nout 0 0 1 - ok\n",
            "ok\nok\nack\nok\nok\nstall\nstall\n",
        ),
        (
            "reset\nirq\nsetup 0 0009020000000000 ok\nirq\ntask\nin 0 0 ok\nstate\n",
            "ok\nok\nack\nok\nok\nstall\nstate 0 0\n",
        ),
    ] {
        let job = joined(rt.alloc(), &[HEAD, schedule, "end\n"])?;
        let run = run_job(rt.alloc(), &["device"], job.as_str(), Trial::plain())?;
        assert_eq!(rt; run.status, Status::Ok, "{schedule}");
        assert_eq!(rt; run.text.as_slice(), answers.as_bytes(), "{schedule}");
    }
    Ok(())
}

/// The lines of a trace that are answers, and how many register lines stand before each.
#[derive(Drop)]
struct Turns {
    answers: Vec<u8>,
    accesses: Vec<usize>,
}

fn turns_of(alloc: Global, trace: &[u8]) -> Result<Turns, Fail> {
    let mut answers = Vec::new(alloc);
    let mut accesses = Vec::new(alloc);
    let mut count: usize = 0;
    for line in trace.split(|b| *b == b'\n') {
        if line.starts_with(b"r ") || line.starts_with(b"w ") {
            count = count.saturating_add(1);
        } else if !line.is_empty() {
            answers.extend_from_slice(line)?;
            answers.push(b'\n')?;
            accesses.push(count)?;
            count = 0;
        }
    }
    Ok(Turns { answers, accesses })
}

/// The registers of a run: each line has those that its turn made, a line of the bus none, and a handler run of a reset
/// some. The answers stand among them in their order. Where they are shown, the output is the trace.
#[test]
fn shows_registers(rt: HostRuntime) -> Result<(), Fail> {
    let schedule =
        "reset\nirq\ntask\nsetup 0 8006000100001200 ok\nirq\ntask\nirq\nin 0 0 ok\nirq\ntask\nout 0 0 1 - ok\nstate\n";
    let on_bus = [
        true, false, false, true, false, false, false, true, false, false, true, false,
    ];
    let answers =
        "ok\nok\nok\nack\nok\nok\nok\ndata1 1201000200000040feca0140000100000001\nok\nok\nack\nstate 0 0\n";
    let job = joined(rt.alloc(), &[HEAD, schedule, "end\n"])?;
    for piece in [9, 4096] {
        let trial = Trial {
            piece,
            read: 0,
            write: 0,
            mark: 0,
        };
        let run = run_job(rt.alloc(), &["device"], job.as_str(), trial)?;
        assert_eq!(rt; run.status, Status::Ok);
        assert_eq!(rt; run.text.as_slice(), answers.as_bytes());
        let turns = turns_of(rt.alloc(), run.traced.as_slice())?;
        assert_eq!(rt; turns.answers.as_slice(), answers.as_bytes());
        assert_eq!(rt; turns.accesses.len(), on_bus.len());
        for (count, bus) in turns.accesses.iter().zip(on_bus.iter()) {
            assert!(rt; !*bus || *count == 0);
        }
        assert!(rt; turns.accesses.get(1).is_some_and(|count| *count > 0));
        let shown = run_job(rt.alloc(), &["device", "--regs"], job.as_str(), trial)?;
        assert_eq!(rt; shown.status, Status::Ok);
        assert_eq!(rt; shown.text.as_slice(), run.traced.as_slice());
        assert_eq!(rt; shown.traced.as_slice(), run.traced.as_slice());
    }
    Ok(())
}

/// A trace that can't be written, and an output that can't after it: nothing of what waits goes to `out` before it went
/// to the trace.
#[test]
fn tells_faults_of_the_trace(rt: HostRuntime) -> Result<(), Fail> {
    let job = joined(rt.alloc(), &[HEAD, "reset\nirq\nend\n"])?;
    let words: [&[&str]; 2] = [&["device"], &["device", "--regs"]];
    for some in &words {
        for (write, mark) in [(0, 1), (1, 0), (1, 1)] {
            let trial = Trial {
                piece: 4096,
                read: 0,
                write,
                mark,
            };
            let run = run_job(rt.alloc(), *some, job.as_str(), trial)?;
            assert_eq!(rt; run.status, Status::WriteFault);
            assert!(rt; run.text.is_empty());
            assert_eq!(rt; run.traced.is_empty(), mark == 1);
            assert_eq!(rt; run.told.as_slice(), b"usbrun: write fault\n".as_slice());
        }
    }
    Ok(())
}

/// The program on a job of two parts.
fn ends(alloc: Global, front: &str, rest: &str) -> Result<Outcome, Fail> {
    let job = joined(alloc, &[front, rest])?;
    run_job(alloc, &["device"], job.as_str(), Trial::plain())
}

/// What comes after the head. A last line without its newline is a line.
#[test]
fn ends_as_it_should(rt: HostRuntime) -> Result<(), Fail> {
    let table = [
        ("end", ""),
        ("end\nanything \u{7f}", ""),
        ("", "usbrun: job ends at line 3\n"),
        ("reset\n", "usbrun: job ends at line 4\n"),
        ("reset", "usbrun: job ends at line 4\n"),
        ("reset\nirq", "usbrun: job ends at line 5\n"),
        ("reset\n\nend\n", "usbrun: line 5 rule 3\n"),
        ("re\0set\nend\n", "usbrun: line 4 rule 2\n"),
        ("reset\r\nend\n", "usbrun: line 4 rule 2\n"),
        ("reset \nend\n", "usbrun: line 4 rule 4\n"),
        ("in 0 16 ok\nend\n", "usbrun: line 4 rule 5\n"),
        ("irq\nin 0 16 ok\nend\n", "usbrun: line 5 rule 5\n"),
        ("in 00 0 ok\nend\n", "usbrun: line 4 rule 5\n"),
        ("in 128 0 ok\nend\n", "usbrun: line 4 rule 5\n"),
        (
            "setup 0 8006000100001200 OK\nend\n",
            "usbrun: line 4 rule 7\n",
        ),
        (
            "setup 0 80060001000012 ok\nend\n",
            "usbrun: line 4 rule 6\n",
        ),
        ("out 0 0 2 - ok\nend\n", "usbrun: line 4 rule 5\n"),
        ("out 0 0 1 AB ok\nend\n", "usbrun: line 4 rule 6\n"),
        ("begin\nend\n", "usbrun: line 4 rule 3\n"),
        ("end \n", "usbrun: line 4 rule 4\n"),
        ("end x", "usbrun: line 4 rule 4\n"),
    ];
    for (rest, told) in &table {
        let run = ends(rt.alloc(), HEAD, *rest)?;
        assert_eq!(rt; run.told.as_slice(), told.as_bytes(), "{rest}");
        assert_eq!(rt; run.status == Status::Ok, told.is_empty(), "{rest}");
    }
    Ok(())
}

/// The lines of a head, in and out of their order.
#[test]
fn reads_heads(rt: HostRuntime) -> Result<(), Fail> {
    let table = [
        ("", "usbrun: job ends at line 0\n"),
        ("\n", "usbrun: line 1 rule 3\n"),
        ("begin\n", "usbrun: line 1 rule 8\n"),
        ("config 00\nbegin\nend\n", "usbrun: line 1 rule 8\n"),
        ("string 1 4100\n", "usbrun: line 1 rule 8\n"),
        ("device -\n", "usbrun: line 1 rule 6\n"),
        ("device 12\nbegin\nend\n", "usbrun: line 2 rule 8\n"),
        ("device 12\ndevice 12\n", "usbrun: line 2 rule 8\n"),
        ("device 12\nstring 1 4100\n", "usbrun: line 2 rule 8\n"),
        ("device 12\nreport 00\n", "usbrun: line 2 rule 8\n"),
        ("device 12\nconfig -\n", "usbrun: line 2 rule 6\n"),
        ("device 12\nconfig 00\nend\n", "usbrun: line 3 rule 3\n"),
        ("device 12\nconfig 00", "usbrun: job ends at line 2\n"),
        (
            "device 12\nconfig 00\nconfig 00\n",
            "usbrun: line 3 rule 8\n",
        ),
    ];
    for (rest, told) in &table {
        let run = ends(rt.alloc(), "", *rest)?;
        assert_eq!(rt; run.told.as_slice(), told.as_bytes(), "{rest}");
        assert_eq!(rt; run.status == Status::Ok, told.is_empty(), "{rest}");
    }
    let front = joined(rt.alloc(), &[DEVICE, CONFIG])?;
    let table = [
        ("begin\nend\n", ""),
        ("string 1 4100\nstring 255 4200\nbegin\nend", ""),
        ("string 2 4100\nstring 2 4100\n", "usbrun: line 4 rule 8\n"),
        ("string 2 4100\nstring 1 4100\n", "usbrun: line 4 rule 8\n"),
        ("string 0 4100\n", "usbrun: line 3 rule 5\n"),
        ("string 1 41\n", "usbrun: line 3 rule 6\n"),
        ("report 00\nstring 1 4100\n", "usbrun: line 4 rule 8\n"),
        ("report 00\nreport 00\n", "usbrun: line 4 rule 8\n"),
        (
            "string 1 4100\nstring 2 4100\nstring 3 4100\nstring 4 4100\nstring 5 4100\nstring 6 4100\nstring 7 4100\nstring 8 4100\nbegin\nend\n",
            "",
        ),
        (
            "string 1 4100\nstring 2 4100\nstring 3 4100\nstring 4 4100\nstring 5 4100\nstring 6 4100\nstring 7 4100\nstring 8 4100\nstring 9 4100\n",
            "usbrun: line 11 rule 8\n",
        ),
    ];
    for (rest, told) in &table {
        let run = ends(rt.alloc(), front.as_str(), *rest)?;
        assert_eq!(rt; run.told.as_slice(), told.as_bytes(), "{rest}");
        assert_eq!(rt; run.status == Status::Ok, told.is_empty(), "{rest}");
    }
    Ok(())
}

/// Sets that break a rule. It is told before any line of the schedule, and after all of the head.
#[test]
fn refuses_sets(rt: HostRuntime) -> Result<(), Fail> {
    let rest = "begin\nno line\n";
    for (device, config, told) in [
        (
            "device 1201000200000040feca01400001000000\n",
            CONFIG,
            "usbrun: set rule 1 at 0\n",
        ),
        (
            "device 1201000200000020feca0140000100000001\n",
            CONFIG,
            "usbrun: set rule 2 at 0\n",
        ),
        (
            "device 1201000200000040feca0140000100000000\n",
            CONFIG,
            "usbrun: set rule 3 at 0\n",
        ),
        (DEVICE, "config 00\n", "usbrun: set rule 4 at 0\n"),
        (
            DEVICE,
            "config 0902130001010080320904000000ff000000\n",
            "usbrun: set rule 5 at 0\n",
        ),
        (
            DEVICE,
            "config 0902120001010080320804000000ff000000\n",
            "usbrun: set rule 7 at 17\n",
        ),
        (
            DEVICE,
            "config 0902120001010080320904000001ff000000\n",
            "usbrun: set rule 10 at 9\n",
        ),
        (
            DEVICE,
            "config 0902120001010080320904000000ff000000\nreport 00\n",
            "usbrun: set rule 17 at 0\n",
        ),
    ] {
        let job = joined(rt.alloc(), &[device, config, rest])?;
        let run = run_job(rt.alloc(), &["device"], job.as_str(), Trial::plain())?;
        assert_eq!(rt; run.told.as_slice(), told.as_bytes());
        assert_eq!(rt; run.status.number(), 3);
        assert!(rt; run.text.is_empty());
        assert!(rt; run.traced.is_empty());
    }
    Ok(())
}

/// Words that are none of a command's.
#[test]
fn refuses_words(rt: HostRuntime) -> Result<(), Fail> {
    let job = joined(rt.alloc(), &[HEAD, "reset\nend\n"])?;
    let words: [&[&str]; 10] = [
        &[],
        &["host"],
        &["device", "device"],
        &["device", "--disk=x"],
        &["Device"],
        &["--regs"],
        &["--regs", "device"],
        &["host", "--regs"],
        &["device", "--Regs"],
        &["device", "--regs", "--regs"],
    ];
    for some in &words {
        let run = run_job(rt.alloc(), *some, job.as_str(), Trial::plain())?;
        assert_eq!(rt; run.status, Status::Usage);
        assert!(rt; run.text.is_empty());
        assert!(rt; run.traced.is_empty());
        assert_eq!(rt; run.told.as_slice(), b"usbrun: usage\n".as_slice());
    }
    Ok(())
}

/// A read and a write that fail, at the first call and later. What was answered before a failed read is written.
#[test]
fn tells_faults(rt: HostRuntime) -> Result<(), Fail> {
    let job = joined(rt.alloc(), &[HEAD, "reset\nirq\nend\n"])?;
    let table = [
        (64, 1, 0, Status::ReadFault, "", "usbrun: read fault\n"),
        (100, 2, 0, Status::ReadFault, "ok\n", "usbrun: read fault\n"),
        (4096, 0, 1, Status::WriteFault, "", "usbrun: write fault\n"),
        (4096, 0, 2, Status::Ok, "ok\nok\n", ""),
        (100, 0, 1, Status::WriteFault, "", "usbrun: write fault\n"),
    ];
    for (piece, read, write, wanted, answers, told) in table {
        let trial = Trial {
            piece,
            read,
            write,
            mark: 0,
        };
        let run = run_job(rt.alloc(), &["device"], job.as_str(), trial)?;
        assert_eq!(rt; run.status, wanted);
        assert_eq!(rt; run.text.as_slice(), answers.as_bytes());
        assert_eq!(rt; run.told.as_slice(), told.as_bytes());
    }
    Ok(())
}

/// The program on a job whose second line of its schedule has so many bytes.
fn with_long_line(alloc: Global, count: usize, rest: &str) -> Result<Outcome, Fail> {
    let mut job = joined(alloc, &[HEAD, "irq\n"])?;
    for _ in 0..count {
        job.push_str("x")?;
    }
    job.push_str(rest)?;
    run_job(alloc, &["device"], job.as_str(), Trial::plain())
}

/// A line of 8,400 bytes and one of 8,401. What was answered before is written.
#[test]
fn refuses_long_lines(rt: HostRuntime) -> Result<(), Fail> {
    for (count, rest, told) in [
        (8400, "", "usbrun: line 5 rule 3\n"),
        (8400, "\nend\n", "usbrun: line 5 rule 3\n"),
        (8401, "", "usbrun: line 5 rule 1\n"),
        (8401, "\nend\n", "usbrun: line 5 rule 1\n"),
        (20000, "\nend\n", "usbrun: line 5 rule 1\n"),
    ] {
        let run = with_long_line(rt.alloc(), count, rest)?;
        assert_eq!(rt; run.told.as_slice(), told.as_bytes());
        assert_eq!(rt; run.text.as_slice(), b"ok\n".as_slice());
    }
    Ok(())
}

/// A sink for faults that takes nothing, and one that fails: the run is the same.
#[test]
fn errors_change_nothing(rt: HostRuntime) -> Result<(), Fail> {
    let job = joined(rt.alloc(), &[HEAD, "irq\nno\n"])?;
    for (room, fail) in [(0, 0), (64, 1), (64, 0)] {
        let bytes = job.as_bytes().to_vec(rt.alloc())?;
        let mut src = MemSource::new(bytes, 4096, Vec::new(rt.alloc()));
        let mut out = MemSink::new(rt.alloc(), 64, Vec::new(rt.alloc()))?;
        let mut err = MemSink::new(rt.alloc(), room, [fail].to_vec(rt.alloc())?)?;
        let mut trace = NoSink::new();
        let mut disks = MemDisks::new(Vec::new(rt.alloc()), Vec::new(rt.alloc()));
        let status = usb_top(
            rt.alloc(),
            &["device"],
            &mut src,
            &mut out,
            &mut err,
            &mut trace,
            &mut disks,
        );
        assert_eq!(rt; status, Status::BadJob { line: 5, rule: 3 });
        assert_eq!(rt; out.bytes(), b"ok\n".as_slice());
    }
    Ok(())
}

/// The line of each status, byte for byte.
#[test]
fn tells_statuses(rt: HostRuntime) {
    for (status, number, line) in [
        (Status::Ok, 0, ""),
        (Status::Usage, 1, "usbrun: usage\n"),
        (
            Status::BadJob {
                line: 4294967295,
                rule: 8,
            },
            2,
            "usbrun: line 4294967295 rule 8\n",
        ),
        (
            Status::BadSet { rule: 18, at: 511 },
            3,
            "usbrun: set rule 18 at 511\n",
        ),
        (Status::ReadFault, 4, "usbrun: read fault\n"),
        (Status::WriteFault, 5, "usbrun: write fault\n"),
        (Status::NoMemory, 6, "usbrun: no memory\n"),
        (
            Status::Short { lines: 0 },
            9,
            "usbrun: job ends at line 0\n",
        ),
        (Status::TooLong, 10, "usbrun: job too long\n"),
    ] {
        assert_eq!(rt; status.number(), number);
        assert_eq!(rt; status.line().as_slice(), line.as_bytes());
    }
}
