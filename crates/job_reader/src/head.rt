ghost use Rattle.std.specs.Prelude.{◌≡◌, ◌*◌, ◌≤◌, true};
ghost use Rattle.usb_edge.specs.Stream.{Rose, IsAtEnd};
ghost use Rattle.job_reader.specs.Head.{new_lines, most_heads, most_size, ReadsHead, ReadsHeads};

use crate::draft::Draft;
use crate::lines::{Lines, Next};
use usb_edge::Source;
use usb_text::{HeadLine, read_head};

/// Why the head was not read.
#[derive(Clone, Copy, PartialEq, Eq, Debug)]
pub enum NoHead {
    /// The next line breaks this rule, of 1 to 8.
    Refused(u8),
    /// The source ended.
    Short,
    /// The source failed.
    ReadFault,
}

#[tactic(auto, using(crate::proofs::Heads::heads_start, crate::proofs::Heads::heads_more, crate::proofs::Heads::heads_whole, crate::proofs::Heads::heads_fail))]
/// Reads the lines of the head, up to and with `begin`.
pub fn read_heads<S: Source>(lines: &mut Lines, src: &mut S) -> Result<Draft, NoHead>
    requires { lines.old ≡ new_lines }
    ensures heads { ReadsHeads result (S.left src.old) (S.left src.new) (S.faults src.old) (S.faults src.new) lines.old lines.new }
    ensures few { lines.new.lines ≤ most_heads }
    ensures ended { (lines.new.ended ≡ true) → IsAtEnd (S.left src.new) }
    ensures count { S.faults src.old ≤ S.faults src.new }
{
    let mut draft = Draft::new();
    'heads: loop {
        let line = match next_head(lines, &draft, src) {
            Ok(line) => line,
            Err(fault) => return Err(fault),
        };
        draft.add(line);
        if draft.is_whole() {
            return Ok(draft);
        }
    }
}

/// Reads the next line of the head, and takes it with its newline.
fn next_head<S: Source>(lines: &mut Lines, draft: &Draft, src: &mut S) -> Result<HeadLine, NoHead>
    requires count { lines.old.count ≤ most_size * lines.old.lines }
    requires few { lines.old.lines ≤ most_heads }
    requires ended { (lines.old.ended ≡ true) → IsAtEnd (S.left src.old) }
    ensures head { ReadsHead result draft.now (S.left src.old) (S.left src.new) (S.faults src.old) (S.faults src.new) lines.old lines.new }
    ensures ended { (lines.new.ended ≡ true) → IsAtEnd (S.left src.new) }
    ensures count { S.faults src.old ≤ S.faults src.new }
{
    match lines.find(src) {
        Next::Line(n) => match read_head(lines.line(n)) {
            Ok(line) => {
                if !draft.accepts(&line) {
                    return Err(NoHead::Refused(8));
                }
                lines.take(n);
                Ok(line)
            }
            Err(fault) => Err(NoHead::Refused(fault.rule)),
        },
        Next::Nothing => Err(NoHead::Short),
        Next::LineTooLong => Err(NoHead::Refused(1)),
        Next::ReadFault => Err(NoHead::ReadFault),
    }
}
