// Writing the map of a run.
ghost use Rattle.std.specs.Prelude.{◌≡◌, ◌++◌, ℕ, List, Option, OnOk, OnErr};
ghost use Rattle.avf_base.specs.Causes.{HasCause};
ghost use Rattle.avf_base.specs.Moves.{Grows, GrowsByFront};
ghost use Rattle.class_map.specs.Texts as texts;
ghost use Rattle.class_map.specs.Written.{IsFrontWritten, IsMapWritten, IsOnItsWay, IsTextWritten};

use crate::map_line::MapLine;
use crate::next::next_line;
use crate::text::{head_text, line_text};
use ace_rules::Analysis;
use avf_base::{Failed, Sink, TextBuffer, write_all};

fn write_head<K: Sink>(a: &Analysis<'_>, out: &mut K) -> Result<(), Failed>
    ensures ok { OnOk result (Grows (K.taken out.old) (K.taken out.new) (texts.head_text a.now.r.cycles a.now.r.instructions)) }
    ensures err { OnErr result (GrowsByFront (K.taken out.old) (K.taken out.new) (texts.head_text a.now.r.cycles a.now.r.instructions)) }
    ensures cause { HasCause (K.faults out.old) (K.faults out.new) result }
{
    let recorded = a.recorded();
    let text = head_text(recorded.cycles(), recorded.instructions());
    write_all(out, text.as_str().as_bytes())
}

// Adds a line to the text on its way to a sink, unless a write failed before.
#[tactic(auto, using(crate::proofs::MapsWritten::more_way, crate::proofs::MapsWritten::failed_way))]
fn add_line<K: Sink>(
    so_far: Result<(), Failed>,
    line: &MapLine,
    buffer: &mut TextBuffer,
    out: &mut K,
) -> Result<(), Failed>
    ensures way { (old : Option (List ℕ)) (text : List ℕ) → IsOnItsWay old (K.taken out.old) buffer.old text so_far
        → IsOnItsWay old (K.taken out.new) buffer.new (text ++ texts.ended (texts.spelled line.now)) result }
    ensures cause { (before : ℕ) → HasCause before (K.faults out.old) so_far → HasCause before (K.faults out.new) result }
{
    match so_far {
        Ok(()) => buffer.add(out, line_text(line).as_str().as_bytes()),
        Err(Failed) => Err(Failed),
    }
}

// Gives the end of the text to the sink, unless a write failed before.
#[tactic(auto, using(crate::proofs::MapsWritten::end_way))]
fn end_text<K: Sink>(
    so_far: Result<(), Failed>,
    buffer: &mut TextBuffer,
    out: &mut K,
) -> Result<(), Failed>
    ensures written { (old : Option (List ℕ)) (text : List ℕ) → IsOnItsWay old (K.taken out.old) buffer.old text so_far
        → IsTextWritten old (K.taken out.new) text result }
    ensures cause { (before : ℕ) → HasCause before (K.faults out.old) so_far → HasCause before (K.faults out.new) result }
{
    match so_far {
        Ok(()) => buffer.flush(out),
        Err(Failed) => Err(Failed),
    }
}

/// Writes the map of a run: three lines on the run, and a line for each largest interval of cycles in which a bit is un-ACE by one rule.
/// The three lines are written at once, and the others whenever the next doesn't fit behind 65,536 bytes of them. Where a write fails, a
/// front of the map was taken: nothing more is written, and the other lines are worked out all the same. It takes no memory.
pub fn write_map<K: Sink>(a: &Analysis<'_>, out: &mut K) -> Result<(), Failed>
    ensures ok { OnOk result (IsMapWritten a.now (K.taken out.old) (K.taken out.new)) }
    ensures err { OnErr result (IsFrontWritten a.now (K.taken out.old) (K.taken out.new)) }
    ensures cause { HasCause (K.faults out.old) (K.faults out.new) result }
{
    a.recorded().is_record();
    let mut so_far = write_head(a, out);
    let mut buffer = TextBuffer::new();
    let mut last = None;
    while let Some(line) = next_line(a, last.as_ref()) {
        so_far = add_line(so_far, &line, &mut buffer, out);
        last = Some(line);
    }
    end_text(so_far, &mut buffer, out)
}
