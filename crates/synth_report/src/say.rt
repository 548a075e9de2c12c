// The lines of faults.
ghost use Rattle.std.specs.Prelude.{◌≡◌, ◌≤◌, ◌++◌, OnOk, OnErr};
ghost use Rattle.shelf_traits.specs.Files.{Told, Rose};
ghost use Rattle.shelf_traits.specs.Written.{Says};
ghost use Rattle.synth_report.specs.Texts.{axis_text, what_text, word_line, file_line, place_line, plain_line, words_line, form_line, fault_line};
ghost use Rattle.synth_report.specs.Telling.{TellsText};

use crate::fault::{Fault, FileOf};
use crate::piece::{Piece, tell};
use cells::Axis;
use job_words::{Key, WordFault};
use shelf_traits::{FormFault, Sink, What, WriteFault};

// What is counted, as a line names it.
fn text_of_what(what: What) -> &'static str
    ensures { result.now ≡ what_text what }
{
    match what {
        What::Axis => "axis",
        What::Cells => "cells",
        What::Header => "header",
        What::Frames => "frames",
        What::Output => "output",
        What::Loop => "loop",
        What::Records => "records",
        What::Parts => "parts",
    }
}

// An axis, as a line names it.
fn text_of_axis(axis: Axis) -> &'static str
    ensures { result.now ≡ axis_text axis }
{
    match axis {
        Axis::X => "x",
        Axis::Y => "y",
        Axis::F => "f",
    }
}

fn tell_plain<E: Sink>(text: &str, sink: &mut E) -> Result<(), WriteFault>
    ensures { TellsText (plain_line text.now) (E.state sink.old) (E.state sink.new) result }
{
    tell(
        &[Piece::Text("weave: "), Piece::Text(text), Piece::Text("\n")],
        sink,
    )
}

fn tell_word<E: Sink>(i: u32, why: &str, sink: &mut E) -> Result<(), WriteFault>
    ensures { TellsText (word_line i why.now) (E.state sink.old) (E.state sink.new) result }
{
    tell(
        &[
            Piece::Text("weave: word "),
            Piece::Short(i),
            Piece::Text(": "),
            Piece::Text(why),
            Piece::Text("\n"),
        ],
        sink,
    )
}

fn tell_file<E: Sink>(file: FileOf, why: &str, sink: &mut E) -> Result<(), WriteFault>
    ensures { TellsText (file_line file why.now) (E.state sink.old) (E.state sink.new) result }
{
    tell(
        &[
            Piece::Text("weave: "),
            Piece::Text(file.stem()),
            Piece::Maybe(file.number()),
            Piece::Text(": "),
            Piece::Text(why),
            Piece::Text("\n"),
        ],
        sink,
    )
}

fn tell_place<E: Sink>(file: FileOf, why: &str, at: u64, sink: &mut E) -> Result<(), WriteFault>
    ensures { TellsText (place_line file why.now at) (E.state sink.old) (E.state sink.new) result }
{
    tell(
        &[
            Piece::Text("weave: "),
            Piece::Text(file.stem()),
            Piece::Maybe(file.number()),
            Piece::Text(": "),
            Piece::Text(why),
            Piece::Text(" at "),
            Piece::Number(at),
            Piece::Text("\n"),
        ],
        sink,
    )
}

fn tell_words<E: Sink>(fault: WordFault, sink: &mut E) -> Result<(), WriteFault>
    ensures { TellsText (words_line fault) (E.state sink.old) (E.state sink.new) result }
{
    match fault {
        WordFault::NoCommand => tell_plain("no command", sink),
        WordFault::UnknownCommand => tell_plain("unknown command", sink),
        WordFault::BadWord(i) => tell_word(i, "not key=value", sink),
        WordFault::UnknownKey(i) => tell_word(i, "unknown key", sink),
        WordFault::Repeated(i) => tell_word(i, "repeated key", sink),
        WordFault::Missing(key) => tell(
            &[
                Piece::Text("weave: missing key "),
                Piece::Text(key.stem()),
                Piece::Maybe(key.number()),
                Piece::Text("\n"),
            ],
            sink,
        ),
        WordFault::BadValue(i) => tell_word(i, "bad value", sink),
        WordFault::OutOfRange(i) => tell_word(i, "out of range", sink),
        WordFault::SameName(i) => tell_word(i, "name already used", sink),
        WordFault::NoMemory => tell_plain("no memory", sink),
        WordFault::Narrow(axis) => tell(
            &[
                Piece::Text("weave: wrapped axis "),
                Piece::Text(text_of_axis(axis)),
                Piece::Text(" under 3\n"),
            ],
            sink,
        ),
    }
}

fn tell_form<E: Sink>(file: FileOf, why: FormFault, sink: &mut E) -> Result<(), WriteFault>
    ensures { TellsText (form_line file why) (E.state sink.old) (E.state sink.new) result }
{
    match why {
        FormFault::Form(at) => tell_place(file, "form", at, sink),
        FormFault::Depth => tell_file(file, "depth", sink),
        FormFault::Space => tell_file(file, "colour space", sink),
        FormFault::Cell => tell_file(file, "cell", sink),
        FormFault::NoFrames => tell_file(file, "no frames", sink),
        FormFault::Sample(at) => tell_place(file, "value", at, sink),
        FormFault::Trailing(at) => tell_place(file, "trailing", at, sink),
    }
}

fn tell_fault<E: Sink>(fault: Fault, sink: &mut E) -> Result<(), WriteFault>
    ensures { TellsText (fault_line fault) (E.state sink.old) (E.state sink.new) result }
{
    match fault {
        Fault::Words(fault) => tell_words(fault, sink),
        Fault::Form { file, why } => tell_form(file, why, sink),
        Fault::Unlike(file) => tell_file(file, "unlike", sink),
        Fault::Mark(index) => tell_place(FileOf::Marks, "mark", u64::from(index), sink),
        Fault::Limit {
            what,
            number,
            bound,
        } => tell(
            &[
                Piece::Text("weave: limit "),
                Piece::Text(text_of_what(what)),
                Piece::Text(" "),
                Piece::Number(number),
                Piece::Text(" over "),
                Piece::Number(bound),
                Piece::Text("\n"),
            ],
            sink,
        ),
        Fault::Read(file) => tell_file(file, "read fault", sink),
        Fault::Write(file) => tell_file(file, "write fault", sink),
        Fault::NoMemory => tell_plain("no memory", sink),
        Fault::NoLoop(length) => tell(
            &[
                Piece::Text("weave: no loop of length "),
                Piece::Short(length),
                Piece::Text("\n"),
            ],
            sink,
        ),
    }
}

/// Tells a sink the line of a fault. Where the sink fails, it has a prefix of the line.
pub fn say_fault<E: Sink>(fault: &Fault, sink: &mut E) -> Result<(), WriteFault>
    ensures told { OnOk result (Told (E.state sink.old).bytes (E.state sink.new).bytes
        (λ was now. now ≡ was ++ fault_line fault.now)) }
    ensures says { Says (E.state sink.old) (E.state sink.new) (fault_line fault.now) }
    ensures failed { OnErr result (Rose (E.state sink.old).faults (E.state sink.new).faults) }
    ensures counted { (E.state sink.old).faults ≤ (E.state sink.new).faults }
{
    tell_fault(*fault, sink)
}
