// The reports.
ghost use Rattle.std.specs.Prelude.{◌≡◌, ◌≤◌, ◌++◌, OnOk, OnErr};
ghost use Rattle.shelf_traits.specs.Files.{Told, Rose};
ghost use Rattle.shelf_traits.specs.Written.{Says};
ghost use Rattle.synth_report.specs.Texts.{fails_line, report_of, upgrade_line};
ghost use Rattle.synth_report.specs.Lines.{line_text};
ghost use Rattle.synth_report.specs.Telling.{TellsText, joined_texts};

use crate::piece::{Piece, tell};
use crate::summary::Summary;
use cells::Size;
use shelf_traits::{Sink, WriteFault};

// A line of a report.
#[derive(Clone, Copy)]
enum Line<'a> {
    Text(&'a str),
    Count(&'a str, u64),
    Area(&'a str, Size),
}

fn tell_line<O: Sink>(line: Line<'_>, sink: &mut O) -> Result<(), WriteFault>
    ensures { TellsText (line_text line.entry) (O.state sink.old) (O.state sink.new) result }
{
    match line {
        Line::Text(text) => tell(&[Piece::Text(text)], sink),
        Line::Count(name, n) => tell(
            &[
                Piece::Text(name),
                Piece::Text(" "),
                Piece::Number(n),
                Piece::Text("\n"),
            ],
            sink,
        ),
        Line::Area(name, size) => tell(
            &[
                Piece::Text(name),
                Piece::Text(" "),
                Piece::Short(size.w),
                Piece::Text("x"),
                Piece::Short(size.h),
                Piece::Text("x"),
                Piece::Short(size.f),
                Piece::Text("\n"),
            ],
            sink,
        ),
    }
}

fn tell_lines<O: Sink>(lines: &[Line<'_>], sink: &mut O) -> Result<(), WriteFault>
    ensures { TellsText (joined_texts line_text lines.now)
        (O.state sink.old) (O.state sink.new) result }
{
    for line in lines {
        tell_line(*line, sink)?;
    }
    Ok(())
}

fn tell_fails<O: Sink>(number: u64, rule: u32, place: u64, sink: &mut O) -> Result<(), WriteFault>
    ensures { TellsText (fails_line number rule place)
        (O.state sink.old) (O.state sink.new) result }
{
    tell(
        &[
            Piece::Text("fails record "),
            Piece::Number(number),
            Piece::Text(" rule "),
            Piece::Short(rule),
            Piece::Text(" place "),
            Piece::Number(place),
            Piece::Text("\n"),
        ],
        sink,
    )
}

fn tell_upgrade<O: Sink>(cells: u64, cuts: u64, sink: &mut O) -> Result<(), WriteFault>
    ensures { TellsText (upgrade_line cells cuts) (O.state sink.old) (O.state sink.new) result }
{
    tell(
        &[
            Piece::Text("upgrade "),
            Piece::Number(cells),
            Piece::Text(" "),
            Piece::Number(cuts),
            Piece::Text("\n"),
        ],
        sink,
    )
}

fn tell_summary<O: Sink>(summary: Summary, sink: &mut O) -> Result<(), WriteFault>
    ensures { TellsText (report_of summary) (O.state sink.old) (O.state sink.new) result }
{
    match summary {
        Summary::Grow {
            size,
            placements,
            rounds,
            seams,
        } => tell_lines(
            &[
                Line::Area("grow", size),
                Line::Count("placements", placements),
                Line::Count("rounds", rounds),
                Line::Count("seams", seams),
            ],
            sink,
        ),
        Summary::Quilt {
            size,
            blocks,
            boundaries,
            cost,
        } => tell_lines(
            &[
                Line::Area("quilt", size),
                Line::Count("blocks", blocks),
                Line::Count("boundaries", boundaries),
                Line::Count("cost", cost),
            ],
            sink,
        ),
        Summary::Loop {
            length,
            start,
            cost,
        } => tell_lines(
            &[
                Line::Count("loop", u64::from(length)),
                Line::Count("start", u64::from(start)),
                Line::Count("cost", cost),
            ],
            sink,
        ),
        Summary::Stands => tell_lines(&[Line::Text("stands\n")], sink),
        Summary::Fails {
            number,
            rule,
            place,
        } => tell_fails(number, rule, place, sink),
        Summary::Trial {
            n,
            size,
            placements,
            rounds,
            seams,
        } => tell_lines(
            &[
                Line::Count("trial", u64::from(n)),
                Line::Text("sample 64x64x1\n"),
                Line::Area("grow", size),
                Line::Count("placements", placements),
                Line::Count("rounds", rounds),
                Line::Count("seams", seams),
                Line::Text("record stands\n"),
            ],
            sink,
        ),
        Summary::Upgrade { cells, cuts } => tell_upgrade(cells, cuts, sink),
        Summary::Transfer {
            size,
            blocks,
            boundaries,
            cost,
            matched,
        } => tell_lines(
            &[
                Line::Area("transfer", size),
                Line::Count("blocks", blocks),
                Line::Count("boundaries", boundaries),
                Line::Count("cost", cost),
                Line::Count("match", matched),
            ],
            sink,
        ),
        Summary::Merge {
            size,
            pictures,
            seams,
        } => tell_lines(
            &[
                Line::Area("merge", size),
                Line::Count("pictures", u64::from(pictures)),
                Line::Count("seams", seams),
            ],
            sink,
        ),
        Summary::Tile {
            size,
            placements,
            seams,
        } => tell_lines(
            &[
                Line::Area("tile", size),
                Line::Count("placements", placements),
                Line::Count("seams", seams),
            ],
            sink,
        ),
    }
}

/// Tells a sink the report of a summary. Where the sink fails, it has a prefix of the report.
pub fn report<O: Sink>(summary: &Summary, sink: &mut O) -> Result<(), WriteFault>
    ensures told { OnOk result (Told (O.state sink.old).bytes (O.state sink.new).bytes
        (λ was now. now ≡ was ++ report_of summary.now)) }
    ensures says { Says (O.state sink.old) (O.state sink.new) (report_of summary.now) }
    ensures failed { OnErr result (Rose (O.state sink.old).faults (O.state sink.new).faults) }
    ensures counted { (O.state sink.old).faults ≤ (O.state sink.new).faults }
{
    tell_summary(*summary, sink)
}
