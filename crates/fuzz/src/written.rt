// What can come of each command, and the files that it writes.
use crate::files::NAMES;
use test_stage::Stage;

/// The key of a file that is written, and the line of a write of it that failed.
pub type Output = (&'static str, &'static str);

/// What `check` says of the files that a command leaves.
pub enum Checked {
    /// That they stand.
    Stands,
    /// The same of the new pair as of the old one.
    Same,
    /// It isn't asked.
    Nothing,
}

/// A command, the statuses that it can end with where nothing fails, and the files that it writes,
/// in their order.
pub struct Command {
    pub name: &'static str,
    pub statuses: &'static [u8],
    pub outputs: &'static [Output],
    pub checked: Checked,
}

const STATUSES: &[u8] = &[0, 2, 3, 4, 5];

const OUTPUTS: &[Output] = &[
    ("out", "weave: out: write fault\n"),
    ("map", "weave: map: write fault\n"),
    ("record", "weave: record: write fault\n"),
];

const PICTURE_AND_MAP: &[Output] = &[
    ("out", "weave: out: write fault\n"),
    ("map", "weave: map: write fault\n"),
];

const NEW_PAIR: &[Output] = &[
    ("newmap", "weave: newmap: write fault\n"),
    ("newrecord", "weave: newrecord: write fault\n"),
];

const COMMANDS: &[Command] = &[
    Command {
        name: "grow",
        statuses: STATUSES,
        outputs: OUTPUTS,
        checked: Checked::Stands,
    },
    Command {
        name: "quilt",
        statuses: STATUSES,
        outputs: OUTPUTS,
        checked: Checked::Stands,
    },
    Command {
        name: "transfer",
        statuses: STATUSES,
        outputs: OUTPUTS,
        checked: Checked::Stands,
    },
    Command {
        name: "loop",
        statuses: &[0, 2, 3, 4, 5, 8],
        outputs: OUTPUTS,
        checked: Checked::Stands,
    },
    Command {
        name: "upgrade",
        statuses: STATUSES,
        outputs: NEW_PAIR,
        checked: Checked::Same,
    },
    Command {
        name: "tile",
        statuses: STATUSES,
        outputs: PICTURE_AND_MAP,
        checked: Checked::Nothing,
    },
    Command {
        name: "merge",
        statuses: STATUSES,
        outputs: PICTURE_AND_MAP,
        checked: Checked::Nothing,
    },
    Command {
        name: "check",
        statuses: &[0, 1, 2, 3, 4, 5],
        outputs: &[],
        checked: Checked::Nothing,
    },
    Command {
        name: "trial",
        statuses: &[0, 2, 4],
        outputs: &[],
        checked: Checked::Nothing,
    },
];

// Nothing but words is refused where there is no such command.
const NO_COMMAND: &Command = &Command {
    name: "",
    statuses: &[2],
    outputs: &[],
    checked: Checked::Nothing,
};

/// The command of the words.
pub fn command_of(texts: &[String]) -> &'static Command {
    let Some(text) = texts.first() else {
        return NO_COMMAND;
    };
    for command in COMMANDS.iter() {
        if command.name == text.as_str() {
            return command;
        }
    }
    NO_COMMAND
}

/// The value of a key; none, which no file's name is, where no word has it.
pub fn value_of<'a>(texts: &'a [String], key: &str) -> &'a str {
    for text in texts.iter() {
        if let Some((k, value)) = text.as_str().split_once('=')
            && k == key
        {
            return value;
        }
    }
    ""
}

// The number of a file among those that are written, from 0; past them all where it isn't written.
fn number_of(texts: &[String], outputs: &[Output], name: &str) -> usize {
    for (i, (key, _)) in outputs.iter().enumerate() {
        if value_of(texts, *key) == name {
            return i;
        }
    }
    usize::MAX
}

/// The number of the file whose write the line says failed.
pub fn stopped_at(outputs: &[Output], line: &[u8]) -> Option<usize> {
    for (i, (_, said)) in outputs.iter().enumerate() {
        if said.as_bytes() == line {
            return Some(i);
        }
    }
    None
}

// Whether a file of a number is as it is to be where a write of the file `stopped` failed: it was
// this before, it would be this whole, and it is this after.
fn is_cut_at(
    i: usize,
    stopped: usize,
    before: Option<&[u8]>,
    whole: Option<&[u8]>,
    after: Option<&[u8]>,
) -> bool {
    if i < stopped {
        return after == whole;
    }
    if after == before {
        return true;
    }
    match (after, whole) {
        (Some(after), Some(whole)) => (i == stopped) & whole.starts_with(after),
        _ => false,
    }
}

/// Whether the files stand as after a write that failed: those before the one of that number are
/// whole, that one is as before or cut off, and all others are as before. So it's the files that
/// aren't written where no file has the number.
pub fn are_cut_at(
    texts: &[String],
    stopped: usize,
    before: &Stage,
    whole: &Stage,
    after: &Stage,
) -> bool {
    let outputs = command_of(texts).outputs;
    for name in NAMES {
        let (was, text, is) = (before.file(*name), whole.file(*name), after.file(*name));
        if !is_cut_at(number_of(texts, outputs, *name), stopped, was, text, is) {
            return false;
        }
    }
    true
}
