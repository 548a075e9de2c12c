// The calls that a record keeps.

/// What a file is opened for.
#[derive(Clone, Copy, Drop)]
pub enum Opening {
    /// To read it.
    Read,
    /// To write it from its first byte on. One that isn't there is made.
    Write,
    /// To write it, where it isn't there yet. It is made.
    New,
    /// To write after its bytes. One that isn't there is made.
    Append,
}

/// A call that has been answered.
#[derive(Clone, Copy, Drop)]
pub enum Call<'a> {
    /// A file was opened by its name, or couldn't be.
    Open {
        opening: Opening,
        name: &'a str,
        answered: bool,
    },
    /// The null device or the root folder was opened, so that it takes a number, or neither could be.
    Hold {
        answered: bool,
    },
    /// So many bytes of a file were asked for, from a place on. These came, unless it failed.
    Read {
        name: &'a str,
        place: u64,
        asked: usize,
        bytes: &'a [u8],
        done: bool,
    },
    /// A file was made present and empty, or couldn't be.
    Begin {
        name: &'a str,
        done: bool,
    },
    /// A piece was added to a file, or couldn't be.
    Add {
        name: &'a str,
        piece: &'a [u8],
        done: bool,
    },
    /// A piece was written to a stream, or couldn't be.
    Say {
        piece: &'a [u8],
        done: bool,
    },
}
