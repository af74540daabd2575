/// Why a session stopped.
#[derive(Clone, Copy, Debug, PartialEq, Eq)]
pub enum Stopped {
    /// A command of the program ended with another status than 0. Its note says more.
    Status,
    /// Two files that are to be the same aren't.
    Differ,
    /// A file isn't there, has more than `FILE_LIMIT` bytes, or couldn't be read or stored.
    File,
    /// A line is none that a session has.
    Form,
    /// There was no memory.
    NoMemory,
}

impl Stopped {
    /// The note on it, a line.
    pub fn text(self) -> &'static [u8] {
        match self {
            Stopped::Status => b"session: a command failed\n",
            Stopped::Differ => b"session: two files differ\n",
            Stopped::File => b"session: no such file\n",
            Stopped::Form => b"session: no such command\n",
            Stopped::NoMemory => b"session: no memory\n",
        }
    }
}
