//! How a command ended.

/// How a command ended, as the program's exit status from 0 to 7.
#[derive(Clone, Copy, Debug, PartialEq, Eq)]
pub enum Status {
    /// 0: none of the others.
    Done,
    /// 1: an item was refused for another cause than memory.
    Refused,
    /// 2: the words aren't of a command's form.
    Words,
    /// 3: the configuration isn't one that runs.
    Config,
    /// 4: a file couldn't be read or opened, or a source failed.
    Input,
    /// 5: an output failed.
    Output,
    /// 6: want of memory.
    Memory,
    /// 7: the input's bound was met.
    Bound,
}
