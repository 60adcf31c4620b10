//! The fields of a case.
use bt_ports::NoMemory;
use bt_ports::parts::Calls;
use bt_ports::sequence::Sequence;
use std::alloc::Global;

/// The line of a case: what is called, and its named fields.
#[derive(Clone, Copy)]
pub(crate) struct Fields<'a> {
    pub(crate) line: &'a str,
}

/// The number that the text has, and 0 where it has none.
pub(crate) fn number(text: &str) -> u64 {
    text.parse::<u64>().unwrap_or(0)
}

impl<'a> Fields<'a> {
    /// What is called.
    pub(crate) fn name(&self) -> &'a str {
        self.line.split(' ').next().unwrap_or("")
    }

    /// The value of the field of that name, which is empty where there is none.
    pub(crate) fn get(&self, name: &str) -> &'a str {
        for part in self.line.split(' ') {
            if let Some((key, value)) = part.split_once('=') {
                if key == name {
                    return value;
                }
            }
        }
        ""
    }

    /// The numbers in the field of that name.
    pub(crate) fn numbers(&self, alloc: Global, name: &str) -> Result<Calls, NoMemory> {
        let mut all = Sequence::new(alloc);
        for member in self.get(name).split(',') {
            if let Ok(n) = member.parse::<u64>() {
                all.push(n)?;
            }
        }
        Ok(all)
    }
}

/// The numbers, with a comma between.
pub(crate) fn joined(alloc: Global, numbers: &[u64]) -> Result<String, NoMemory> {
    let mut text = String::new(alloc);
    for (i, n) in numbers.iter().enumerate() {
        if i > 0 {
            text.push(',')?;
        }
        write!(text, "{n}")?;
    }
    Ok(text)
}

/// The bytes as text, or a question mark where they are none.
pub(crate) fn shown(bytes: &[u8]) -> &str {
    str::from_utf8(bytes).unwrap_or("?")
}
