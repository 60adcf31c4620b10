//! One case.

/// A case, by the fields of its line. A field that is missing is empty, and a number that can't be read is 0.
#[derive(Clone, Copy)]
pub struct Case<'a> {
    line: &'a str,
}

impl<'a> Case<'a> {
    /// The case that the line has.
    pub fn of(line: &'a str) -> Case<'a> {
        Case { line }
    }

    /// What is done.
    pub fn action(&self) -> &'a str {
        self.line.split(';').next().unwrap_or("")
    }

    /// The text of a field.
    pub fn field(&self, name: &str) -> &'a str {
        for field in self.line.split(';') {
            if let Some((key, text)) = field.split_once('=') {
                if key == name {
                    return text;
                }
            }
        }
        ""
    }

    /// The number of a field.
    pub fn number(&self, name: &str) -> u32 {
        self.field(name).parse::<u32>().unwrap_or(0)
    }
}
