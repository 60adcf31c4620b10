//! Calls methods and operators, and prints what each gives.
//!
//! A line of the standard input is a case, as a JSON object: `call` names a method, `on` is its target and `with` lists its
//! arguments; `op` is an operator between `left` and `right`, or before `right` where there is no `left`. Where `then` names
//! a method, it is called on the value that comes. A value is JSON, and an object with one of these keys stands for another:
//! `bytes` for the bytes of its text, `deleted`, `nothing` and `failed` for what is no value, `rising` and `falling` for a
//! list of that many numbers from 0 or down to 0, `repeated` for a text that many (`times`) times, `list` for a list whose
//! elements are read so too. What comes stands on the line after the case.
#![tactic(auto)]

mod cases;
mod shown;

use bt_value::{Val, read_json};
use std::alloc::{AllocError, Global};
use std::io;

// What comes of the case of the line.
fn report(alloc: Global, line: &str) -> Result<String, AllocError> {
    let Ok(Val::Obj(case)) = read_json(alloc, line.as_bytes()) else {
        return format!(in alloc; "{line}\n  no case\n");
    };
    match cases::outcome(alloc, case) {
        Ok(out) => match shown::outcome(alloc, &out) {
            Ok(text) => format!(in alloc; "{line}\n  {}\n", text.as_str()),
            Err(_) => format!(in alloc; "{line}\n  no memory\n"),
        },
        Err(_) => format!(in alloc; "{line}\n  no memory\n"),
    }
}

fn main(rt: HostRuntime) -> io::Result<()> {
    for line in rt.lines(rt.alloc()) {
        let text = report(rt.alloc(), line?.as_str())?;
        print!(rt; "{text}")?;
    }
    Ok(())
}
