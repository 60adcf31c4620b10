//! The program `benthos` over the real outside.
#![tactic(auto)]

mod words;

use bt_commands::status::Status;
use bt_outside::RealWorld;
use bt_ports::NoMemory;
use bt_ports::world::World;
use bt_top::command::benthos;
use std::process::ExitCode;
use words::words;

fn exit_code(status: Status) -> ExitCode {
    ExitCode::from(match status {
        Status::Done => 0,
        Status::Refused => 1,
        Status::Words => 2,
        Status::Config => 3,
        Status::Input => 4,
        Status::Output => 5,
        Status::Memory => 6,
        Status::Bound => 7,
    })
}

fn main(rt: HostRuntime) -> ExitCode {
    let alloc = rt.alloc();
    let words = words(&rt);
    let mut world = RealWorld::make(rt);
    exit_code(match words {
        Ok(words) => benthos(alloc, words.as_slice(), &mut world),
        Err(NoMemory) => {
            world.err(b"no memory");
            Status::Memory
        }
    })
}
