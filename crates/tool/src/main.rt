// The program behind ./kvk: the first word names the command, the others are its own.
// What a command writes goes to standard output, what it has to say to standard error.
// The last byte of each run, on descriptor 3, is its status as a digit; the program itself ends with 0.
#![tactic(auto)]

mod length;
mod list;

ghost use Rattle.std.specs.Prelude.{◌<◌};

use files::Outside;
use std::fs::OpenOptions;
use std::io::Write;

// The commands. Apart from `main`, whose frame stays small.
#[inline(never)]
fn run<R: Outside>(rt: &R, name: &[u8]) -> u8
    ensures { result < 4 }
{
    match name {
        b"list" => list::run(rt),
        b"batch" => tool_batch::run(rt),
        b"length" => length::run(rt),
        b"show" => tool_show::run(rt),
        b"make" => tool_make::run(rt),
        b"day" => tool_day::run(rt),
        b"tree" => tool_tree::run(rt),
        b"front" => tool_front::run(rt),
        b"diff" => tool_diff::run(rt),
        b"plan" => tool_plan::run(rt),
        b"check-plan" => tool_plan::run_check(rt),
        b"fresher" => tool_fresher::run(rt),
        b"host" => tool_host::run(rt),
        b"table" => tool_table::run(rt),
        _ => words::misused(rt, b"there is no such command"),
    }
}

// Tells the status on descriptor 3, where that is open: the library opens files by their names alone, so it is named.
fn tell<R: Outside>(rt: &R, status: u8)
    requires { status < 4 }
{
    let mut options = OpenOptions::new();
    options.append(true);
    if let Ok(mut file) = options.open(rt, "/proc/self/fd/3") {
        let _ = file.write_all(&[b'0' + status]);
    }
}

fn main(rt: HostRuntime) {
    let mut name = [0u8; 16];
    let length = files::arg(&rt, 1, &mut name);
    let status = run(&rt, &name[..length]);
    tell(&rt, status);
}
