// Runs the cases on standard input through the calls of the C interface and writes an answer line for each.
// Which cases, and what their answers should be, is the second program's: `second cases` and `second answer`.
// A case that is cut off or malformed ends the run with the line END.
#![tactic(auto)]

use std::io;
use std::io::{BufReader, BufWriter, Read, Write};

// Cards: read, written, numbered, printed; and two tables, one in the other.
fn run_card<R: Read, W: Write>(input: &mut R, output: &mut W, kind: u8) -> io::Result<bool> {
    match kind {
        b'R' => cases_cards::run_read(input, output),
        b'W' => cases_cards::run_write(input, output),
        b'N' => cases_cards::run_renumber(input, output),
        b'T' => cases_front::run_front(input, output),
        b'E' => cases_nested::run_nested(input, output),
        _ => Ok(false),
    }
}

// An image, or two: places, a host's command, the fresher, the differences, a rewriting.
fn run_images<R: Read, W: Write>(
    input: &mut R,
    output: &mut W,
    kind: u8,
    room: &mut [u8],
) -> io::Result<bool> {
    match kind {
        b'P' => cases_places::run_places(input, output, room),
        b'H' => cases_places::run_host(input, output, room),
        b'F' => cases_fresher::run_fresher(input, output, room),
        b'D' => cases_differences::run_differences(input, output, room),
        b'S' => cases_plans::run_rewriting(input, output, room, false),
        b'C' => cases_plans::run_rewriting(input, output, room, true),
        _ => run_card(input, output, kind),
    }
}

// A day file.
fn run_day<R: Read, W: Write>(
    input: &mut R,
    output: &mut W,
    kind: u8,
    room: &mut [u8],
) -> io::Result<bool> {
    match kind {
        b'K' => cases_days::run_count(input, output),
        b'I' => cases_days::run_image(input, output),
        b'Q' => cases_days::run_find(input, output, room),
        b'A' => cases_days::run_add(input, output, room),
        b'B' => cases_days::run_build(input, output),
        _ => run_images(input, output, kind, room),
    }
}

// Sweeps: each value of a byte. And other sizes than right ones.
fn run_sweep<R: Read, W: Write>(
    input: &mut R,
    output: &mut W,
    kind: u8,
    room: &mut [u8],
) -> io::Result<bool> {
    match kind {
        b'Z' => cases_sizes::run_sizes(input, output),
        b'V' => cases_sweeps::run_sweep(input, output, room),
        b'M' => cases_sweeps::run_pair_sweep(input, output, room),
        b'O' => cases_sweeps::run_record_sweep(input, output),
        b'X' => cases_sweeps::run_table_sweep(input, output, room),
        _ => run_day(input, output, kind, room),
    }
}

// Foreign cards: a length field, a tree, a tree written back; else one of the others.
fn run_kind<R: Read, W: Write>(
    input: &mut R,
    output: &mut W,
    kind: u8,
    room: &mut [u8],
) -> io::Result<bool> {
    match kind {
        b'L' => cases_foreign::run_length(input, output, room),
        b'G' => cases_trees::run_tree(input, output),
        b'U' => cases_trees::run_tree_write(input, output),
        _ => run_sweep(input, output, kind, room),
    }
}

// Runs one case and answers whether to go on.
fn run_case<R: Read, W: Write>(input: &mut R, output: &mut W) -> io::Result<bool> {
    let mut kind = [0u8; 1];
    if !cases::get(input, &mut kind)? {
        return Ok(false);
    }
    let mut room = [0u8; 600];
    let is_whole = run_kind(input, output, kind[0], &mut room)?;
    if !is_whole {
        output.write_all(b"END\n")?;
    }
    Ok(is_whole)
}

// Nothing says that the input ends, so the loop counts its turns, up to a number that no run reaches.
fn main(rt: HostRuntime) -> io::Result<()> {
    let alloc = rt.alloc();
    let mut input = BufReader::new(alloc, rt.stdin())?;
    let mut output = BufWriter::new(alloc, rt.stdout())?;
    for _ in 0..u64::MAX {
        if !run_case(&mut input, &mut output)? {
            break;
        }
    }
    output.flush()
}
