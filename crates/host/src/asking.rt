// What is asked: the command taken apart, the image read, the range found.
ghost use Rattle.std.specs.Prelude.{◌≡◌, ◌+◌, ◌*◌, ◌≤◌, length};
ghost use Rattle.host.specs.Steps.{command_of, declined, range_of, asked_of};

use card::Refusal;
use edition::Edition;

// The range that a command asks for.
#[derive(Clone, Copy)]
struct Command {
    offset: u16,
    count: u8,
}

// The first byte of the two that end an answer, and where the bytes before them stand in the image.
#[derive(Clone, Copy)]
pub(crate) struct Asked {
    pub status: u8,
    pub start: usize,
    pub count: u8,
}

fn word(high: u8, low: u8) -> u16
    ensures { result ≡ high * 256 + low }
{
    high as u16 * 256 + low as u16
}

// The range, or the first byte of the two that decline the command: '6700', then '6D00'.
fn parse(command: &[u8]) -> Result<Command, u8>
    ensures { result ≡ command_of command.now }
{
    if command.len() != 5 {
        return Err(0x67);
    }
    let count = command[4];
    if count == 0 {
        return Err(0x67);
    }
    if !((command[0] == 0x00) & (command[1] == 0xB0)) {
        return Err(0x6D);
    }
    Ok(Command {
        offset: word(command[2], command[3]),
        count,
    })
}

fn decline(status: u8) -> Asked
    ensures { result ≡ declined status }
{
    Asked {
        status,
        start: 0,
        count: 0,
    }
}

// The range, where the template, which ends before `end`, has it; else '6A00'.
fn choose(offset: u16, count: u8, end: usize) -> Asked
    ensures { result ≡ range_of offset count end }
{
    let start = 30 + offset as usize;
    if start + count as usize > end {
        return decline(0x6A);
    }
    Asked {
        status: 0x90,
        start,
        count,
    }
}

// What the command declines, then '6900', then '6A00'; else '9000' and where the bytes stand.
pub(crate) fn ask(edition: Edition, image: &[u8], command: &[u8]) -> Asked
    ensures value { result ≡ asked_of edition image.now command.now }
    ensures count_in_bounds { result.start + result.count ≤ length image.now }
{
    let parsed = match parse(command) {
        Ok(parsed) => parsed,
        Err(status) => return decline(status),
    };
    let table = reader_places::places(edition, image);
    let refusal = table.refusal;
    if refusal.number != 0 {
        return decline(0x69);
    }
    let front = frame_front::check_front(image, Refusal::none());
    choose(parsed.offset, parsed.count, front.end)
}
