// The command show [EDITION] [--text | --json] FILE: a card for people, as text that make takes, or as JSON.
// What the card says is `reader`'s, its letters are `letters`'s. Files and words of the command line are looked at here.
// The whole answer is put together before any of it is written.
#![tactic(auto)]

mod json;
mod meanings;
mod people;
mod plain;
mod values;

ghost use Rattle.std.specs.Prelude.{◌<◌};

use card::Record;
use edition::Edition;
use files::Outside;
use std::io::Read;

const PEOPLE: u8 = 0;

const TEXT: u8 = 1;

const JSON: u8 = 2;

// Writes what stands in a room up to a place.
fn write_out<R: Outside>(rt: &R, room: &[u8], size: usize) -> u8
    ensures { result < 4 }
{
    match room.get(..size) {
        Some(part) => words::written(rt, files::write_all(rt, part)),
        None => words::written(rt, false),
    }
}

// Puts a record in the form that was asked for.
fn put_record(room: &mut [u8], content: Record, form: u8) -> usize {
    if form == TEXT {
        return plain::put_text(room, content);
    }
    if form == JSON {
        return json::put_json(room, content);
    }
    people::put_card(room, content)
}

// Shows a record.
fn show_record<R: Outside>(rt: &R, content: Record, form: u8) -> u8
    ensures { result < 4 }
{
    let mut room = [0u8; 4096];
    let size = put_record(&mut room, content, form);
    write_out(rt, &room, size)
}

// Shows the card in an open file.
fn show_card<R: Outside>(rt: &R, edition: Edition, file: &mut impl Read, form: u8) -> u8
    ensures { result < 4 }
{
    let mut image = [0u8; 257];
    let length = files::read_full(file, &mut image);
    let reading = reader::read(edition, &image[..length]);
    let refusal = reading.refusal;
    if refusal.number != 0 {
        words::say_refused(rt, edition, &image[..length]);
        return words::REFUSED;
    }
    show_record(rt, reading.content, form)
}

// Shows the card in the file that word i names.
fn show_file<R: Outside>(rt: &R, edition: Edition, i: usize, form: u8) -> u8
    ensures { result < 4 }
{
    let mut path = [0u8; 4096];
    let length = files::arg(rt, i, &mut path);
    let Some(mut file) = files::open(rt, &path[..length]) else {
        return words::FAILED;
    };
    show_card(rt, edition, &mut file, form)
}

// The form that word i names; for another word the one for people.
fn form_at<R: Outside>(rt: &R, i: usize) -> u8 {
    let mut word = [0u8; 16];
    let length = files::arg(rt, i, &mut word);
    if ground_parts::is_same(&word[..length], b"--text") {
        return TEXT;
    }
    if ground_parts::is_same(&word[..length], b"--json") {
        return JSON;
    }
    PEOPLE
}

fn misused<R: Outside>(rt: &R) -> u8
    ensures { result < 4 }
{
    words::misused(
        rt,
        b"show takes one file, and before it an edition, and --text or --json",
    )
}

// One word before the file.
fn run_one<R: Outside>(rt: &R) -> u8
    ensures { result < 4 }
{
    let form = form_at(rt, 2);
    if form != PEOPLE {
        return show_file(rt, words::default_edition(), 3, form);
    }
    let chosen = tables::edition_at(rt, 2);
    if chosen.status != words::DONE {
        return chosen.status;
    }
    show_file(rt, chosen.edition, 3, PEOPLE)
}

// Two words before the file: an edition, which is word i, and a form, in any order.
fn run_two<R: Outside>(rt: &R, i: usize, form: u8) -> u8
    ensures { result < 4 }
{
    if form == PEOPLE {
        return misused(rt);
    }
    let chosen = tables::edition_at(rt, i);
    if chosen.status != words::DONE {
        return chosen.status;
    }
    show_file(rt, chosen.edition, 4, form)
}

pub fn run<R: Outside>(rt: &R) -> u8
    ensures { result < 4 }
{
    let count = files::arg_count(rt);
    if count == 3 {
        return show_file(rt, words::default_edition(), 2, PEOPLE);
    }
    if count == 4 {
        return run_one(rt);
    }
    if count != 5 {
        return misused(rt);
    }
    if form_at(rt, 2) == PEOPLE {
        return run_two(rt, 2, form_at(rt, 3));
    }
    run_two(rt, 3, form_at(rt, 2))
}
