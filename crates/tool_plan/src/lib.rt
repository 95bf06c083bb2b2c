// The commands plan EDITION OLD NEW, which writes the steps one a line, and check-plan EDITION OLD NEW STEPS, which says yes or no.
// What a plan is, and when it is safe, is told by `planning` and `rewriting`; words and lines are looked at here.
// check-plan takes the lines of anyone: an address past 255 is a step too, and one past 65535 is taken as 65535.
#![tactic(auto)]

mod lines;

ghost use Rattle.std.specs.Prelude.{◌<◌};

use card::Refusal;
use edition::Edition;
use files::{Outside, Source};
use std::io::Read;

// The room for offered steps: more than the check takes, so that 60 is its to tell.
const OFFERED: usize = 300;

fn write_step<R: Outside>(rt: &R, word: u32) -> bool {
    let mut digits = [0u8; 2];
    ground_digits::put_hex(&mut digits, 0, (word % 256) as u8);
    files::print_decimal(rt, (word / 256) as u64);
    files::write_all(rt, b" ");
    files::write_all(rt, &digits);
    files::write_all(rt, b"\n")
}

// Writes the first `count` steps, a line for each.
fn write_steps<R: Outside>(rt: &R, steps: &[u32], count: usize) -> bool {
    for step in steps.iter().take(count) {
        if !write_step(rt, *step) {
            return false;
        }
    }
    true
}

fn write_refusal<R: Outside>(rt: &R, refusal: Refusal) -> bool {
    let mut tag = [0u8; 2];
    ground_digits::put_hex(&mut tag, 0, refusal.tag);
    files::write_all(rt, b"REFUSED ");
    files::print_decimal(rt, refusal.number as u64);
    files::write_all(rt, b" ");
    files::print_decimal(rt, refusal.place as u64);
    files::write_all(rt, b" ");
    files::write_all(rt, &tag);
    files::write_all(rt, b" ");
    files::print_decimal(rt, refusal.shortest as u64);
    files::write_all(rt, b" ");
    files::print_decimal(rt, refusal.longest as u64);
    files::write_all(rt, b"\n")
}

// Says what is refused.
fn explain<R: Outside>(rt: &R, number: u8, edition: Edition, new: &[u8]) {
    match number {
        20 => words::say(rt, b"a card has not 256 bytes"),
        60 => words::say(rt, b"more than 257 steps are offered"),
        _ => explain_card(rt, edition, new),
    }
}

fn explain_card<R: Outside>(rt: &R, edition: Edition, new: &[u8]) {
    words::say(rt, b"the new card is refused");
    words::say_refused(rt, edition, new);
}

fn refuse<R: Outside>(rt: &R, refusal: Refusal, edition: Edition, new: &[u8]) -> u8
    ensures { result < 4 }
{
    if !write_refusal(rt, refusal) {
        return words::written(rt, false);
    }
    explain(rt, refusal.number, edition, new);
    words::REFUSED
}

fn plan<R: Outside>(rt: &R, edition: Edition, old: &[u8], new: &[u8]) -> u8
    ensures { result < 4 }
{
    let mut room = [0u32; 257];
    let made = planning::plan(edition, old, new, &mut room);
    let refusal = made.refusal;
    if refusal.number != 0 {
        return refuse(rt, refusal, edition, new);
    }
    words::written(rt, write_steps(rt, &room, made.count))
}

fn answer<R: Outside>(rt: &R, is_safe: bool) -> u8
    ensures { result < 4 }
{
    if is_safe {
        return words::written(rt, files::write_all(rt, b"yes\n"));
    }
    if files::write_all(rt, b"no\n") {
        return words::REFUSED;
    }
    words::written(rt, false)
}

fn check<R: Outside>(rt: &R, edition: Edition, old: &[u8], new: &[u8], steps: &[u32]) -> u8
    ensures { result < 4 }
{
    let checked = rewriting::check_plan(edition, old, new, steps);
    let refusal = checked.refusal;
    if refusal.number != 0 {
        return refuse(rt, refusal, edition, new);
    }
    answer(rt, checked.safe)
}

// Checks the plan that a text has.
fn check_text<R: Outside>(rt: &R, edition: Edition, old: &[u8], new: &[u8], text: &[u8]) -> u8
    ensures { result < 4 }
{
    let mut steps = [0u32; OFFERED];
    let Some(count) = lines::read_steps(text, &mut steps) else {
        return words::misused(
            rt,
            b"a line of steps is an address, a blank, and a byte as two hex digits",
        );
    };
    check(rt, edition, old, new, &steps[..count])
}

// Opens the file that word i names.
fn open_at<R: Outside>(rt: &R, i: usize) -> Option<Source<R::Reader, R::File>> {
    let mut path = [0u8; 4096];
    let length = files::arg(rt, i, &mut path);
    files::open(rt, &path[..length])
}

// One byte more than a card has is read of each: a card with something behind it is none.
fn plan_files<R: Outside>(rt: &R, edition: Edition) -> u8
    ensures { result < 4 }
{
    let Some(mut one) = open_at(rt, 3) else {
        return words::FAILED;
    };
    let Some(mut two) = open_at(rt, 4) else {
        return words::FAILED;
    };
    let mut old = [0u8; 257];
    let m = files::read_full(&mut one, &mut old);
    let mut new = [0u8; 257];
    let n = files::read_full(&mut two, &mut new);
    plan(rt, edition, &old[..m], &new[..n])
}

fn check_open<R: Outside>(
    rt: &R,
    edition: Edition,
    one: &mut impl Read,
    two: &mut impl Read,
    three: &mut impl Read,
) -> u8
    ensures { result < 4 }
{
    let mut old = [0u8; 257];
    let m = files::read_full(one, &mut old);
    let mut new = [0u8; 257];
    let n = files::read_full(two, &mut new);
    let mut text = [0u8; 4096];
    let k = files::read_full(three, &mut text);
    check_text(rt, edition, &old[..m], &new[..n], &text[..k])
}

fn check_files<R: Outside>(rt: &R, edition: Edition) -> u8
    ensures { result < 4 }
{
    let Some(mut one) = open_at(rt, 3) else {
        return words::FAILED;
    };
    let Some(mut two) = open_at(rt, 4) else {
        return words::FAILED;
    };
    let Some(mut three) = open_at(rt, 5) else {
        return words::FAILED;
    };
    check_open(rt, edition, &mut one, &mut two, &mut three)
}

pub fn run<R: Outside>(rt: &R) -> u8
    ensures { result < 4 }
{
    if files::arg_count(rt) != 5 {
        return words::misused(rt, b"plan takes an edition and two files");
    }
    let chosen = tables::edition_at(rt, 2);
    if chosen.status != words::DONE {
        return chosen.status;
    }
    plan_files(rt, chosen.edition)
}

pub fn run_check<R: Outside>(rt: &R) -> u8
    ensures { result < 4 }
{
    if files::arg_count(rt) != 6 {
        return words::misused(
            rt,
            b"check-plan takes an edition, two files, and one with steps",
        );
    }
    let chosen = tables::edition_at(rt, 2);
    if chosen.status != words::DONE {
        return chosen.status;
    }
    check_files(rt, chosen.edition)
}
