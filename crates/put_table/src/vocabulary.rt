// A word of a table's text, put by its number.
ghost use Rattle.std.specs.Prelude.{◌≡◌, ◌+◌, ◌-◌, ◌<◌, ◌≤◌, length, take, drop};
ghost use Rattle.ground.specs.Rooms.{Put};
ghost use Rattle.table_text.specs.Vocabulary.{word_of};

fn put_part(room: &mut [u8], at: usize, words: &[u8], start: usize, end: usize) -> usize
    requires { (start ≤ end) × (end ≤ length words.now) × (at + (end - start) ≤ length room.old) }
    ensures { Put room.old at (take (end - start) (drop start words.now)) room.new result }
{
    ground_room::put(room, at, &words[start..end])
}

// Puts word i.
pub(crate) fn put_word(room: &mut [u8], at: usize, i: usize) -> usize
    requires { (i < 29) × (at + 16 ≤ length room.old) }
    ensures put { Put room.old at (word_of i) room.new result }
    ensures upper_bound { result ≤ at + 16 }
{
    let start = table_words::start_of(i);
    let end = table_words::start_of(i + 1);
    put_part(
        room,
        at,
        b"fund-namefund-numberoffice-codeinsured-numberstatusstatus-additiontitlegiven-namename-prefixfamily-namebirth-datestreetcountrypostal-codetownvaliditychecksumrequiredoptionaldigitstextleadcodebirthexpiryrawtext-not-deditionnone",
        start,
        end,
    )
}
