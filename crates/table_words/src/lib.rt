// The words of a table's text, by their numbers: 0 to 16 the names of the rows, 17 required, 18 optional, 19 to 26 the rules, 27 edition, 28 none.
// Any word and any number may be lent.
// The words stand in one string, each from its start to the next one's; past the last there is the empty word, which starts at 0.
#![tactic(auto)]

ghost use Rattle.std.specs.Prelude.{◌≡◌, ◌-◌, ◌≤◌, length, take, drop};
ghost use Rattle.ground.specs.Lists.{same_list};
ghost use Rattle.table_text.specs.Vocabulary.{word_of, start_of};

// Where word i starts in the string of all words.
pub fn start_of(i: usize) -> usize
    ensures { result ≡ start_of i }
{
    ground_parts::byte_at(
        b"\x00\x09\x14\x1F\x2D\x33\x42\x47\x51\x5C\x67\x71\x77\x7E\x89\x8D\x95\x9D\xA5\xAD\xB3\xB7\xBB\xBF\xC4\xCA\xCD\xD7\xDE\xE2",
        i,
    ) as usize
}

fn is_part(word: &[u8], words: &[u8], start: usize, end: usize) -> bool
    requires { (start ≤ end) × (end ≤ length words.now) }
    ensures { result ≡ same_list word.now (take (end - start) (drop start words.now)) }
{
    ground_parts::is_same(word, &words[start..end])
}

// Whether this is word i; past the last, whether it is empty.
pub fn is_word(word: &[u8], i: usize) -> bool
    ensures { result ≡ same_list word.now (word_of i) }
{
    if i >= 29 {
        return ground_parts::is_same(word, b"");
    }
    let start = start_of(i);
    let end = start_of(i + 1);
    is_part(
        word,
        b"fund-namefund-numberoffice-codeinsured-numberstatusstatus-additiontitlegiven-namename-prefixfamily-namebirth-datestreetcountrypostal-codetownvaliditychecksumrequiredoptionaldigitstextleadcodebirthexpiryrawtext-not-deditionnone",
        start,
        end,
    )
}
