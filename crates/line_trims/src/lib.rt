// A line without what people do not see: the blanks at its head, and a carriage return at its end.
// Any bytes may be lent; a line is lent without its line feed.
// A tab is no blank, and blanks at the end stay: they are part of what the line says.
#![tactic(auto)]

ghost use Rattle.std.specs.Prelude.{◌≡◌, eqb};
ghost use Rattle.ground.specs.Lists.{leading};
ghost use Rattle.card_lines.specs.Lines.{without_return, trimmed};

// How many blanks stand at the head of a line.
fn count_blanks(line: &[u8]) -> usize
    ensures { result ≡ leading (eqb 0x20) line.now }
{
    for (i, byte) in line.iter().enumerate() {
        if *byte != b' ' {
            return i;
        }
    }
    line.len()
}

// A line without a carriage return at its end.
fn without_return(line: &[u8]) -> &[u8]
    ensures { result.now ≡ without_return line.now }
{
    let end = line.len();
    if end == 0 {
        return line;
    }
    if line[end - 1] == b'\r' {
        return &line[0..end - 1];
    }
    line
}

// A line without that, and without the blanks at its head.
pub fn trimmed(line: &[u8]) -> &[u8]
    ensures { result.now ≡ trimmed line.now }
{
    let whole = without_return(line);
    let blanks = count_blanks(whole);
    &whole[blanks..]
}
