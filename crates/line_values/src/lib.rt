// What a line says behind its first colon.
// Any bytes may be lent; a line is lent without its line feed. What the line speaks of is told by `line_keys`.
// One blank behind the colon is no part of the value, a second one is; a line without a colon says nothing.
#![tactic(auto)]

ghost use Rattle.std.specs.Prelude.{◌≡◌};
ghost use Rattle.card_lines.specs.Keys.{behind_blank, behind_colon, value_in};

// A part without one blank at its head.
fn behind_blank(part: &[u8]) -> &[u8]
    ensures { result.now ≡ behind_blank part.now }
{
    if part.len() == 0 {
        return part;
    }
    if part[0] == b' ' {
        return &part[1..];
    }
    part
}

// What stands behind the first colon; nothing where there is none.
fn behind_colon(line: &[u8]) -> &[u8]
    ensures { result.now ≡ behind_colon line.now }
{
    let colon = line_ends::find(line, 0, b':');
    if colon >= line.len() {
        return &line[0..0];
    }
    &line[colon + 1..]
}

// The value that a line says.
pub fn value_in(line: &[u8]) -> &[u8]
    ensures { result.now ≡ value_in line.now }
{
    behind_blank(behind_colon(line_trims::trimmed(line)))
}
