// The lines in a frame.
use crate::letters;
use files::Outside;

// Writes a line in its frame.
fn show_line<R: Outside>(rt: &R, line: &[u8], number: u8) {
    files::write_all(rt, &[b' ', number, b' ', b'|']);
    for b in line {
        letters::show(rt, *b);
    }
    files::write_all(rt, b"|\n");
}

// Writes the four lines in a frame, below a ruler of their columns.
pub(crate) fn show_lines<R: Outside>(rt: &R, lines: &[u8; 112]) -> bool {
    files::write_all(rt, b"             1         2\n");
    files::write_all(rt, b"    1234567890123456789012345678\n");
    files::write_all(rt, b"   +----------------------------+\n");
    for (line, number) in lines.chunks_exact(28).zip(b"1234") {
        show_line(rt, line, *number);
    }
    files::write_all(rt, b"   +----------------------------+\n")
}
