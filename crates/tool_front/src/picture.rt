// The lines in a picture of the card.
ghost use Rattle.std.specs.Prelude.{◌<◌};

use crate::letters;
use files::Outside;

// The card with its chip, the grid and the names of the fields.
const CARD: [&[u8]; 10] = [
    b"<svg xmlns=\"http://www.w3.org/2000/svg\" viewBox=\"0 0 640 404\" font-family=\"Helvetica, Arial, sans-serif\">\n",
    b"<title>The printed front of a card, four lines of 28 characters</title>\n",
    b"<rect x=\"2\" y=\"2\" width=\"636\" height=\"400\" rx=\"22\" fill=\"#f7f4ea\" stroke=\"#444\"/>\n",
    b"<text x=\"40\" y=\"58\" font-size=\"28\" fill=\"#777\">Versichertenkarte</text>\n",
    b"<rect x=\"62\" y=\"100\" width=\"68\" height=\"60\" rx=\"6\" fill=\"#e3c66b\" stroke=\"#8a7430\"/><path d=\"M62 120H84V140H62M130 120H108V140H130M84 100V160M108 100V160\" fill=\"none\" stroke=\"#8a7430\"/>\n",
    b"<defs><pattern id=\"cells\" x=\"40\" y=\"208\" width=\"20\" height=\"34\" patternUnits=\"userSpaceOnUse\"><path d=\"M0 0V34H20\" fill=\"none\" stroke=\"#ddd8c4\"/></pattern></defs>\n",
    b"<rect x=\"40\" y=\"208\" width=\"560\" height=\"136\" fill=\"url(#cells)\" stroke=\"#ddd8c4\"/>\n",
    b"<g font-size=\"10\" fill=\"#999\" text-anchor=\"middle\"><text x=\"50\" y=\"203\">1</text><text x=\"190\" y=\"203\">8</text><text x=\"430\" y=\"203\">20</text><text x=\"510\" y=\"203\">24</text><text x=\"530\" y=\"203\">25</text><text x=\"590\" y=\"203\">28</text></g>\n",
    b"<path d=\"M41 350H179M181 350H419M421 350H499M501 350H519M521 350H599\" stroke=\"#888\"/>\n",
    b"<g font-size=\"11\" fill=\"#777\"><text x=\"41\" y=\"364\">Kasse</text><text x=\"181\" y=\"364\">Versichertennummer</text><text x=\"421\" y=\"364\">Status</text><text x=\"521\" y=\"364\">g\xC3\xBCltig bis</text></g>\n",
];

fn draw_card<R: Outside>(rt: &R) {
    for line in CARD {
        files::write_all(rt, line);
    }
}

// Draws the byte at i in its cell.
fn draw_cell<R: Outside>(rt: &R, i: usize, b: u8)
    requires { i < 112 }
{
    if b == b' ' {
        return;
    }
    files::write_all(rt, b"<text x=\"");
    files::print_decimal(rt, (50 + i % 28 * 20) as u64);
    files::write_all(rt, b"\" y=\"");
    files::print_decimal(rt, (232 + i / 28 * 34) as u64);
    files::write_all(rt, b"\">");
    if b == b'&' {
        files::write_all(rt, b"&amp;");
    } else {
        letters::show(rt, b);
    }
    files::write_all(rt, b"</text>\n");
}

// Writes a picture of the card, each byte of the lines in its own cell.
pub(crate) fn draw_lines<R: Outside>(rt: &R, lines: &[u8; 112]) -> bool {
    draw_card(rt);
    files::write_all(rt, b"<g font-size=\"20\" text-anchor=\"middle\">\n");
    for (i, b) in lines.iter().enumerate() {
        draw_cell(rt, i, *b);
    }
    files::write_all(rt, b"</g>\n</svg>\n")
}
