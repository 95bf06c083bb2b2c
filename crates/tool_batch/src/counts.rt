// How many cards were accepted and refused.
ghost use Rattle.std.specs.Prelude.{◌<◌};

use files::Outside;

#[derive(Clone, Copy)]
pub(crate) struct Counts {
    pub accepted: u64,
    pub refused: u64,
}

// One more, up to a number that no run reaches.
fn more(n: u64) -> u64 {
    if n < 1 << 62 { n + 1 } else { n }
}

impl Counts {
    pub(crate) const NONE: Counts = Counts {
        accepted: 0,
        refused: 0,
    };

    pub(crate) fn counted(self, accepted: bool) -> Counts {
        if accepted {
            return Counts {
                accepted: more(self.accepted),
                refused: self.refused,
            };
        }
        Counts {
            accepted: self.accepted,
            refused: more(self.refused),
        }
    }

    pub(crate) fn cards(self) -> u64 {
        self.accepted % (1 << 63) + self.refused % (1 << 63)
    }
}

fn put<R: Outside>(rt: &R, text: &[u8]) {
    files::write_all(&rt.stderr(), text);
}

fn put_cards<R: Outside>(rt: &R, counts: Counts) {
    let cards = counts.cards();
    files::print_decimal(&rt.stderr(), cards);
    if cards == 1 {
        put(rt, b" card");
    } else {
        put(rt, b" cards");
    }
}

// Says how far a run is, in a line that the next one replaces.
pub(crate) fn say_progress<R: Outside>(rt: &R, progress: bool, counts: Counts) {
    if progress {
        put(rt, b"\rkvk: ");
        put_cards(rt, counts);
        put(rt, b" so far");
    }
}

// Says the counts, and answers how the run ends.
pub(crate) fn say_counts<R: Outside>(rt: &R, counts: Counts, path: &[u8], progress: bool) -> u8
    ensures { result < 4 }
{
    if progress {
        put(rt, b"\r");
    }
    if counts.cards() == 0 {
        put(rt, b"kvk: there is no card in ");
        put(rt, path);
        put(rt, b"\n");
        return words::DONE;
    }
    put(rt, b"kvk: ");
    put_cards(rt, counts);
    put(rt, b", ");
    files::print_decimal(&rt.stderr(), counts.accepted);
    put(rt, b" accepted, ");
    files::print_decimal(&rt.stderr(), counts.refused);
    put(rt, b" refused\n");
    if counts.refused == 0 {
        words::DONE
    } else {
        words::REFUSED
    }
}
