// The key of a name or tag of a card's text: its number among the names, or else among the tags.
// Any bytes may be lent. Where in a line its name ends is told by `line_keys`.
// What has no tag is called by its name in the list of tags too, so that both lists have twenty lines.
#![tactic(auto)]

ghost use Rattle.std.specs.Prelude.{◌≡◌};
ghost use Rattle.card_lines.specs.Lines.{lines};
ghost use Rattle.card_lines.specs.Keys.{place_of, key_named};

// The number of the line that is the same as a name; where there is none, how many lines there are.
fn line_with(list: &[u8], name: &[u8]) -> usize
    ensures { result ≡ place_of (lines list.now) name.now }
{
    let mut at = 0;
    let mut i = 0;
    while at < list.len() {
        let end = line_ends::find(list, at, b'\n');
        if ground_parts::is_same(&list[at..end], name) {
            return i;
        }
        at = end + 1;
        i += 1;
    }
    i
}

// The key of a name or tag: its number, 20 where it is none.
pub fn key_named(name: &[u8]) -> usize
    ensures { result ≡ key_named name.now }
{
    let by_name = line_with(
        b"fund name\nfund number\noffice code\ninsured number\nstatus\nstatus addition\ntitle\ngiven name\nname prefix\nfamily name\nbirth date\nstreet\ncountry\npostal code\ntown\nvalidity\naddress 0\nfree bytes\nlast byte\nchecksum",
        name,
    );
    if by_name < 20 {
        return by_name;
    }
    line_with(
        b"80\n81\n8F\n82\n83\n90\n84\n85\n86\n87\n88\n89\n8A\n8B\n8C\n8D\naddress 0\nfree bytes\nlast byte\n8E",
        name,
    )
}
