// The sixteen objects that a card's text makes, in card order.
// Any text may be lent. Whether its lines are right is told by `text_checks`; whether an edition takes the objects, by the writer.
// A value past 28 letters keeps its length, so that the writer can tell that it is too long; of its bytes the first 28 are kept.
#![tactic(auto)]

ghost use Rattle.std.specs.Prelude.{◌≡◌};
ghost use Rattle.card_text.specs.Records.{object_said, objects_said};

use card::Object;

// The object that a value makes: a value past 28 letters keeps its length, of which 255 are counted.
fn object_of(value: &[u8]) -> Object
    ensures { result ≡ object_said value.now }
{
    let mut room = [0u8; 255];
    let turned = letters_coded::from_utf8(value, &mut room);
    let mut bytes = [0u8; 28];
    ground_room::put(&mut bytes, 0, &room[0..28]);
    Object {
        length: (turned.made % 256) as u8,
        bytes,
    }
}

// The objects that the lines of a text make; where there is no line, an object is absent.
pub fn objects_of(text: &[u8]) -> [Object; 16]
    ensures { result ≡ objects_said text.now }
{
    let mut objects = [Object::ABSENT; 16];
    for i in 0..16 {
        objects[i] = object_of(text_entries::value(text, i));
    }
    objects
}
