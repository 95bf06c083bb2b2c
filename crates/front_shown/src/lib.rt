// What is printed of an addition and of a status.
// Any object may be lent, also one that claims more than its bytes. Whether a card has a front is the caller's to ask.
// An addition that is none of the eighteen single signs is shown as a blank, which is no sign.
#![tactic(auto)]

ghost use Rattle.std.specs.Prelude.{◌≡◌};
ghost use Rattle.card.specs.Content.{value_of};
ghost use Rattle.front.specs.Lines.{sign_of, addition_sign, status_shown};
ghost use Rattle.front.specs.Placing.{signed, status_object};

use card::Object;

// The printed sign of a byte, a blank if it is none of the eighteen.
fn sign_of(b: u8) -> u8
    ensures { signed result ≡ sign_of b }
{
    let to_one = (b == b'M') | (b == b'A') | (b == b'K') | (b == b'E') | (b == b'D') | (b == b'S');
    if to_one {
        return b'1';
    }
    let to_nine = (b == b'X') | (b == b'C') | (b == b'L') | (b == b'N') | (b == b'F') | (b == b'P');
    if to_nine {
        return b'9';
    }
    let stays = (b == b'1') | (b == b'9') | (b == b'4') | (b == b'6') | (b == b'7') | (b == b'8');
    if stays { b } else { b' ' }
}

// The printed sign of an addition, a blank if that is none of the eighteen single signs.
pub fn shown_addition(addition: Object) -> u8
    ensures { signed result ≡ addition_sign (value_of addition) }
{
    if addition.length != 1 {
        return b' ';
    }
    let value = addition.bytes;
    sign_of(value[0])
}

// The printed places of a status.
pub fn shown_status(status: Object) -> Object
    ensures result_value { value_of result ≡ status_shown (value_of status) }
    ensures value { result ≡ status_object status }
{
    if status.length < 2 {
        return status;
    }
    let value = status.bytes;
    if value[1] == b'0' {
        Object {
            length: 1,
            bytes: value,
        }
    } else {
        status
    }
}
