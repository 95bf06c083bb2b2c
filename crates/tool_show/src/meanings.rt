// What status and status addition mean, after the tables of the card specification (001, 6.8). Each function puts from `at` on and answers the
// place behind what it put; what the tables do not have is not put.
use crate::values;
use card::Object;

// The kind of insured person: the first place of the status.
fn put_kind(room: &mut [u8], at: usize, place: u8) -> usize {
    let number = match place {
        b'1' => 0,
        b'3' => 1,
        b'5' => 2,
        _ => 3,
    };
    line_names::put_line(
        room,
        at,
        b"member\nfamily member\npensioner\nno known kind",
        number,
    )
}

// The sample of the risk adjustment: the second place of the status.
fn put_sample(room: &mut [u8], at: usize, place: u8) -> usize {
    if place < b'0' {
        return at;
    }
    line_names::put_line(
        room,
        at,
        b", not in the sample\n, in the sample: female, without EU/BU pension, born 19\n, in the sample: male, without EU/BU pension, born 19\n, in the sample: female, with EU/BU pension, born 19\n, in the sample: male, with EU/BU pension, born 19\n, in the sample: female, without EU/BU pension, born 18\n, in the sample: male, without EU/BU pension, born 18\n, in the sample: female, without EU/BU pension, born 20\n, in the sample: male, without EU/BU pension, born 20",
        (place - b'0') as usize,
    )
}

pub(crate) fn put_status(room: &mut [u8], at: usize, item: Object) -> usize {
    let bytes = item.bytes;
    let behind_kind = put_kind(room, at, bytes[0]);
    if item.length != 4 {
        return behind_kind;
    }
    let sample = bytes[1];
    let behind_sample = put_sample(room, behind_kind, sample);
    if sample < b'1' {
        return behind_sample;
    }
    if sample > b'8' {
        return behind_sample;
    }
    values::put_some(room, behind_sample, item, 2, 4)
}

// The number of a line of sides.
fn side_of(sign: u8) -> usize {
    match sign {
        b'1' | b'M' | b'A' | b'K' | b'E' | b'D' | b'S' => 0,
        b'9' | b'X' | b'C' | b'L' | b'N' | b'F' | b'P' => 1,
        b'4' => 2,
        b'6' => 3,
        b'7' => 4,
        b'8' => 5,
        _ => 6,
    }
}

// West or east, of an addition that names a programme or neither.
fn put_side(room: &mut [u8], at: usize, sign: u8) -> usize {
    line_names::put_line(
        room,
        at,
        b"west\neast\nrecipient of social assistance, \xC2\xA7 264 SGB V\nBVG and related law\nSVA, by expense, German and Dutch border commuters\nSVA, flat rate\nno known addition",
        side_of(sign),
    )
}

// The number of a line of programmes; 6 where an addition names none.
fn programme_of(sign: u8) -> usize {
    match sign {
        b'M' | b'X' => 0,
        b'A' | b'C' => 1,
        b'K' | b'L' => 2,
        b'E' | b'N' => 3,
        b'D' | b'F' => 4,
        b'S' | b'P' => 5,
        _ => 6,
    }
}

fn put_programme(room: &mut [u8], at: usize, sign: u8) -> usize {
    line_names::put_line(
        room,
        at,
        b", in a programme for diabetes mellitus type 2\n, in a programme for breast cancer\n, in a programme for coronary heart disease\n, in a programme for diabetes mellitus type 1\n, in a programme for bronchial asthma\n, in a programme for COPD",
        programme_of(sign),
    )
}

// The first sign of an addition says what it means; terminal takes longer ones, of which no table says anything.
pub(crate) fn put_addition(room: &mut [u8], at: usize, item: Object) -> usize {
    let bytes = item.bytes;
    if item.length != 1 {
        return ground_room::put(room, at, b"no known addition");
    }
    let behind_side = put_side(room, at, bytes[0]);
    put_programme(room, behind_side, bytes[0])
}
