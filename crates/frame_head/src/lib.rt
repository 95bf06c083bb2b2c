// The fixed bytes of addresses 0 to 28.
// Any bytes may be lent; what the first of them may be, and what a wrong one is refused with, is the caller's.
// Right bytes are looked at many together, and only where one is wrong byte by byte.
#![tactic(auto)]

ghost use Rattle.std.specs.Prelude.{◌≡◌, true, ◌≤◌, length};
ghost use Rattle.card.specs.Frame.{head_end};
ghost use Rattle.frame.specs.Checks.{head_in};
ghost use Rattle.frame_head.specs.Late.{late_end};

// Whether all fixed bytes from 1 to 28 are right: with no way out, many are looked at together.
fn is_right(image: &[u8]) -> bool
    requires { 30 ≤ length image.now }
    ensures { result ≡ true → head_end image.now ≡ 30 }
{
    let chip = ground_parts::is_same(&image[1..6], b"\x13\x10\x91\x46\x0B");
    let tags = ground_parts::is_same(&image[17..21], b"\x61\x0B\x4F\x06");
    let identifier = ground_parts::is_same(&image[21..27], b"\xD2\x76\x00\x00\x01\x01");
    let body = ground_parts::is_same(&image[27..29], b"\x53\x01");
    chip & tags & identifier & body
}

// The first wrong address from 21 on: the identifier and what stands behind it.
fn find_late(image: &[u8]) -> usize
    requires { 30 ≤ length image.now }
    ensures { result ≡ late_end image.now }
{
    let identifier = ground_parts::count_same(&image[21..27], b"\xD2\x76\x00\x00\x01\x01");
    if identifier < 6 {
        return 21 + identifier;
    }
    let body = ground_parts::count_same(&image[27..29], b"\x53\x01");
    if body < 2 {
        return 27 + body;
    }
    30
}

// The same as head_end, byte by byte.
fn find_wrong(image: &[u8]) -> usize
    requires { 30 ≤ length image.now }
    ensures { result ≡ head_end image.now }
{
    let chip = ground_parts::count_same(&image[1..6], b"\x13\x10\x91\x46\x0B");
    if chip < 5 {
        return 1 + chip;
    }
    let tags = ground_parts::count_same(&image[17..21], b"\x61\x0B\x4F\x06");
    if tags < 4 {
        return 17 + tags;
    }
    find_late(image)
}

// The first address from 1 to 28 whose byte is not as it must be; 30 where all are; 0 for fewer than 30 bytes.
pub fn head_end(image: &[u8]) -> usize
    ensures { result ≡ head_in image.now }
{
    if image.len() < 30 {
        return 0;
    }
    if is_right(image) {
        return 30;
    }
    find_wrong(image)
}
