// Writing back a listing of a foreign card: the bytes that have this listing and these plain values.
// Any words, values and room may be lent. The values are those of the objects that are no lists, end to end in the order of the listing.
// What is put together is listed again and compared, so that nothing is written that the listing would not give back.
#![tactic(auto)]

ghost use Rattle.std.specs.Prelude.{◌≡◌, true, ◌≤◌, length};
ghost use Rattle.std.proofs.lemmas.List.Edits.{sets};
ghost use Rattle.tree_back.specs.Glue.{object_bytes, fits, step_of, glue, GluedIn};
ghost use Rattle.tree_back.specs.Sources.{Back};

use tree_back::{BackError, Step};

// Puts one object from p on, its value from the head of the values.
fn put_object(out: &mut [u8], p: usize, tag: u16, n: u16, values: &[u8]) -> Option<Step>
    requires { p ≤ 8192 }
    ensures value { result ≡ step_of (length out.old) p tag n values.now }
    ensures out_after { fits (length out.old) p tag n values.now ≡ true → out.new ≡ sets out.old p (object_bytes tag n values.now) }
{
    if 255 < tag {
        return None;
    }
    let size = tree_values::value_size(tag, n);
    if values.len() < size {
        return None;
    }
    if out.len() < p + 4 + size {
        return None;
    }
    out[p] = tag as u8;
    let start = lengths_put::put_length(out, p + 1, n);
    let end = ground_room::put(out, start, &values[..size]);
    Some(Step {
        values: size,
        bytes: end - p,
    })
}

// Puts all objects, one after the other.
fn glue_all(words: &[u16], values: &[u8], out: &mut [u8]) -> Option<usize>
    requires { length out.old ≤ 4100 }
    ensures { GluedIn (glue (length out.old) 0 words.now values.now) result out.old out.new }
{
    let mut p = 0;
    let mut q = 0;
    for object in words.chunks_exact(4) {
        let step = put_object(out, p, object[0], object[3], &values[q..])?;
        q = q + step.values;
        p = p + step.bytes;
    }
    if words.len() % 4 != 0 {
        return None;
    }
    if q < values.len() {
        return None;
    }
    Some(p)
}

pub fn write_back(words: &[u16], values: &[u8], room: &mut [u8]) -> Result<u16, BackError>
    ensures { Back words.now values.now room.old result room.new }
{
    let mut scratch = [0u8; 4100];
    let Some(n) = glue_all(words, values, &mut scratch) else {
        return Err(BackError::Listing);
    };
    if !tree_same::same_tree(&scratch[..n], words) {
        return Err(BackError::Listing);
    }
    if room.len() < n {
        return Err(BackError::Room);
    }
    ground_room::put(room, 0, &scratch[..n]);
    Ok(n as u16)
}
