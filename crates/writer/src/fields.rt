// A length in the form due.
ghost use Rattle.std.specs.Prelude.{◌≡◌, ◌+◌, ◌≤◌, length};
ghost use Rattle.std.proofs.lemmas.List.Edits.{sets};
ghost use Rattle.lengths.specs.Lengths.{length_field};

// Writes a length from `at` on: up to 255 its shortest form is one of the two that a card has. Answers the place behind it.
pub(crate) fn write_length(buffer: &mut [u8], at: usize, n: usize) -> usize
    requires { (at + 2 ≤ length buffer.old) × (n ≤ 255) }
    ensures value { result ≡ at + length (length_field n) }
    ensures buffer_after { buffer.new ≡ sets buffer.old at (length_field n) }
{
    lengths_put::put_length(buffer, at, n as u16)
}
