// Addresses 0 to 29.
ghost use Rattle.std.specs.Prelude.{◌≡◌, ◌≤◌, length};
ghost use Rattle.std.proofs.lemmas.List.Edits.{sets};
ghost use Rattle.card.specs.Layout.{head};

pub(crate) fn write_head(buffer: &mut [u8], first: u8, free: [u8; 12])
    requires { 30 ≤ length buffer.old }
    ensures { buffer.new ≡ sets buffer.old 0 (head first free) }
{
    buffer[0] = first;
    ground_room::put(buffer, 1, b"\x13\x10\x91\x46\x0B");
    ground_room::put(buffer, 6, &free[..11]);
    ground_room::put(buffer, 17, b"\x61\x0B\x4F\x06");
    ground_room::put(buffer, 21, b"\xD2\x76\x00\x00\x01\x01");
    ground_room::put(buffer, 27, b"\x53\x01");
    buffer[29] = free[11];
}
