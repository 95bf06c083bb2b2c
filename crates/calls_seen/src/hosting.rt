// The host's command, of lent bytes.
ghost use Rattle.std.specs.Prelude.{◌≡◌};
ghost use Rattle.host.specs.Hosting.{room_after};
ghost use Rattle.wire_tables.specs.Tables.{lent_edition};
ghost use Rattle.calls_seen.specs.HostCalls.{kvk_host};

// Answers a command over an image at the start of a room of 257 bytes; the value is how many bytes the answer has.
pub fn host(table: &[u8], image: &[u8], command: &[u8], room: &mut [u8]) -> u64
    ensures value { result ≡ kvk_host table.now image.now command.now room.old }
    ensures room_after { room.new ≡ room_after (lent_edition table.now) image.now command.now room.old }
{
    let hosted = host::host(wire_tables::edition_of(table), image, command, room);
    wire::pack_value(hosted.refusal, hosted.length)
}
