// A line of text.
ghost use Rattle.std.specs.Prelude.{[], ◌∷◌, ◌++◌, ◌+◌, ◌<◌, length};
ghost use Rattle.ground.specs.Rooms.{Put};

// Writes some bytes and the end of the line from `at` on. Answers the place behind them.
pub(crate) fn put_line(room: &mut [u8], at: usize, source: &[u8]) -> usize
    requires { at + length source.now < length room.old }
    ensures { Put room.old at (source.now ++ (0x0A ∷ [])) room.new result }
{
    let end = ground_room::put(room, at, source);
    ground_room::put_byte(room, end, b'\n')
}
