// The printed front of a record.
ghost use Rattle.std.specs.Prelude.{◌≡◌, not, eqb};
ghost use Rattle.wire.specs.Answers.{packed};
ghost use Rattle.calls_seen.specs.Printing.{kvk_front, kvk_front_room};

use card::Refusal;

fn printed(bytes: &[u8], fund: bool, room: &mut [u8]) -> Refusal
    ensures value { result ≡ kvk_front bytes.now fund room.old }
    ensures room_after { room.new ≡ kvk_front_room bytes.now fund room.old }
{
    if bytes.len() != 479 {
        return Refusal::new(20, 0, 0);
    }
    front_print::print(wire_records::record_of(bytes), fund, room)
}

// Writes the front of a record of 479 bytes into a room of 112 bytes, for 0 without the fund name and else with it.
pub fn front(bytes: &[u8], fund: u64, room: &mut [u8]) -> u64
    ensures value { result ≡ packed (kvk_front bytes.now (not (eqb fund 0)) room.old) }
    ensures room_after { room.new ≡ kvk_front_room bytes.now (not (eqb fund 0)) room.old }
{
    wire::pack(printed(bytes, fund != 0, room))
}
