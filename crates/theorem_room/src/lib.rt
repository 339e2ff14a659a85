// The room that the manual, include/craneholt.h, says is always enough: of the definitions that the calls are proved against.
#![tactic(auto)]

ghost use Rattle.theorem_room.specs.Room.{RoomEnough};

// With so much room no call answers that what is lent is too short.
pub fn enough_room() -> u64
    ensures { RoomEnough }
{
    0
}
