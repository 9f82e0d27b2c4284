ghost use Rattle.std.specs.Prelude.{IfOk};
ghost use Rattle.lines.specs.Rooms.{IsClear};

use lines::MAX_LINE;
use mk_value::{Bytes, Memory, Text};
use std::alloc::Global;

/// The memory that serving lines takes for itself: a room for a line and one for a reply.
#[derive(Drop)]
pub struct Rooms {
    pub line: Bytes,
    pub reply: Text,
}

impl Rooms {
    /// Both rooms, empty, with place for a line of the greatest length and its newline.
    pub fn new(alloc: Global) -> Result<Rooms, Memory>
        ensures line { IfOk result (λ rooms. IsClear rooms.line) }
        ensures reply { IfOk result (λ rooms. IsClear rooms.reply) }
    {
        Ok(Rooms {
            line: Bytes::with_room(alloc, MAX_LINE + 1)?,
            reply: Text::with_room(alloc, MAX_LINE + 1)?,
        })
    }
}
