//! A session that says each line again, and a run of it over the host in memory.
ghost use Rattle.std.specs.Prelude.{◌≡◌, ◌≤◌, ◌+◌, [], length};
ghost use Rattle.lines.specs.Lines.{max_line};
ghost use Rattle.lines.specs.Rooms.{IsClear};

use host_io::{Effect, Fault, Host, MemHost};
use lines::{End, Flow, MAX_BUDGET, MAX_LINE, Session, serve};
use mk_value::{Bytes, Memory, Text};
use std::alloc::Global;
use std::str;

/// Says each line again, a question mark where it is no text, and nothing where it is empty. The line `quit` ends it.
#[derive(Drop)]
struct Echo;

impl<H: Host> Session<H, ()> for Echo {
    ghost use Rattle.std.specs.Prelude.{◌≡◌, codes};
    ghost use Rattle.std.specs.Str.{bytes_eq};

    ghost machine = { λ context. record {
      answers = λ old line reply new. new ≡ old;
      ends = λ line. bytes_eq line (codes "quit");
      allowed = λ state image. Unit {0};
      under_way = λ state line image. ⊥;
      ready = λ state. Unit {0};
    } };

    fn answer(&mut self, _host: &mut H, _context: &(), line: &[u8], out: &mut Text) -> Flow {
        if !line.is_empty() {
            let text = str::from_utf8(line).unwrap_or("?");
            let _ = out.push_str(text);
            let _ = out.push_str("\n");
        }
        if line == b"quit".as_slice() {
            Flow::Ends
        } else {
            Flow::Goes
        }
    }
}

/// Serves the lines of a host in rooms that are clear.
fn serve_in(host: &mut MemHost, room: &mut Bytes, out: &mut Text, budget: u64) -> End
    requires room { IsClear room.old }
    requires out { IsClear out.old }
{
    serve(&mut Echo, host, &(), room, out, budget.min(MAX_BUDGET))
}

/// Serves the lines of a host.
fn serve_host(alloc: Global, host: &mut MemHost, budget: u64) -> Result<End, Memory> {
    let mut room = Bytes::with_room(alloc, MAX_LINE + 1)?;
    let mut out = Text::with_room(alloc, MAX_LINE + 1)?;
    Ok(serve_in(host, &mut room, &mut out, budget))
}

/// How a run over this input ends, and what is said, where the call of this number fails, a piece has at most so many
/// bytes (0 is no bound) and the run takes at most so many.
pub fn run(
    alloc: Global,
    input: &[u8],
    fails: Option<u64>,
    most: usize,
    budget: u64,
) -> Result<(End, Bytes), Memory> {
    let script = [Fault {
        call: fails.unwrap_or(u64::MAX),
        effect: Effect::Nothing,
    }];
    let mut host = MemHost::new(alloc, b"", input, &script, most, MAX_LINE + 1)?;
    let end = serve_host(alloc, &mut host, budget)?;
    Ok((end, Bytes::from_slice(alloc, host.said())?))
}
