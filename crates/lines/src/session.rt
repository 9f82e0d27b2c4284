ghost use Rattle.std.specs.Prelude.{◌≡◌, ◌+◌, ◌≤◌, ◌↔◌, [], length, true};
ghost use Rattle.host_io.specs.Outside.{Outside, Goes};
ghost use Rattle.lines.specs.Machine.{Machine};
ghost use Rattle.lines.specs.Crash.{IsReady, IsWithin, KeepsImages};
ghost use Rattle.lines.specs.Served.{state_of};
ghost use Rattle.lines.specs.Lines.{max_line};

use host_io::Host;
use mk_value::Text;

/// The most bytes of a line, its newline not counted. A longer line is answered `err 8 limit` and looked at no further.
pub const MAX_LINE: usize = 1_048_576;

/// Whether a session goes on after a line.
#[derive(Clone, Copy, Debug, PartialEq, Eq)]
pub enum Flow {
    /// The next line is answered.
    Goes,
    /// The session is over, and no byte behind the line is looked at.
    Ends,
}

/// What answers lines over a host, in a context that it is lent for each and that stays: what the answers need beside the host.
pub trait Session<H: Host, C> {
    /// Which answers a line may have in a context, which line ends the session, and which images a crash may leave.
    ghost machine: { C → Machine Self };

    /// Answers one line of at most `MAX_LINE` bytes: appends the answer to the empty `out`, with the newline of each
    /// of its lines, and tells whether the session is over. It makes no other call of the host than those on its disk.
    /// A line that is answered by nothing leaves each image that a crash may leave allowed.
    fn answer(&mut self, host: &mut H, context: &C, line: &[u8], out: &mut Text) -> Flow
        requires short { length line.now ≤ max_line }
        requires empty { out.old.bytes ≡ [] }
        requires room { max_line + 1 ≤ out.old.spare }
        requires ready { H.tells → IsReady (machine context.now) (state_of self.old (H.outside host.old)) }

        ensures answers { H.tells → (machine context.now).answers (state_of self.old (H.outside host.old)) line.now out.new.bytes (state_of self.new (H.outside host.new)) }
        ensures ends { (result ≡ Flow.Ends) ↔ ((machine context.now).ends line.now ≡ true) }
        ensures room { max_line + 1 ≤ out.new.spare + length out.new.bytes }

        ensures ready { H.tells → IsReady (machine context.now) (state_of self.new (H.outside host.new)) }
        ensures moments { H.tells → Goes (IsWithin (machine context.now) (state_of self.old (H.outside host.old)) line.now (H.outside host.old).now.said) (H.outside host.old) (H.outside host.new) }
        ensures quiet { H.tells → out.new.bytes ≡ [] → KeepsImages (machine context.now) (state_of self.old (H.outside host.old)) line.now (state_of self.new (H.outside host.new)) }
        ensures said { H.tells → (H.outside host.new).now.said ≡ (H.outside host.old).now.said }
        ensures input { H.tells → (H.outside host.new).input ≡ (H.outside host.old).input }
        ensures disk_faults { (H.outside host.old).disk_faults ≤ (H.outside host.new).disk_faults }
        ensures take_faults { (H.outside host.new).take_faults ≡ (H.outside host.old).take_faults }
        ensures say_faults { (H.outside host.new).say_faults ≡ (H.outside host.old).say_faults }
        ensures source { (H.outside host.new).source ≡ (H.outside host.old).source };
}
