ghost use Rattle.std.specs.Prelude.{◌≡◌, ◌⊎◌};
ghost use Rattle.host_io.specs.Calls.{Rose};
ghost use Rattle.host_io.specs.Outside.{Goes, Outside};
ghost use Rattle.lines.specs.Spoken.{IsSaying};
ghost use Rattle.shell.specs.Ran.{SaysLine};

use crate::status::Status;
use host_io::Host;
use lines::say_all;
use mk_value::Text;

/// Says the line that a run ends with, and gives its status.
pub(crate) fn say_line<H: Host>(line: &Text, host: &mut H) -> Status
    ensures says { H.tells → SaysLine line.now.bytes result (H.outside host.old) (H.outside host.new) }
    ensures moments { H.tells → Goes (IsSaying line.now.bytes (H.outside host.old).now) (H.outside host.old) (H.outside host.new) }
    ensures say_fault { result ≡ Status.SayFault → Rose (H.outside host.old).say_faults (H.outside host.new).say_faults }
    ensures source { (H.outside host.new).source ≡ (H.outside host.old).source }
    ensures status { (result ≡ Status.Done) ⊎ (result ≡ Status.SayFault) }
{
    say_bytes(line.as_str().as_bytes(), host)
}

/// Says the bytes that a run ends with, and gives its status.
pub(crate) fn say_bytes<H: Host>(bytes: &[u8], host: &mut H) -> Status
    ensures says { H.tells → SaysLine bytes.now result (H.outside host.old) (H.outside host.new) }
    ensures moments { H.tells → Goes (IsSaying bytes.now (H.outside host.old).now) (H.outside host.old) (H.outside host.new) }
    ensures say_fault { result ≡ Status.SayFault → Rose (H.outside host.old).say_faults (H.outside host.new).say_faults }
    ensures source { (H.outside host.new).source ≡ (H.outside host.old).source }
    ensures status { (result ≡ Status.Done) ⊎ (result ≡ Status.SayFault) }
{
    match say_all(host, bytes) {
        Ok(()) => Status::Done,
        Err(_) => Status::SayFault,
    }
}
