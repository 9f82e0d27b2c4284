ghost use Rattle.std.specs.Prelude.{◌≡◌};
ghost use Rattle.host_io.specs.Outside.{Outside};
ghost use Rattle.lines.specs.Rooms.{IsClear};
ghost use Rattle.shell.specs.Said.{SaysOnly, fault_line};

use crate::fault::FileFault;
use crate::own_lines::write_fault;
use crate::status::Status;
use host_io::Host;
use lines::say_all;
use mk_value::Text;

/// Says why a file is refused.
pub fn refuse<H: Host>(fault: FileFault, out: &mut Text, host: &mut H) -> Status
    requires { IsClear out.old }
    ensures status { result ≡ Status.Refused }
    ensures says { H.tells → SaysOnly (fault_line fault) (H.outside host.old) (H.outside host.new) }
    ensures source { (H.outside host.new).source ≡ (H.outside host.old).source }
{
    write_fault(fault, out);
    let _ = say_all(host, out.as_str().as_bytes());
    Status::Refused
}
