ghost use Rattle.host_io.specs.Outside.{Outside};
ghost use Rattle.host_io.specs.Calls.{CountsSay};
ghost use Rattle.lines.specs.Spoken.{SaysAll};

use host_io::{Failed, Host};

/// Says all of these bytes, in as many pieces as the host asks for. After a failure a front of them was said.
pub fn say_all<H: Host>(host: &mut H, bytes: &[u8]) -> Result<(), Failed>
    ensures counts { CountsSay (H.outside host.old) (H.outside host.new) result }
    ensures says { H.tells → SaysAll bytes.now (H.outside host.old) (H.outside host.new) result }
{
    let mut said = 0;
    'saying: while said < bytes.len() {
        said += host.say(&bytes[said..])?;
    }
    Ok(())
}
