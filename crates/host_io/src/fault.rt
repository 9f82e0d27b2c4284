// Calls that are to fail, and what they leave.
ghost use Rattle.std.specs.Prelude.{◌≡◌};
ghost use Rattle.host_io.specs.Memory.{effect_at};

/// What a write that fails leaves in its range, or a crash in all that was written since the last sync.
#[derive(Clone, Copy, Debug, PartialEq, Eq)]
pub enum Effect {
    /// Nothing new.
    Nothing,
    /// All that was written.
    Whole,
    /// Bytes of `ff` alone.
    Ones,
}

/// A call that is to fail, with what it leaves if it is a write.
#[derive(Clone, Copy, Debug, PartialEq, Eq)]
pub struct Fault {
    /// The number of the call, all calls being counted from 0.
    pub call: u64,
    pub effect: Effect,
}

/// What the script says of this call, if it is to fail.
pub(crate) fn find_effect(script: &[Fault], call: u64) -> Option<Effect>
    ensures { result ≡ effect_at call script.now }
{
    for fault in script {
        if fault.call == call {
            return Some(fault.effect);
        }
    }
    None
}
