//! Times since a moment, in whole numbers: they are printed in many places, and to print a float is dear to prove.

use anyhow::Result;
use std::time::Instant;

/// The nanoseconds since a moment, at most those of 584 years.
pub fn nanoseconds_since(rt: &HostRuntime, start: &Instant) -> Result<u64> {
    let elapsed = start.elapsed(rt)?;
    let whole = elapsed.as_secs().saturating_mul(1_000_000_000);
    Ok(whole.saturating_add(u64::from(elapsed.subsec_nanos())))
}

/// Prints nanoseconds for each of so many calls, to a hundredth.
pub fn print_each(rt: &HostRuntime, nanoseconds: u64, calls: u32) -> Result<()> {
    let hundredths = nanoseconds.saturating_mul(100) / u64::from(calls.max(1));
    let (whole, rest) = (hundredths / 100, hundredths % 100);
    print!(rt; " {whole}.{}{}", rest / 10, rest % 10)?;
    Ok(())
}
