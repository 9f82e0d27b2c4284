//! A sample is made twice, and its file is opened.
use crate::unviewed::{host, run};
use host_io::MemHost;
use shell::Status;
use std::alloc::Global;
use std::process::Abort;
use std::test::Fail;

const WORDS: &[&str] = &["mkshell", "--sample", "7", "--count", "2000", "f"];

/// The edits, the rows that they leave, and the commits, as counted by another program.
const LINE: &[u8] = b"ok sample 2000 989 233\n";

/// Room for what 233 commits write.
const ROOM: usize = 16_777_216;

/// The host of a run that has made the sample.
fn sampled(rt: &impl Abort, alloc: Global) -> Result<MemHost, Fail> {
    let mut host = MemHost::new(alloc, b"", b"", &[], 0, ROOM)?;
    assert_eq!(rt; run(alloc, WORDS, &mut host), Status::Done);
    assert_eq!(rt; host.said(), LINE);
    Ok(host)
}

/// Made again, the sample is the same image.
fn is_made_again(rt: &impl Abort, alloc: Global, image: &[u8]) -> Result<(), Fail> {
    let again = sampled(rt, alloc)?;
    assert_eq!(rt; again.image(), image);
    Ok(())
}

/// A run over the image is greeted with the number of its commits.
fn is_opened(rt: &impl Abort, alloc: Global, image: &[u8]) -> Result<(), Fail> {
    let mut opened = host(alloc, image, b"", &[])?;
    let _ = run(alloc, &["mkshell", "f"], &mut opened);
    assert_eq!(rt; opened.said(), b"ok mkshell 233\n".as_slice());
    Ok(())
}

#[test]
fn two_samples_are_one(rt: HostRuntime) -> Result<(), Fail> {
    let sample = sampled(&rt, rt.alloc())?;
    is_made_again(&rt, rt.alloc(), sample.image())?;
    is_opened(&rt, rt.alloc(), sample.image())
}
