use lab_text::{Bundle, read_bundle};
use lab_verify::{Accepted, Refusal, verify};
use std::alloc::Global;
use std::test::Fail;
use test_thirds::Thirds;

/// What is told of a budget.
fn told_budget(alloc: Global, budget: u64) -> Result<Vec<u8>, Fail> {
    Ok(format!(in alloc; "accepted {budget}")?.into_bytes())
}

/// What is told of a verdict: the budget, or the refusal's part, line and rule.
fn told_verdict(
    alloc: Global,
    verdict: &Result<Accepted<Thirds>, Refusal<'_>>,
) -> Result<Vec<u8>, Fail> {
    match verdict {
        Ok(accepted) => told_budget(alloc, accepted.budget()),
        Err(Refusal::Fault(fault)) => Ok(fault.text(alloc)?),
        Err(Refusal::NoMemory) => Ok(b"no memory".to_vec(alloc)?),
    }
}

/// What is told of the parts of a bundle. The verdict is let go by a call, since an owner whose
/// scope ends with one is dear to prove.
fn told_parts(alloc: Global, bundle: &Bundle<'_>) -> Result<Vec<u8>, Fail> {
    let verdict = verify(alloc, bundle);
    let told = told_verdict(alloc, &verdict);
    drop(verdict);
    told
}

/// What is told of a bundle.
fn told(alloc: Global, bytes: &[u8]) -> Result<Vec<u8>, Fail> {
    let bundle = read_bundle(alloc, bytes)?;
    told_parts(alloc, &bundle)
}

/// A device of a target that no bundle of the program names: it takes the message `ping`, and its blocks have three
/// sectors. The rest of the script and the log follow.
const THIRDS: &[u8] = b"== table t\n0 8 thirds /dev/ram0 0\n== script\nram 0 8\ncreate m t\n";

/// The rest of a bundle, and what is told of all of it. A semicolon stands for a line break. The read of the sectors 2
/// to 5 has two pieces.
const CASES: &str = "\
message m 7 ping;replay = accepted 3
message m 7 pong;replay = script 3 V9
message m 8 ping;replay = script 3 V9
replay;== log a;fio version 2 iolog;1:0 add;1:0 open;1:0 read 1024 2048 = log a 2 V12
replay;== log a;fio version 2 iolog;253:0 add = log a 2 V12
replay;== log a;fio version 2 iolog;/dev/dm-0 add;/dev/dm-0 open;/dev/dm-0 read 1024 2048 = accepted 9
";

/// A bundle that ends so.
fn bundle(alloc: Global, rest: &str) -> Result<Vec<u8>, Fail> {
    let mut bytes = THIRDS.to_vec(alloc)?;
    for byte in rest.bytes() {
        bytes.push(if byte == b';' { b'\n' } else { byte })?;
    }
    Ok(bytes)
}

/// Whether this is told of a bundle that ends so.
fn is_told(alloc: Global, rest: &str, wanted: &str) -> Result<bool, Fail> {
    let bytes = bundle(alloc, rest)?;
    let told = told(alloc, &bytes)?;
    Ok(told.as_slice() == wanted.as_bytes())
}

#[test]
fn a_device_of_the_tests_own_target(rt: HostRuntime) -> Result<(), Fail> {
    for line in CASES.lines() {
        let (rest, wanted) = line.split_once(" = ").unwrap_or((line, ""));
        assert!(rt; is_told(rt.alloc(), rest, wanted)?, "{rest}");
    }
    Ok(())
}
