//! Tests of values, bytes and errors.

use cc_entry::{Bytes, CcError, NoMemory};
use cc_script::ScriptFault;
use cc_traits::Stop;
use std::test::Fail;

#[test]
fn bytes_are_kept(rt: HostRuntime) -> Result<(), Fail> {
    let mut bytes = Bytes::of(rt.alloc(), &[0xAB, 0xAB, 0xCD])?;
    bytes.append(0xCD, 2)?;
    let kept = bytes.to_vec(rt.alloc())?;
    assert_eq!(rt; kept.as_slice(), [0xAB, 0xAB, 0xCD, 0xCD, 0xCD].as_slice());
    assert!(rt; Bytes::of(rt.alloc(), kept.as_slice())? == bytes);
    assert!(rt; Bytes::new(rt.alloc()) != bytes);
    Ok(())
}

#[test]
fn errors_have_texts_for_people(rt: HostRuntime) -> Result<(), Fail> {
    let memory = format!(in rt.alloc(); "{}", NoMemory)?;
    assert_eq!(rt; memory.as_str(), "out of memory");
    let beyond = format!(in rt.alloc(); "{}", CcError::BeyondSize { size: 8192 })?;
    assert_eq!(rt;
        beyond.as_str(),
        "the range ends past the stream's size of 8192 bytes"
    );
    let stop = format!(in rt.alloc(); "{}, {}", Stop::Failed, Stop::NoMemory)?;
    assert_eq!(rt; stop.as_str(), "the device failed, out of memory");
    let line = format!(in rt.alloc(); "{}", ScriptFault::Syntax { line: 7 })?;
    assert_eq!(rt; line.as_str(), "line 7 is not in the grammar");
    Ok(())
}
