//! An end that introduces as many others as may be, through the program. Other introductions are rows
//! in the files of `examples`.

use crate::cli::{says_status, status_of_bytes};
use rtmfp_host::MemorySink;
use std::alloc::{AllocError, Global};
use std::test::Fail;

fn push_end(alloc: Global, end: u32, script: &mut String) -> Result<(), AllocError> {
    let line = format!(in alloc; "end e{end} 16 16 0123456789abcdefe{end}\n")?;
    script.push_str(line.as_str())
}

fn push_redirect(alloc: Global, end: u32, script: &mut String) -> Result<(), AllocError> {
    let line = format!(in alloc; "redirect e0 e{end} 10.0.0.3:1\n")?;
    script.push_str(line.as_str())
}

fn push_ends(alloc: Global, script: &mut String) -> Result<(), AllocError> {
    for end in 0..1024_u32 {
        push_end(alloc, end, script)?;
    }
    for end in 0..1024_u32 {
        push_redirect(alloc, end, script)?;
    }
    Ok(())
}

/// As many ends as may be, of which the first has a row for each, itself included. A row is replaced
/// then, the last one answers a hello, and one end more is a bad line: so an end of a script never
/// comes to the row after the last one.
fn many_rows(alloc: Global) -> Result<Vec<u8>, AllocError> {
    let mut script = String::new(alloc);
    push_ends(alloc, &mut script)?;
    script.push_str(LAST_LINES)?;
    Ok(script.into_bytes())
}

const LAST_LINES: &str = "redirect e0 e0 10.0.0.4:1
open e1 e1023 10.0.0.9:1
deliver 1 e0 10.0.0.1:1
end e1024 16 16 0123456789abcdefe1024
";

const MANY_ROWS: &str = "2050 e1 started peer=e1023 n=1 near=2050 ni=802
2050 e1 sent 1 10.0.0.9:1 ihello
2051 e0 sent 2 10.0.0.1:1 redirect
";

/// Whether a run of the script ends at the line of one end more, and writes this report and nothing
/// else.
fn has_1024_rows(alloc: Global) -> Result<bool, AllocError> {
    let mut sink = MemorySink::new(alloc);
    let status = status_of_bytes(alloc, "replay", many_rows(alloc)?, &mut sink)?;
    Ok(says_status("bad-script 2052", status) && sink.written() == Some(MANY_ROWS.as_bytes()))
}

#[test]
fn an_end_of_a_script_has_1024_rows(rt: HostRuntime) -> Result<(), Fail> {
    assert!(rt; has_1024_rows(rt.alloc())?);
    Ok(())
}
