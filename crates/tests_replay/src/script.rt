//! Lines that are outside the grammar of a script, and the limits of its fields. What lines say is
//! shown by the script of the program `rtmfp_called`; what bytes count, here.

use crate::cli::field;
use rtmfp_script::{CallLine, Said, ScriptLine, read_line};
use rtmfp_text::Text;
use std::alloc::Global;
use std::test::Fail;

/// Lines outside the grammar.
const OUTSIDE: &str = "tick  a
tick a 
 tick a
tick
tick A
at 01
at +1
at 18446744073709551616
end a 4294967296 1 0123456789abcdefx
deliver 1 a 1.2.3.256:5
deliver 1 a 1.2.3.4:65536
deliver 1 a [00010203]:5
deliver 1 a [000102030405060708090A0b0c0d0e0f]:5
inject a 1.2.3.4:5 0A
inject a 1.2.3.4:5 000
inject a 1.2.3.4:5 
open a b 
close a
close a 01
close a 4294967296
close  1
hang a 1
narrow a
narrow a 
narrow a -
narrow a 096
narrow a 65536
narrow a 96 96
narrow  96
seek a
seek a 
seek a -
seek a 6
seek a 6D
seek a 80
seek a 6180
seek a 6d 
seek a 6d b
seek a 6d 1.2.3.4
seek a 6d  1.2.3.4:5
seek a b 1.2.3.4:5
seek  6d
unseek a
unseek a 
unseek a 01
unseek a 4294967296
unseek a 1 1
flow a 1
flow a 1 4
flow a 1 4 
flow a 1  -
flow a 1 256 -
flow a 1 04 -
flow a 4294967296 4 -
flow a 1 4 6
flow a 1 4 6D
flow a 1 4 *1
flow a 1 4 - 
flow a 1 4 - -
flow a 1 4 - 18446744073709551616
flow a 1 4 - 1 2
queue a 1 0 - -
queue a 1 0 - - 
queue a 1 0 - -  61
queue a 4294967296 0 - - 61
queue a 1 18446744073709551616 - - 61
queue a 1 0 18446744073709551616 - 61
queue a 1 0 - 4294967296 61
queue a 1 0 -- - 61
queue a 1 0 - 01 61
queue a 1 0 - - 4f4
queue a 1 0 - - 4F
queue a 1 0 - - *
queue a 1 0 - - *-
queue a 1 0 - - *-1
queue a 1 0 - - *01
queue a 1 0 - - *2000001
queue a 1 0 - - *4294967296
queue a 1 0 - - 1*
queue a 1 0 - - 61 61
queue a 1 0 - - *1 
abandon a 1 0
abandon a 4294967296 0 1
abandon a 1 18446744073709551616 1
abandon a 1 0 18446744073709551616
abandon a 1 0 -
abandon a 1 0 1 1
finish a 1
finish a 4294967296 0
finish a 1 18446744073709551616
finish a 1 0 0
translator s independent dependent 10.1.0.1
translator s independent dependent 10.1.0.1 
translator s independent dependent 10.1.0.1 65536
translator s independent dependent 10.1.0.1 01
translator s independent dependent 10.1.0.1 1 1
translator s independent dependent 10.1.0.1:1 1
translator s independent dependent 10.1.0 1
translator s independent dependent 10.1.0.256 1
translator s independent dependent [000102030405060708090a0b0c0d0e0f] 1
translator s independent Dependent 10.1.0.1 1
translator s both dependent 10.1.0.1 1
translator s independent 10.1.0.1 1
translator S independent dependent 10.1.0.1 1
translator s  independent dependent 10.1.0.1 1
place a
place a 
place a 1.2.3.4
place a 1.2.3.4:5 
place a 1.2.3.4:5 S
place a 1.2.3.4:5 s t
place a 1.2.3.4:5 s 
place 1.2.3.4:5
carry
carry 
carry 01
carry -
carry 18446744073709551616
carry 1 a
";

/// Lines in the grammar, at the limits of their fields.
const INSIDE: &str = "narrow a 0
narrow a 65535
seek a 00
seek a 7f
seek a 6d 1.2.3.4:5
seek a 6d 1.2.3.4:5 [000102030405060708090a0b0c0d0e0f]:65535
unseek a 0
unseek a 4294967295
flow a 0 0 -
flow a 4294967295 255 6d
flow a 1 4 - 0
flow a 1 4 00ff 18446744073709551615
queue a 0 0 - - -
queue a 1 0 - - 4f4b
queue a 1 0 - - *0
queue a 1 0 - - *2000000
queue a 4294967295 18446744073709551615 18446744073709551615 4294967295 00
queue a 1 0 0 - 61
queue a 1 0 - 0 61
abandon a 0 0 0
abandon a 4294967295 18446744073709551615 18446744073709551615
finish a 0 0
finish a 4294967295 18446744073709551615
translator s independent dependent 10.1.0.1 0
translator s dependent independent 255.255.255.255 65535
place a 1.2.3.4:5
place a [000102030405060708090a0b0c0d0e0f]:65535
place a 1.2.3.4:5 a
place a [000102030405060708090a0b0c0d0e0f]:0 abcdefghijklmnop
carry 0
carry 18446744073709551615
";

/// A line, which has a part again and again behind its head.
fn line_of(alloc: Global, head: &str, part: &str, count: u32) -> Result<Text, Fail> {
    let mut line = Text::new(alloc);
    line.push(head)?;
    for _ in 0..count {
        line.push(part)?;
    }
    Ok(line)
}

/// Whether a line, which has a part again and again behind its head, is a step.
fn is_step(alloc: Global, head: &str, part: &str, count: u32) -> Result<bool, Fail> {
    let line = line_of(alloc, head, part, count)?;
    Ok(match read_line(alloc, line.bytes())? {
        Said::Step(_) => true,
        Said::Nothing | Said::Outside => false,
    })
}

/// The first line outside the grammar that is a step all the same.
fn first_step(alloc: Global) -> Result<Option<&'static str>, Fail> {
    for line in OUTSIDE.lines() {
        if is_step(alloc, line, "", 0)? {
            return Ok(Some(line));
        }
    }
    Ok(None)
}

/// The first line in the grammar that is no step.
fn first_other(alloc: Global) -> Result<Option<&'static str>, Fail> {
    for line in INSIDE.lines() {
        if !is_step(alloc, line, "", 0)? {
            return Ok(Some(line));
        }
    }
    Ok(None)
}

/// The message that a line queues.
fn message_of(alloc: Global, line: &str) -> Result<Vec<u8>, Fail> {
    match read_line(alloc, line.as_bytes())? {
        Said::Step(
            ScriptLine::Call {
                call: CallLine::Queue { content, .. },
                ..
            },
        ) => Ok(content.into_message(alloc)?.into_bytes()),
        Said::Step(_) => Ok(Vec::new(alloc)),
        Said::Nothing => Ok(Vec::new(alloc)),
        Said::Outside => Ok(Vec::new(alloc)),
    }
}

/// How many bytes the message has that a line queues.
fn length_of(alloc: Global, line: &str) -> Result<usize, Fail> {
    Ok(message_of(alloc, line)?.len())
}

/// Bytes count from 0 to 250, and then from 0 again.
fn bytes_count(alloc: Global) -> Result<bool, Fail> {
    let bytes = message_of(alloc, "queue a 1 0 - - *253")?;
    Ok(bytes.len() == 253 && bytes.starts_with(&[0, 1, 2]) && bytes.ends_with(&[249, 250, 0, 1]))
}

/// Whether bytes are those that a line spells.
fn bytes_are_spelled(alloc: Global) -> Result<bool, Fail> {
    let bytes = message_of(alloc, "queue a 1 0 - - 00ff")?;
    Ok(bytes.as_slice() == [0u8, 255].as_slice())
}

/// Whether there are as few and as many bytes as a line says.
fn lengths_are_so(alloc: Global) -> Result<bool, Fail> {
    let none = length_of(alloc, "queue a 1 0 - - *0")? == 0;
    let most = length_of(alloc, "queue a 1 0 - - *2000000")? == 2_000_000;
    Ok(none && most)
}

/// Heads and parts that stand behind them, with the least and the most counts of these.
const FIELDS: &str = "tick |a|1|16
end a 0 0 |c|17|80
open a b| 1.2.3.4:5|0|32
seek a |7f|1|64
seek a 6d| 1.2.3.4:5|0|32
inject a 1.2.3.4:5 |00|1|2048
forge a 1.2.3.4:5 |00|1|1164
queue a 1 0 - - |00|1|1048824
flow a 1 4 |00|1|1048826
";

/// Whether a part, so many times behind a head, is a step; what is less than none isn't.
fn is_less(alloc: Global, head: &str, part: &str, least: u32) -> Result<bool, Fail> {
    if least == 0 {
        return Ok(false);
    }
    is_step(alloc, head, part, least - 1)
}

/// Whether a part has no counts behind a head but those from the least to the most one.
fn is_limited(alloc: Global, head: &str, part: &str, least: u32, most: u32) -> Result<bool, Fail> {
    let less = is_less(alloc, head, part, least)?;
    let more = is_step(alloc, head, part, most.saturating_add(1))?;
    Ok(!less && !more)
}

/// Whether a part has these least and most counts behind a head.
fn are_steps(alloc: Global, head: &str, part: &str, least: u32, most: u32) -> Result<bool, Fail> {
    let least = is_step(alloc, head, part, least)?;
    let most = is_step(alloc, head, part, most)?;
    Ok(least && most)
}

/// A count of a row.
fn count(row: &str, index: usize) -> u32 {
    field(row, index).parse::<u32>().unwrap_or(0)
}

/// Whether the part of a row has its least and its most counts behind its head.
fn is_field(alloc: Global, row: &str) -> Result<bool, Fail> {
    let (head, part) = (field(row, 0), field(row, 1));
    let steps = are_steps(alloc, head, part, count(row, 2), count(row, 3))?;
    let limited = is_limited(alloc, head, part, count(row, 2), count(row, 3))?;
    Ok(steps && limited)
}

/// The first field that has other limits.
fn first_other_field(alloc: Global) -> Result<Option<&'static str>, Fail> {
    for row in FIELDS.lines() {
        if !is_field(alloc, row)? {
            return Ok(Some(row));
        }
    }
    Ok(None)
}

#[test]
fn lines_and_fields_have_their_limits(rt: HostRuntime) -> Result<(), Fail> {
    assert_eq!(rt; first_step(rt.alloc())?, None);
    assert_eq!(rt; first_other(rt.alloc())?, None);
    assert_eq!(rt; first_other_field(rt.alloc())?, None);
    assert!(rt; bytes_count(rt.alloc())?);
    assert!(rt; bytes_are_spelled(rt.alloc())?);
    assert!(rt; lengths_are_so(rt.alloc())?);
    Ok(())
}
