//! Lines of the text of logs: each form is read and written again, and what is outside the grammar
//! is refused. What lines say is shown by the edges of `audit_text`; that memory is found where
//! there is much, here.

use audit_text::{LogLine, LogLineRefusal, read_log_line, write_log_line};
use rtmfp_text::Text;
use std::alloc::{AllocError, Global};
use std::test::Fail;

/// Lines that are read and written again. `$` stands for 64 digits, `%` for 32, `~` for 64 zeros,
/// `^` for 32, and `!` for a certificate.
const INSIDE: &str = "log a 1 1 0 ~ ~ !
log b 1 1 0 ~ ~ !
log abcdefghijklmnop 4294967295 4294967295 18446744073709551615 $ ~ !
event a 0 ^ tick
event a 18446744073709551615 % tick
event z9 17 % open $ ^
event a 17 % seek 7072696e746572 %
event a 17 ^ cancel 18446744073709551615
event a 17 ^ unseek 4294967295
event a 17 ^ close 0
event a 17 ^ learn $
event a 17 ^ advance
event a 17 % receive 10.0.0.1:1935 0f0e0d
event a 17 % receive [000102030405060708090a0b0c0d0e0f]:65535 -
event a 17 ^ other
+ started $ 1 7 %
+ born $ 1 7 8 % ^ 3
+ opened $ 18446744073709551615 4294967295 4294967295 % ^ 18446744073709551615
+ confirmed $ 7
+ ended $ 7 cancelled
+ ended $ 7 expired
+ ended $ 7 glare
+ ended $ 7 override
+ ended $ 7 unconfirmed
+ ended $ 7 near
+ ended $ 7 far
+ ended $ 7 idle
+ closed 7
+ sought 7 7072696e746572
+ unsought 7 cancelled
+ unsought 7 expired
+ learnt 1
+ advanced 1
+ out 10.0.0.2:1935 startup 0 0f0e0d
+ out [000102030405060708090a0b0c0d0e0f]:0 startup 1 -
+ out 10.0.0.2:1935 session 0 % ^ $ ~ 7 8 i 0f0e0d
+ out 10.0.0.2:1935 session 1 % ^ $ ~ 7 8 r 0f0e0d
";

/// Lines outside the grammar.
const OUTSIDE: &str = "
 # unsent 1
log
log a 1 1 0 ~ ~
log a 1 1 0 ~ ~ -
log a 1 1 0 ~ ! !
log a 1 1 0 ~ ~ ! 
log a 1 1 0 ~ ~ ! 0
log A 1 1 0 ~ ~ !
log a 01 1 0 ~ ~ !
log a 4294967296 1 0 ~ ~ !
log a 1 4294967296 0 ~ ~ !
log a 1 1 18446744073709551616 ~ ~ !
log a 1 1 0 ^ ~ !
log a 1 1 0 ~ ^ !
logs a 1 1 0 ~ ~ !
event
event a
event a 0 ^
event a 0 ^ 
event a 0 ^ ticks
event a 0 ^ tick 
event a 0 ^ tick 1
event a 0 ~ tick
event a -1 ^ tick
event a 0 % cancel 1
event a 0 % unseek 1
event a 0 % close 1
event a 0 % learn $
event a 0 % advance
event a 0 % other
event a 0 ^ open $
event a 0 ^ open % $
event a 0 ^ open $ $
event a 0 ^ seek - %
event a 0 ^ seek 80 %
event a 0 ^ cancel
event a 0 ^ close 4294967296
event a 0 ^ receive 10.0.0.1 00
event a 0 ^ receive 10.0.0.1:1935
event a 0 ^ receive 10.0.0.1:1935 
event a 0 ^ receive 10.0.0.1:1935 0
event a 0 ^ receive 10.0.0.1:1935 0F
+
+closed 7
+ closed
+ closed 07
+ closed 4294967296
+ started $ 1 7
+ started $ 1 7 $
+ started % 1 7 %
+ born $ 1 7 8 % ^
+ born $ 1 7 8 % ^ 18446744073709551616
+ opened $ 1 4294967296 8 % ^ 3
+ opened $ 1 7 4294967296 % ^ 3
+ confirmed 7
+ ended $ 7
+ ended 7 near
+ ended $ 7 closed
+ sought 7 -
+ unsought 7
+ unsought $ 7 expired
+ learnt
+ learnt 18446744073709551616
+ advanced -1
+ moved 7 10.0.0.1:1935
+ out 10.0.0.2:1935 0f0e0d
+ out 10.0.0.2:1935 startup 0f0e0d
+ out 10.0.0.2:1935 startup 0
+ out 10.0.0.2:1935 session 0 % ^ $ ~ 7 8 0f0e0d
+ out 10.0.0.2:1935 session 0 % ^ $ ~ 7 8 x 0f0e0d
+ out 10.0.0.2:1935 session 0 % ^ $ ~ 7 4294967296 i 0f0e0d
+ out 10.0.0.2:1935 session 0 $ ~ % ^ 7 8 i 0f0e0d
";

/// Adds what a byte of a row stands for.
fn push_byte(byte: u8, line: &mut Text) -> Result<(), AllocError> {
    match byte {
        b'$' => line.push("00112233445566778899aabbccddeeff0123456789abcdeffedcba9876543210"),
        b'%' => line.push("fedcba98765432100123456789abcdef"),
        b'~' => line.push("0000000000000000000000000000000000000000000000000000000000000000"),
        b'^' => line.push("00000000000000000000000000000000"),
        b'!' => line.push("54686520717569636b2062726f776e20666f78206a756d7073"),
        _ => line.push_plain(&[byte]),
    }
}

/// The line that a row stands for.
fn line_of(alloc: Global, row: &str) -> Result<Text, Fail> {
    let mut line = Text::new(alloc);
    for byte in row.as_bytes() {
        push_byte(*byte, &mut line)?;
    }
    Ok(line)
}

/// Whether a line is written as this text, with its LF.
fn is_written(alloc: Global, said: &LogLine, text: &[u8]) -> Result<bool, Fail> {
    let written = write_log_line(alloc, said)?;
    Ok(
        written.len() == text.len() + 1
            && written.bytes().starts_with(text)
            && written.bytes().ends_with(b"\n"),
    )
}

/// Whether a text is read, and written again.
fn is_inside(alloc: Global, text: &[u8]) -> Result<bool, Fail> {
    match read_log_line(alloc, text) {
        Ok(said) => is_written(alloc, &said, text),
        Err(_) => Ok(false),
    }
}

/// Whether a text is outside the grammar.
fn is_outside(alloc: Global, text: &[u8]) -> bool {
    match read_log_line(alloc, text) {
        Ok(_) => false,
        Err(LogLineRefusal::BadLine) => true,
        Err(LogLineRefusal::Memory) => false,
    }
}

fn is_skip(said: &LogLine) -> bool {
    match said {
        LogLine::Skip => true,
        _ => false,
    }
}

/// Whether a text is skipped.
fn is_skipped(alloc: Global, text: &[u8]) -> bool {
    match read_log_line(alloc, text) {
        Ok(said) => is_skip(&said),
        Err(_) => false,
    }
}

/// The first line in the grammar that isn't read, or not written again.
fn first_refused(alloc: Global) -> Result<Option<&'static str>, Fail> {
    for row in INSIDE.lines() {
        if !is_inside(alloc, line_of(alloc, row)?.bytes())? {
            return Ok(Some(row));
        }
    }
    Ok(None)
}

/// The first line outside the grammar that is read all the same.
fn first_taken(alloc: Global) -> Result<Option<&'static str>, Fail> {
    for row in OUTSIDE.lines() {
        if !is_outside(alloc, line_of(alloc, row)?.bytes()) {
            return Ok(Some(row));
        }
    }
    Ok(None)
}

/// A text with a byte so often behind it.
fn long(alloc: Global, head: &str, byte: u8, count: u32) -> Result<Text, Fail> {
    let mut line = Text::new(alloc);
    line.push(head)?;
    for _ in 0..count {
        line.push_plain(&[byte])?;
    }
    Ok(line)
}

/// A line has at most 8,192 bytes.
fn lines_have_their_length(alloc: Global) -> Result<bool, Fail> {
    let longest = long(alloc, "+ out 10.0.0.2:1935 startup 10 ", b'0', 8160)?;
    let most = is_inside(
        alloc,
        long(alloc, "+ out 10.0.0.2:1935 startup 1 ", b'0', 8162)?.bytes(),
    )?;
    let more = is_outside(
        alloc,
        long(alloc, "+ out 10.0.0.2:1935 startup 10 ", b'0', 8162)?.bytes(),
    );
    Ok(is_inside(alloc, longest.bytes())? && most && more)
}

/// Lines that begin with `#` are skipped, up to 8,192 bytes.
fn comments_are_skipped(alloc: Global) -> Result<bool, Fail> {
    let most = is_skipped(alloc, long(alloc, "#", b' ', 8191)?.bytes());
    let more = is_outside(alloc, long(alloc, "#", b' ', 8192)?.bytes());
    Ok(is_skipped(alloc, b"#") && is_skipped(alloc, b"# unsent 7") && most && more)
}

#[test]
fn lines_of_logs_are_read_and_written(rt: HostRuntime) -> Result<(), Fail> {
    assert_eq!(rt; first_refused(rt.alloc())?, None);
    assert_eq!(rt; first_taken(rt.alloc())?, None);
    assert!(rt; lines_have_their_length(rt.alloc())?);
    assert!(rt; comments_are_skipped(rt.alloc())?);
    Ok(())
}
