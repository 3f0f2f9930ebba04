//! Seals, opens or hashes. A line is a word, the length of a plain packet, and how often. Its answer
//! is the word and the last byte of the buffer then, which goes from line to line.

ghost use Rattle.std.specs.Prelude.{◌≤◌, length};

use crate::number;
use crypto_profile::{Context, Keys, open_in_place, seal_in_place};
use sha2::{Digest, Sha256};
use std::io;

const HEAD_LEN: usize = 32;

pub(crate) const BUFFER_LEN: usize = 65_536;

const SID: u32 = 7;

/// Answers a line.
pub(crate) fn answer(
    rt: &HostRuntime,
    word: &str,
    line: &str,
    buf: &mut [u8; BUFFER_LEN],
) -> io::Result<()> {
    let len = number(line, 1).min(65_504) as usize;
    let last = run(word, &mut buf[..HEAD_LEN + len], number(line, 2));
    println!(rt; "{word} {last}")
}

/// Does what a line tells, and gives the last byte.
fn run(word: &str, buf: &mut [u8], count: u64) -> u8
    requires { 32 ≤ length buf.old }
{
    let keys = Keys::of(&[1; 32], &Context::Startup { generation: 0 });
    if word == "seal" {
        seal(&keys, buf, count);
    } else if word == "open" {
        open(&keys, buf, count);
    } else if word == "hash" {
        hash(buf, count);
    }
    buf[buf.len() - 1]
}

fn seal(keys: &Keys, buf: &mut [u8], count: u64)
    requires { 32 ≤ length buf.old }
{
    for _ in 0..count {
        seal_in_place(keys, SID, [2; 16], buf);
    }
}

/// Opens copies of one sealed part.
fn open(keys: &Keys, buf: &mut [u8], count: u64)
    requires { 32 ≤ length buf.old }
{
    let mut sealed = [0u8; BUFFER_LEN];
    let len = buf.len().min(BUFFER_LEN);
    seal_in_place(keys, SID, [2; 16], &mut buf[..len]);
    sealed[..len].copy_from_slice(&buf[..len]);
    for _ in 0..count {
        buf[..len].copy_from_slice(&sealed[..len]);
        if open_in_place(keys, SID, &mut buf[..len]).is_err() {
            break;
        }
    }
}

fn hash(buf: &mut [u8], count: u64)
    requires { 32 ≤ length buf.old }
{
    for _ in 0..count {
        let digest = Sha256::digest(&*buf);
        buf[0] = digest[0];
    }
}
