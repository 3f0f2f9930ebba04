//! The rows: a word for what is done, what is given, ` = `, and what comes of it.

use crate::chunks::{chunk_written, data_written};
use crate::flow_options::{flow_options_written, known_said, metadata_said};
use crate::forms::{address_said, address_written, options_said, options_written, whether_same};
use crate::numbers::{number_said, number_written};
use std::alloc::{AllocError, Global};
use std::test::Fail;

/// Numbers, each with its shortest spelling; bytes, and what stands in front of them: a number and
/// its length, or why there is none.
const NUMBERS: &str = "number 0 = 00
number 127 = 7f
number 128 = 8100
number 16383 = ff7f
number 16384 = 818000
number 18446744073709551615 = 81ffffffffffffffff7f
read-number 8005 = 5 in 2
read-number 7fff = 127 in 1
read-number 8080808080808080800506 = 5 in 10
read-number 81ffffffffffffffff7f = 18446744073709551615 in 10
read-number - = short
read-number 81 = short
read-number 808080808080808080 = short
read-number 80808080808080808080 = large
read-number 8080808080808080808005 = large
read-number 82ffffffffffffffff7f = large
read-number 82808080808080808000 = large
";

/// Bytes, and the list of options in front of them: its length, and each kind and value; or why
/// there is none. Bytes that begin with an address: its host, port, family and origin, and its
/// length. Whether two addresses are one place.
const FORMS: &str = "read-options 00 = 1
read-options 02004100 = 4 0:41
read-options 80038100410000ff = 6 128:41
read-options 010a010000 = 5 10:- 0:-
read-options 020041 = no-marker
read-options - = no-marker
read-options 0200 = short
read-options 018000 = short
read-options 0b808080 = short
read-options 0b80808080808080808080 = large
read-options 0b808080808080808080800000 = large
options 800280058000 = 010500
read-address 000a000001078f = 0a000001000000000000000000000000 1935 v6=false origin=0 in 7
read-address 7f0a000001078fff = 0a000001000000000000000000000000 1935 v6=false origin=3 in 7
read-address 8220010db80000000000000000000000011234 = 20010db8000000000000000000000001 4660 v6=true origin=2 in 19
read-address 000a00000107 = short
read-address 8220010db800000000000000000000000112 = short
read-address - = short
address 7f0a000001078f = 030a000001078f
address ff20010db80000000000000000000000011234 = 8320010db80000000000000000000000011234
same 000a000001078f 800a000001000000000000000000000000078f = false
same 8020010db80000000000000000000000011234 8320010db80000000000000000000000011234 = true
same 8020010db80000000000000000000000011234 8020010db80000000000000000000000021234 = false
same 8020010db80000000000000000000000011234 8020020db80000000000000000000000011234 = false
same 8020010db80000000000000000000000011234 8020010db80000000000000000000000011235 = false
";

/// A type and a payload, which is read, and written again in its shortest spelling: its type, its
/// length and its payload.
const CHUNKS: &str = "chunk 30 02414243 = 30000402414243
chunk 30 80014143 = 300003014143
chunk 0f 0141020a000001078f4344 = 0f000b0141020a000001078f4344
chunk 70 014102424344 = 700006014102424344
chunk 71 0141000a000001078f8220010db80000000000000000000000011234 = 71001c0141000a000001078f8220010db80000000000000000000000011234
chunk 79 014142 = 790003014142
chunk 01 6162 = 0100026162
chunk 41 - = 410000
chunk 0c ff = 0c0000
chunk 4c 0102 = 4c0000
chunk 7f 808100054142 = 7f0006808100054142
chunk 7f ff80010241 = 7f000480010241
chunk 38 010203040141014202434445 = 38000c010203040141014202434445
chunk 78 01020304014142 = 78000701020304014142
chunk ff - = none
data 10 8002030102006d00686921 = 10000b8002030102006d00686921
data 10 4c02030168 = 1000050002030168
data 10 3302030168 = 1000053302030168
data 10 02020300 = 10000402020300
data 11 6f = none
data 18 808100 = 1800028100
data 50 020105c103 = 500005020105c103
data 51 02010500010200 = 51000702010500010200
data 5e 80028007ff = 5e00020207
data 5e 0207 = 5e00020207
";

/// Options, and the metadata that they have. How many flows there are, options, and whether these
/// name no other flow. Metadata and an answered flow, and the options of a flow that has them.
const FLOW_OPTIONS: &str = "metadata 02006100 = 61
metadata 02006102006200 = 61
metadata 020a0502006100 = 61
metadata 010000 = -
metadata 03800061020a0500 = 61
metadata 020161020a0000 = none
metadata 00 = none
known 6 020a0500 = true
known 5 020a0500 = false
known 6 030a800500 = true
known 7 030a050600 = false
known 9 010a00 = false
known 9 020a8500 = false
known 2 020a00020a0100 = true
known 2 020a01020a0200 = false
known 2 020a02020a0100 = false
known 0 02006102090700 = true
known 128 030a810000 = false
known 129 030a810000 = true
known 6 03800a0500 = true
known 5 03800a0500 = false
known 9 04800a050500 = false
flow-options 61 none = 02006100
flow-options 61 5 = 020061020a0500
flow-options - 128 = 0100030a810000
flow-options 6d6574 18446744073709551615 = 04006d65740b0a81ffffffffffffffff7f00
";

/// What is given, and what comes of it.
fn sides(row: &str) -> (&str, &str) {
    row.split_once(" = ").unwrap_or(("", ""))
}

/// The first word of a text, and the rest.
pub(crate) fn first_word(text: &str) -> (&str, &str) {
    text.split_once(' ').unwrap_or((text, ""))
}

/// Bytes in hexadecimal; `-` stands for none.
pub(crate) fn bytes(alloc: Global, word: &str) -> Result<Vec<u8>, Fail> {
    if word == "-" {
        return Ok(Vec::new(alloc));
    }
    Ok(hex::decode(alloc, word.as_bytes()).ok().ok_or("bytes")?)
}

/// Bytes as a word, `-` where there are none.
pub(crate) fn digits(alloc: Global, bytes: &[u8]) -> Result<String, AllocError> {
    if bytes.is_empty() {
        return String::from_str(alloc, "-");
    }
    hex::encode(alloc, bytes)
}

/// What comes of chunks and of options of flows that are given, in words.
fn chunks_told(alloc: Global, what: &str, given: &str) -> Result<String, Fail> {
    match what {
        "chunk" => chunk_written(alloc, given),
        "data" => data_written(alloc, given),
        "metadata" => metadata_said(alloc, given),
        "known" => known_said(alloc, given),
        "flow-options" => flow_options_written(alloc, given),
        _ => Err(Fail::from("an unknown word")),
    }
}

/// What comes of options and addresses that are given, in words.
fn forms_told(alloc: Global, what: &str, given: &str) -> Result<String, Fail> {
    match what {
        "read-options" => options_said(alloc, given),
        "options" => options_written(alloc, given),
        "read-address" => address_said(alloc, given),
        "address" => address_written(alloc, given),
        "same" => whether_same(alloc, given),
        _ => chunks_told(alloc, what, given),
    }
}

/// What comes of what is given, in words.
fn told(alloc: Global, given: &str) -> Result<String, Fail> {
    let (what, given) = first_word(given);
    match what {
        "number" => number_written(alloc, given),
        "read-number" => number_said(alloc, given),
        _ => forms_told(alloc, what, given),
    }
}

/// Whether a row is so.
fn is_so(alloc: Global, row: &str) -> Result<bool, Fail> {
    let (given, want) = sides(row);
    let told = told(alloc, given)?;
    Ok(told.as_str() == want)
}

/// The first row of a table that isn't so.
fn first_wrong(alloc: Global, table: &'static str) -> Result<Option<&'static str>, Fail> {
    for row in table.lines() {
        if !is_so(alloc, row)? {
            return Ok(Some(row));
        }
    }
    Ok(None)
}

/// The first row of these tables that isn't so.
fn wrong_in(alloc: Global, tables: &[&'static str]) -> Result<Option<&'static str>, Fail> {
    for table in tables {
        if let Some(row) = first_wrong(alloc, table)? {
            return Ok(Some(row));
        }
    }
    Ok(None)
}

#[test]
fn rows_are_so(rt: HostRuntime) -> Result<(), Fail> {
    let wrong = wrong_in(rt.alloc(), &[NUMBERS, FORMS, CHUNKS, FLOW_OPTIONS])?;
    assert_eq!(rt; wrong, None);
    Ok(())
}
