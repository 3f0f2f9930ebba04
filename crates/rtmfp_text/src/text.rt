//! Text that is being made: numbers, bytes in hexadecimal, and words.
ghost use Rattle.std.specs.Prelude.{◌≡◌, ◌≤◌, ◌++◌, [], length, decimal, OnOk};
ghost use Rattle.hex.specs.Hex.{encode_lower};
ghost use Rattle.rtmfp_text.specs.Words.{bit_field_text, bit_text, bytes_text, field_text, number_field_text};

use itoa::Buffer;
use std::alloc::{AllocError, Global};
use std::marker::Model;

/// How many bytes are made digits of at a time.
const PIECE: usize = 64;

/// Bytes of text. The memory of a text that was cleared is used again.
#[derive(Drop)]
pub struct Text {
    bytes: Vec<u8>,
}

impl Model for Text {
    ghost use Rattle.std.specs.Prelude.{List, ℕ};

    ghost Value = { List ℕ };

    ghost view = { λ t. t.bytes.items };
}

impl Text {
    /// No text.
    pub fn new(alloc: Global) -> Text
        ensures { result ≡ [] }
    {
        Text {
            bytes: Vec::new(alloc),
        }
    }

    /// The bytes of the text.
    pub fn bytes(&self) -> &[u8]
        ensures { result.now ≡ self.now }
    {
        self.bytes.as_slice()
    }

    /// Drops the text, and keeps its memory.
    pub fn clear(&mut self)
        ensures { self.new ≡ [] }
    {
        self.bytes.clear();
    }

    /// Adds words.
    pub fn push(&mut self, words: &str) -> Result<(), AllocError>
        ensures { OnOk result (self.new ≡ self.old ++ words.now) }
    {
        self.bytes.extend_from_slice(words.as_bytes())
    }

    /// Adds bytes as they are.
    pub fn push_plain(&mut self, bytes: &[u8]) -> Result<(), AllocError>
        ensures { OnOk result (self.new ≡ self.old ++ bytes.now) }
    {
        self.bytes.extend_from_slice(bytes)
    }

    /// Adds a number in decimal.
    pub fn push_number(&mut self, number: u64) -> Result<(), AllocError>
        ensures { OnOk result (self.new ≡ self.old ++ decimal number) }
    {
        self.push(Buffer::new().format(number))
    }

    /// Adds bytes, each in two hexadecimal digits.
    pub fn push_hex(&mut self, bytes: &[u8]) -> Result<(), AllocError>
        ensures { OnOk result (self.new ≡ self.old ++ encode_lower bytes.now) }
    {
        let mut rest = bytes;
        while !rest.is_empty() {
            let (piece, after) = rest.split_at(rest.len().min(PIECE));
            self.push_piece(piece)?;
            rest = after;
        }
        Ok(())
    }

    /// Adds a few bytes, each in two hexadecimal digits.
    fn push_piece(&mut self, bytes: &[u8]) -> Result<(), AllocError>
        requires { length bytes.now ≤ PIECE }
        ensures { OnOk result (self.new ≡ self.old ++ encode_lower bytes.now) }
    {
        let mut digits = [0; 2 * PIECE];
        let digits = &mut digits[..2 * bytes.len()];
        // There are two digits for each byte, so nothing is refused.
        let _ = hex::encode_to_slice(bytes, digits);
        self.bytes.extend_from_slice(digits)
    }

    /// Adds bytes in hexadecimal, or `-` where there are none.
    pub fn push_bytes(&mut self, bytes: &[u8]) -> Result<(), AllocError>
        ensures { OnOk result (self.new ≡ self.old ++ bytes_text bytes.now) }
    {
        match bytes {
            [] => self.push("-"),
            _ => self.push_hex(bytes),
        }
    }

    /// Adds a field: its name, and its bytes in hexadecimal.
    pub fn push_field(&mut self, name: &str, bytes: &[u8]) -> Result<(), AllocError>
        ensures { OnOk result (self.new ≡ self.old ++ field_text name.now bytes.now) }
    {
        self.push(name)?;
        self.push_bytes(bytes)
    }

    /// Adds a field: its name, and its number in decimal.
    pub fn push_number_field(&mut self, name: &str, number: u64) -> Result<(), AllocError>
        ensures { OnOk result (self.new ≡ self.old ++ number_field_text name.now number) }
    {
        self.push(name)?;
        self.push_number(number)
    }

    /// Adds a field: its name, and its bit.
    pub fn push_bit_field(&mut self, name: &str, bit: bool) -> Result<(), AllocError>
        ensures { OnOk result (self.new ≡ self.old ++ bit_field_text name.now bit) }
    {
        self.push(name)?;
        self.push(bit_digit(bit))
    }
}

/// The digit of a bit.
pub fn bit_digit(bit: bool) -> &'static str
    ensures { result.now ≡ bit_text bit }
{
    if bit { "1" } else { "0" }
}
