ghost use Rattle.std.specs.Prelude.{◌≡◌, ℕ, ◌≤◌, ◌++◌, List, length, take, drop};
ghost use Rattle.rtmfp_vlu.specs.Vlu.{Shortest, vlu};

/// The length of a number's shortest spelling, 1 to 10.
pub fn vlu_len(value: u64) -> usize
    ensures shortest { (s : List ℕ) → Shortest value s → result ≡ length s }
    ensures length { result ≡ length (vlu value) }
    ensures within { result ≤ 10 }
{
    (value.max(1).ilog2() / 7 + 1) as usize
}

/// Writes the shortest spelling of a number at the front, and gives its length. The bytes after it
/// stay as they are.
pub fn write_vlu(value: u64, out: &mut [u8; 10]) -> usize
    ensures shortest { Shortest value (take result out.new) }
    ensures written { out.new ≡ vlu value ++ drop result out.old }
    ensures length { result ≡ length (vlu value) }
{
    let len = vlu_len(value);
    let mut at = len - 1;
    let mut rest = value;
    out[at] = (rest & 0x7f) as u8;
    while at > 0 {
        at -= 1;
        rest >>= 7;
        out[at] = 0x80 | (rest & 0x7f) as u8;
    }
    len
}
