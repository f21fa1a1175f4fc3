//! Flags that take a bit each.
ghost use Rattle.std.specs.Prelude.{◌≡◌, ℕ, ◌+◌, ◌*◌, ◌^◌, ◌<◌, ◌≤◌, ◌⊎◌, true, false, not, length, slice_index_or};
ghost use Rattle.bt_tcp.specs.Bits.{places, bit, flag, whole, IsFilled, IsCopiedTo};

/// How many bytes are looked at together.
const BLOCK: usize = 32;

/// Returns a flag.
#[tactic(auto, unfolding(crate::specs::Bits::flag))]
pub fn get(bits: &[u8], i: usize) -> bool
    requires { i < places bits.now }
    ensures { result ≡ flag bits.now i }
{
    bits[i / 8] >> (i % 8) & 1 == 1
}

/// Returns a byte of eight flags that are alike.
fn whole(value: bool) -> u8
    ensures { result ≡ whole value }
{
    if value { 255 } else { 0 }
}

/// Returns a byte with bits from one on up to another set to a value.
fn with_bits(byte: u8, from: usize, to: usize, value: bool) -> u8
    requires order { from ≤ to }
    requires within { to ≤ 8 }
    ensures inside { (i : ℕ) → from ≤ i → i < to → bit result i ≡ value }
    ensures outside { (i : ℕ) → i < 8 → (i < from) ⊎ (to ≤ i) → bit result i ≡ bit byte i }
{
    let mask = ((1u16 << to) - (1u16 << from)) as u8;
    if value {
        byte | mask
    } else {
        byte ^ (byte & mask)
    }
}

/// Sets flags of one byte.
fn fill_byte(bits: &mut [u8], at: usize, from: usize, to: usize, value: bool)
    requires at { at < length bits.old }
    requires order { from ≤ to }
    requires within { to ≤ 8 }
    ensures { IsFilled bits.old (8 * at + from) (8 * at + to) value bits.new }
{
    bits[at] = with_bits(bits[at], from, to, value);
}

/// Writes a byte from one place on up to another.
fn put_bytes(bytes: &mut [u8], from: usize, to: usize, byte: u8)
    requires order { from ≤ to }
    requires within { to ≤ length bytes.old }
    ensures inside { (i : ℕ) → from ≤ i → i < to → slice_index_or bytes.new i 0 ≡ byte }
    ensures before { (i : ℕ) → i < from → slice_index_or bytes.new i 0 ≡ slice_index_or bytes.old i 0 }
    ensures after { (i : ℕ) → to ≤ i → slice_index_or bytes.new i 0 ≡ slice_index_or bytes.old i 0 }
{
    bytes[from..to].fill(byte);
}

/// Sets all flags of some bytes.
fn fill_bytes(bits: &mut [u8], from: usize, to: usize, value: bool)
    requires order { from ≤ to }
    requires within { to ≤ length bits.old }
    ensures { IsFilled bits.old (8 * from) (8 * to) value bits.new }
{
    put_bytes(bits, from, to, whole(value));
}

/// Sets flags from one on up to another.
pub fn fill(bits: &mut [u8], from: usize, to: usize, value: bool)
    requires order { from ≤ to }
    requires within { to ≤ places bits.old }
    ensures { IsFilled bits.old from to value bits.new }
{
    let (first, last) = (from / 8, to / 8);
    if first == last {
        if from < to {
            fill_byte(bits, first, from % 8, to % 8, value);
        }
        return;
    }
    fill_byte(bits, first, from % 8, 8, value);
    fill_bytes(bits, first + 1, last, value);
    if to % 8 > 0 {
        fill_byte(bits, last, 0, to % 8, value);
    }
}

/// Tells whether all bytes are this one. It has no early end, so that it looks at many at once.
fn are_all(bytes: &[u8], byte: u8) -> bool
    ensures { result ≡ true → (k : ℕ) → k < length bytes.now → slice_index_or bytes.now k 0 ≡ byte }
{
    let mut all = true;
    for b in bytes {
        all = all & (*b == byte);
    }
    all
}

/// Counts blocks at the front that have only this byte.
fn count_blocks(bytes: &[u8], byte: u8) -> usize
    ensures within { result * 32 ≤ length bytes.now }
    ensures same { (k : ℕ) → k < result * 32 → slice_index_or bytes.now k 0 ≡ byte }
{
    let blocks = bytes.len() / BLOCK;
    for k in 0..blocks {
        if !are_all(&bytes[k * BLOCK..(k + 1) * BLOCK], byte) {
            return k;
        }
    }
    blocks
}

/// Counts the bytes at the front that are this one, one by one.
fn count_front(bytes: &[u8], byte: u8) -> usize
    ensures within { result ≤ length bytes.now }
    ensures same { (k : ℕ) → k < result → slice_index_or bytes.now k 0 ≡ byte }
{
    for (k, b) in bytes.iter().enumerate() {
        if *b != byte {
            return k;
        }
    }
    bytes.len()
}

/// Counts the bytes at the front that are this one.
fn count_bytes(bytes: &[u8], byte: u8) -> usize
    ensures within { result ≤ length bytes.now }
    ensures same { (k : ℕ) → k < result → slice_index_or bytes.now k 0 ≡ byte }
{
    let blocks = count_blocks(bytes, byte) * BLOCK;
    blocks + count_front(&bytes[blocks..], byte)
}

/// Returns where flags of a value end, from one on up to another, looking at each.
fn end_by_flag(bits: &[u8], from: usize, to: usize, value: bool) -> usize
    requires order { from ≤ to }
    requires within { to ≤ places bits.now }
    ensures from { from ≤ result }
    ensures to { result ≤ to }
    ensures same { (k : ℕ) → from ≤ k → k < result → flag bits.now k ≡ value }
    ensures ends { result < to → flag bits.now result ≡ not value }
{
    for i in from..to {
        if get(bits, i) != value {
            return i;
        }
    }
    to
}

/// Returns where flags of a value end, from a byte's first one on up to another.
fn end_by_byte(bits: &[u8], at: usize, to: usize, value: bool) -> usize
    requires order { 8 * at ≤ to }
    requires within { to ≤ places bits.now }
    ensures from { 8 * at ≤ result }
    ensures to { result ≤ to }
    ensures same { (k : ℕ) → 8 * at ≤ k → k < result → flag bits.now k ≡ value }
    ensures ends { result < to → flag bits.now result ≡ not value }
{
    let count = count_bytes(&bits[at..to / 8], whole(value));
    end_by_flag(bits, (at + count) * 8, to, value)
}

/// Returns where flags of a value end, from one on up to another.
pub fn end(bits: &[u8], from: usize, to: usize, value: bool) -> usize
    requires order { from ≤ to }
    requires within { to ≤ places bits.now }
    ensures from { from ≤ result }
    ensures to { result ≤ to }
    ensures same { (k : ℕ) → from ≤ k → k < result → flag bits.now k ≡ value }
    ensures ends { result < to → flag bits.now result ≡ not value }
{
    let at = from.div_ceil(8);
    if to / 8 < at {
        return end_by_flag(bits, from, to, value);
    }
    let i = end_by_flag(bits, from, at * 8, value);
    if i < at * 8 {
        return i;
    }
    end_by_byte(bits, at, to, value)
}

/// Returns up to where flags are copied at once: all up to the end of this value, if they begin with a whole byte of it, or only one.
fn end_of_step(bits: &[u8], from: usize, to: usize, value: bool) -> usize
    requires order { from < to }
    requires within { to ≤ places bits.now }
    requires value { flag bits.now from ≡ value }
    ensures from { from < result }
    ensures to { result ≤ to }
    ensures same { (k : ℕ) → from ≤ k → k < result → flag bits.now k ≡ value }
{
    if from % 8 == 0 && bits[from / 8] == whole(value) {
        return end(bits, from, to, value);
    }
    from + 1
}

/// Copies flags from one on to another on.
pub fn copy(bits: &[u8], from: usize, count: usize, to: &mut [u8], at: usize)
    requires from { from + count ≤ places bits.now }
    requires to { at + count ≤ places to.old }
    requires from_end { from + count < 2 ^ 64 }
    requires to_end { at + count < 2 ^ 64 }
    ensures { IsCopiedTo bits.now from count to.old at to.new }
{
    let mut k = 0usize;
    while k < count {
        let value = get(bits, from + k);
        let more = end_of_step(bits, from + k, from + count, value) - from;
        fill(to, at + k, at + more, value);
        k = more;
    }
}
