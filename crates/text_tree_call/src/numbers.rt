// The bytes of a text, and its numbers.
ghost use Rattle.std.specs.Prelude.{◌≡◌, ◌<◌, ◌≤◌, get_or};
ghost use Rattle.text_tree.specs.Reading.{grown, grows};
ghost use Rattle.text_tree_call.specs.Inner.{Passed, FirstDigit, CountRead, ThresholdRead};

use crate::Stuck;

// Kept: 0, not None, as the definitions read a text; lock_file, beside this crate, reads a file alike.
// The byte at a position; 0, which no text contains, after the end of the text.
pub(crate) fn byte_at(text: &[u8], at: usize) -> u8
    ensures { result ≡ get_or text.now at 0 }
{
    text.get(at).copied().unwrap_or(0)
}

// The position after this byte.
pub(crate) fn pass(text: &[u8], at: usize, byte: u8) -> Result<usize, Stuck>
    requires { 0 < byte }
    ensures { Passed text.now at byte result }
{
    if byte_at(text, at) != byte {
        return Err(Stuck(at));
    }
    Ok(at + 1)
}

// The value of a digit other than 0.
fn first_digit(text: &[u8], at: usize) -> Result<u32, Stuck>
    ensures { FirstDigit text.now at result }
{
    match byte_at(text, at) {
        b @ b'1'..=b'9' => Ok(u32::from(b - b'0')),
        _ => Err(Stuck(at)),
    }
}

// A number with one more digit.
fn grow(number: u32, b: u8) -> u32
    requires number_bound { number ≤ 65535 }
    requires le_b { 48 ≤ b }
    ensures { result ≡ grown number b }
{
    10 * number + u32::from(b - b'0')
}

// Whether a threshold with one more digit is still at most 65,535.
fn grows_with(number: u32, b: u8) -> bool
    requires { number ≤ 65535 }
    ensures { result ≡ grows number b }
{
    b.is_ascii_digit() && grow(number, b) < 65536
}

// A thread count, from after `#`: the position after it, and the count; counts above 257 become 257.
pub(crate) fn read_count(text: &[u8], at: usize) -> Result<(usize, u32), Stuck>
    ensures { CountRead text.now at result }
{
    let mut number = first_digit(text, at)?;
    for i in at + 1..text.len() {
        let b = text[i];
        if !b.is_ascii_digit() {
            return Ok((i, number));
        }
        number = grow(number, b).min(257);
    }
    Ok((text.len(), number))
}

// Kept: a count is capped where a threshold stops, so one loop for both would take each rule as a closure, and is no plainer.
// A threshold, as long as it is at most 65,535: the position after it, and the threshold.
pub(crate) fn read_threshold(text: &[u8], at: usize) -> Result<(usize, u16), Stuck>
    ensures { ThresholdRead text.now at result }
{
    let mut number = first_digit(text, at)?;
    for i in at + 1..text.len() {
        let b = text[i];
        if !grows_with(number, b) {
            return Ok((i, number as u16));
        }
        number = grow(number, b);
    }
    Ok((text.len(), number as u16))
}
