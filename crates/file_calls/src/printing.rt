// Decimal numerals, the listing of a run, and the refusal line.
ghost use Rattle.std.specs.Prelude.{◌≡◌, ◌+◌, ◌*◌, ◌≤◌, leb, length, IfSome};
ghost use Rattle.std.proofs.lemmas.List.Edits.{sets};
ghost use Rattle.lock_file.specs.PrintedListing.Listing.{numeral, number_then, trace_lines, spaced, count_numbers, first_line, listing, refusal_line, printed, printed_length, fitted};

use model::Counts;

// How many digits a numeral has.
fn digit_count(value: u32) -> usize
    ensures value { result ≡ length (numeral value) }
    ensures upper_bound { result ≤ 10 }
{
    value.checked_ilog10().unwrap_or(0) as usize + 1
}

// Kept: a loop that divides by ten is plainer here than an iterator over the quotients.
// Writes a numeral at a position, the last digit first, and returns the position after it.
fn put_numeral(output: &mut [u8], at: usize, value: u32) -> usize
    requires { at + length (numeral value) ≤ length output.old }
    ensures value { result ≡ at + length (numeral value) }
    ensures output_after { output.new ≡ sets output.old at (numeral value) }
{
    let count = digit_count(value);
    let mut rest = value;
    let mut left = count;
    while 10 <= rest {
        left -= 1;
        output[at + left] = b'0' + (rest % 10) as u8;
        rest /= 10;
    }
    output[at] = b'0' + rest as u8;
    at + count
}

// Writes a numeral and the byte after it, and returns the position after both.
fn put_number(output: &mut [u8], at: usize, value: u32, following: u8) -> usize
    requires { at + length (number_then value following) ≤ length output.old }
    ensures value { result ≡ at + length (number_then value following) }
    ensures output_after { output.new ≡ sets output.old at (number_then value following) }
{
    let end = put_numeral(output, at, value);
    output[end] = following;
    end + 1
}

// How many bytes a numeral and the byte after it take.
fn number_length(value: u32) -> usize
    ensures value { result ≡ length (numeral value) + 1 }
    ensures upper_bound { result ≤ 11 }
{
    digit_count(value) + 1
}

// Writes numbers at a position, each after a space, and a line feed; returns the position after it.
fn put_spaced(output: &mut [u8], start: usize, numbers: &[u32]) -> usize
    requires { start + length (spaced numbers.now) ≤ length output.old }
    ensures value { result ≡ start + length (spaced numbers.now) }
    ensures output_after { output.new ≡ sets output.old start (spaced numbers.now) }
{
    let mut at = start;
    for n in numbers {
        output[at] = b' ';
        at = put_numeral(output, at + 1, *n);
    }
    output[at] = b'\n';
    at + 1
}

// How many bytes they take.
fn spaced_length(numbers: &[u32]) -> usize
    requires { length numbers.now ≤ 8 }
    ensures value { result ≡ length (spaced numbers.now) }
    ensures upper_bound { result ≤ 89 }
{
    let mut total = 1;
    for n in numbers {
        total += number_length(*n);
    }
    total
}

fn numbers_of(counts: Counts) -> [u32; 6]
    ensures { result ≡ count_numbers counts }
{
    [
        counts.steps,
        counts.entries,
        counts.stays,
        counts.root,
        counts.passed,
        counts.crossed,
    ]
}

// Writes the first line at the front, and returns its length.
fn put_first_line(output: &mut [u8], counts: Counts) -> usize
    requires { length (first_line counts) ≤ length output.old }
    ensures value { result ≡ length (first_line counts) }
    ensures output_after { output.new ≡ sets output.old 0 (first_line counts) }
{
    let numbers = numbers_of(counts);
    output[..2].copy_from_slice(b"ok");
    put_spaced(output, 2, &numbers)
}

fn first_line_length(counts: Counts) -> usize
    ensures value { result ≡ length (first_line counts) }
    ensures upper_bound { result ≤ 91 }
{
    let numbers = numbers_of(counts);
    2 + spaced_length(&numbers)
}

// Writes one line per trace element at a position, and returns the position after the last.
fn put_trace(output: &mut [u8], start: usize, trace: &[u16]) -> usize
    requires { start + length (trace_lines trace.now) ≤ length output.old }
    ensures value { result ≡ start + length (trace_lines trace.now) }
    ensures upper_bound { result ≤ start + 11 * length trace.now }
    ensures output_after { output.new ≡ sets output.old start (trace_lines trace.now) }
{
    let mut at = start;
    for i in trace {
        at = put_number(output, at, u32::from(*i), b'\n');
    }
    at
}

// Whether the lines of a trace fit. The lengths are subtracted from the space left, so that no sum can wrap.
fn trace_fits(trace: &[u16], room: usize) -> bool
    ensures { result ≡ leb (length (trace_lines trace.now)) room }
{
    let mut left = room;
    for i in trace {
        match left.checked_sub(number_length(u32::from(*i))) {
            Some(rest) => left = rest,
            None => return false,
        }
    }
    true
}

// Writes the listing at the front and returns its length, or nothing if it does not fit. It is measured first, so that an output buffer that is too short is unchanged.
pub(crate) fn put_listing(counts: Counts, trace: &[u16], output: &mut [u8]) -> Option<usize>
    ensures value { result ≡ fitted (listing counts trace.now) (length output.old) }
    ensures upper_bound { IfSome result (λ n. n ≤ 91 + 11 * length trace.now) }
    ensures output_after { output.new ≡ printed (listing counts trace.now) output.old }
{
    let line = first_line_length(counts);
    if output.len() < line || !trace_fits(trace, output.len() - line) {
        return None;
    }
    let at = put_first_line(output, counts);
    Some(put_trace(output, at, trace))
}

// The same; 0 is returned if the listing does not fit.
pub fn write_listing(counts: Counts, trace: &[u16], output: &mut [u8]) -> usize
    ensures value { result ≡ printed_length (listing counts trace.now) (length output.old) }
    ensures upper_bound { result ≤ 91 + 11 * length trace.now }
    ensures output_after { output.new ≡ printed (listing counts trace.now) output.old }
{
    put_listing(counts, trace, output).unwrap_or(0)
}

// Kept: 0 for a line that does not fit is what the function promises, and no function inside needs it as an Option.
// Writes the refusal line at the front and returns its length; an output buffer that is too short is unchanged, and 0 is returned.
pub fn write_refusal(number: u32, place: u32, output: &mut [u8]) -> usize
    ensures value { result ≡ printed_length (refusal_line number place) (length output.old) }
    ensures output_after { output.new ≡ printed (refusal_line number place) output.old }
{
    let numbers = [number, place];
    let total = 7 + spaced_length(&numbers);
    if output.len() < total {
        return 0;
    }
    output[..7].copy_from_slice(b"refused");
    put_spaced(output, 7, &numbers)
}
