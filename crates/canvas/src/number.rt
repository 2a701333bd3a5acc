// Numbers and letters.
use layout::ZERO;

pub fn put(text: &[u8]) {
    io::write_all(1, text);
}

pub fn put_number(n: u64) {
    io::print_decimal(1, n);
}

// A text, then a number.
pub fn put_with(text: &[u8], n: u32) {
    put(text);
    put_number(n as u64);
}

// 640 x 480, with the sign for it.
pub fn put_times(wide: u32, high: u32) {
    put_with(b"", wide);
    put_with(b" &#215; ", high);
}

// n millionths.
fn put_millionths(n: u64) {
    put_number(n / 1000000);
    let rest = n % 1000000;
    if rest == 0 {
        return;
    }
    let mut digits = [0u8; 20];
    let k = io::decimal(1000000 + rest, &mut digits);
    if 1 < k {
        put(b".");
        put(&digits[1..k]);
    }
}

// A text, then n millionths.
pub fn put_fraction(text: &[u8], n: u64) {
    put(text);
    put_millionths(n);
}

// A number that may be negative, with `ZERO` added to it.
pub fn put_raised(n: u64) {
    if n < ZERO {
        put(b"-");
        put_number(ZERO - n);
        return;
    }
    put_number(n - ZERO);
}

// A letter or digit, and a dot for all else, which may mean something in SVG.
fn put_letter(b: u8) {
    if b.is_ascii_alphanumeric() {
        put(&[b]);
    } else {
        put(b".");
    }
}

// The four letters of a type.
pub fn put_kind(kind: u32) {
    for b in kind.to_be_bytes() {
        put_letter(b);
    }
}
