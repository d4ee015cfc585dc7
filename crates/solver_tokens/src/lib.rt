// The bytes of a solver's text by their places, and a token read from one of them.
#![tactic(auto)]

ghost use Rattle.std.specs.Prelude.{◌≡◌, ◌+◌, ◌≤◌, length};
ghost use Rattle.solver_tokens.specs.Token.{byte, end?, token, number_of, size_of, token_of};

// The number that digits say, and where they end.
#[derive(Clone, Copy)]
pub struct Number {
    pub size: usize,
    pub end: usize,
}

// A token: its sign and size, and where it ends.
#[derive(Clone, Copy)]
pub struct Token {
    pub negative: bool,
    pub size: usize,
    pub end: usize,
}

// The byte at a place, and behind the end the newline that the last line may lack.
pub fn byte_at(text: &[u8], at: usize) -> u8
    ensures { result ≡ byte text.now at }
{
    match text.get(at) {
        Some(d) => *d,
        None => b'\n',
    }
}

// Does a token end here?
fn is_end(d: u8) -> bool
    ensures { result ≡ end? d }
{
    (d == b' ') | (d == b'\n')
}

// Digits that say at most n. By index, not over a slice: behind the text stands a newline, which no slice holds.
fn read_digits(text: &[u8], from: usize, n: usize) -> Option<Number>
    requires { (from ≤ length text.now) × (n ≤ 65536) }
    ensures { result ≡ number_of n 0 (token text.now from) from }
{
    let mut x: usize = 0;
    let mut at = from;
    while x <= n {
        let d = byte_at(text, at);
        if !d.is_ascii_digit() {
            return is_end(d).then_some(Number { size: x, end: at });
        }
        x = 10 * x + usize::from(d - b'0');
        at += 1;
    }
    None
}

// The same where the text has six bytes or more from here on, for speed: they are read without asking where it ends. A number of six
// digits or more is left to `read_digits`.
fn near_digits(text: &[u8], from: usize, n: usize) -> Option<Number>
    requires { (from + 6 ≤ length text.now) × (n ≤ 65536) }
    ensures { result ≡ number_of n 0 (token text.now from) from }
{
    let mut x: usize = 0;
    for at in from..from + 6 {
        if n < x {
            return None;
        }
        let d = text[at];
        if !d.is_ascii_digit() {
            return is_end(d).then_some(Number { size: x, end: at });
        }
        x = 10 * x + usize::from(d - b'0');
    }
    read_digits(text, from, n)
}

// Digits that begin with no 0.
fn read_size(text: &[u8], from: usize, n: usize) -> Option<Number>
    requires { (from ≤ length text.now) × (n ≤ 65536) }
    ensures { result ≡ size_of n (token text.now from) from }
{
    let d = byte_at(text, from);
    if !d.is_ascii_digit() {
        return None;
    }
    if d == b'0' {
        return None;
    }
    if from + 6 <= text.len() {
        return near_digits(text, from, n);
    }
    read_digits(text, from, n)
}

// A token: 0, or a literal of a variable 1 to n.
pub fn read_token(text: &[u8], from: usize, n: usize) -> Option<Token>
    requires { (from ≤ length text.now) × (n ≤ 65536) }
    ensures { result ≡ token_of n (token text.now from) from }
{
    let first = byte_at(text, from);
    if first == b'0' {
        let end = from + 1;
        let next = byte_at(text, end);
        return is_end(next).then_some(Token {
            negative: false,
            size: 0,
            end,
        });
    }
    if first == b'-' {
        let x = read_size(text, from + 1, n)?;
        return Some(Token {
            negative: true,
            size: x.size,
            end: x.end,
        });
    }
    let x = read_size(text, from, n)?;
    Some(Token {
        negative: false,
        size: x.size,
        end: x.end,
    })
}
