// The text of a formula, written to the start of the slice that is lent. The answer is the number of bytes.
#![tactic(auto)]

ghost use Rattle.std.specs.Prelude.{◌≡◌, ◌++◌, ◌+◌, ◌*◌, ◌/◌, ◌≤◌, ◌<◌, pos, neg_ℤ, nat_abs, length, take};
ghost use Rattle.lists.specs.Slice.{filled, Wrote};
ghost use Rattle.decimals.specs.Decimals.{digit, decimal};
ghost use Rattle.dimacs.specs.Text.{ended, after, word_text, words_text, header_text, refusal_text};
ghost use Rattle.dimacs.specs.Table.{Begins, Entry, Sized, Numbers, Negatives, Texts, Texts-prop, entry_at, entry_of, Within, Pairs, pair_text};

// The byte of a digit.
fn digit_of(d: usize) -> u8
    requires { d < 10 }
    ensures { result ≡ digit d }
{
    b'0' + d as u8
}

// The digits of a number: those of a tenth of it, then its last one. (By the library's formatting it is no plainer: that writes to a
// buffer of its own, and states other words for the digits.)
fn put_digits(out: &mut [u8], x: usize) -> usize
    requires { length (decimal x) ≤ length out.old }
    ensures { Wrote (decimal x) out.old out.new result }
{
    if x < 10 {
        out[0] = digit_of(x);
        return 1;
    }
    let n = put_digits(out, x / 10);
    out[n] = digit_of(x % 10);
    n + 1
}

// A number.
pub fn put_number(out: &mut [u8], x: usize) -> usize
    requires { 20 ≤ length out.old }
    ensures { Wrote (decimal x) out.old out.new result }
{
    put_digits(out, x)
}

// A number and one byte after it.
fn put_ended(out: &mut [u8], x: usize, byte: u8) -> usize
    requires { length (decimal x) < length out.old }
    ensures { Wrote (ended x byte) out.old out.new result × (result ≤ 21) }
{
    let n = put_digits(out, x);
    out[n] = byte;
    n + 1
}

// What follows the word x: the line's end after 0, or a space.
fn end_of(x: usize) -> u8
    ensures { result ≡ after (pos x) }
{
    if x == 0 {
        return b'\n';
    }
    b' '
}

// An entry of the table of texts: the text of the number x, and its length in the eighth byte.
fn put_entry(out: &mut [u8], x: usize)
    requires { (x < 100000) × (8 ≤ length out.old) }
    ensures { Entry (pos x) (take 8 out.new) }
{
    let n = put_ended(out, x, end_of(x));
    out[7] = n as u8;
}

// The entry of x from that of x / 10: one digit more.
fn put_longer(out: &mut [u8], tenth: &[u8; 8], x: usize)
    requires { Entry (pos (x / 10)) tenth.now × (10 ≤ x) × (x < 100000) × (8 ≤ length out.old) }
    ensures { Entry (pos x) (take 8 out.new) }
{
    out[..8].copy_from_slice(tenth);
    let n = usize::from(tenth[7]);
    out[n - 1] = digit_of(x % 10);
    out[n] = b' ';
    out[7] = (n + 1) as u8;
}

// The entry of -x from that of x: a minus sign, and the text of x.
fn put_negated(out: &mut [u8], entry: &[u8; 8], x: usize)
    requires { Entry (pos x) entry.now × (0 < x) × (x < 100000) × (8 ≤ length out.old) }
    ensures { Entry (neg_ℤ (pos x)) (take 8 out.new) }
{
    out[0] = b'-';
    out[1..7].copy_from_slice(&entry[..6]);
    out[7] = entry[7] + 1;
}

// Entry i of a table. It is read by value: written from there it is one move of eight bytes, where a copy from slice to slice would first
// ask whether they overlap.
fn copied_entry(texts: &[u8], i: usize) -> [u8; 8]
    requires { 8 * i + 8 ≤ length texts.now }
    ensures { result ≡ entry_at texts.now i }
{
    texts.as_chunks().0[i]
}

// (These functions take the slice and its top: a struct round the two is no plainer, since each would first take the slice out again.)

// The entry of x, in a table that has those of the numbers below x.
fn put_positive(texts: &mut [u8], top: usize, x: usize)
    requires { Sized top texts.old × (x ≤ top) × Numbers top x texts.old }
    ensures { Numbers top (x + 1) texts.new }
{
    let at = 8 * (top + x);
    let to = at + 8;
    if 10 <= x {
        let tenth = copied_entry(texts, top + x / 10);
        put_longer(&mut texts[at..to], &tenth, x);
        return;
    }
    put_entry(&mut texts[at..to], x);
}

// The entry of -x, in a table that has those of all numbers and of the negatives of those below x.
fn put_negative(texts: &mut [u8], top: usize, x: usize)
    requires { Sized top texts.old × (0 < x) × (x ≤ top) × Numbers top (top + 1) texts.old × Negatives top x texts.old }
    ensures { Numbers top (top + 1) texts.new × Negatives top (x + 1) texts.new }
{
    let entry = copied_entry(texts, top + x);
    let at = 8 * (top - x);
    let to = at + 8;
    put_negated(&mut texts[at..to], &entry, x);
}

// The entries of the numbers from 0 to top.
fn put_numbers(texts: &mut [u8], top: usize)
    requires { Sized top texts.old }
    ensures { Numbers top (top + 1) texts.new }
{
    for x in 0..top + 1 {
        put_positive(texts, top, x);
    }
}

// The texts of the words from -top to top.
pub fn put_texts(texts: &mut [u8], top: usize)
    requires { Sized top texts.old }
    ensures { Texts top texts.new }
{
    put_numbers(texts, top);
    for x in 1..top + 1 {
        put_negative(texts, top, x);
    }
}

// The number of a word's entry.
fn entry_of(w: i32, top: usize) -> usize
    requires { (top < 100000) × (nat_abs w ≤ top) }
    ensures { result ≡ entry_of top w }
{
    (top as i64 + i64::from(w)) as usize
}

// A table of texts: those of the words from -top to top, eight bytes for each.
#[derive(Clone, Copy)]
pub struct WordTexts<'a> {
    pub bytes: &'a [u8],
    pub top: usize,
    pub ghost all: { Texts top bytes.now } by { Texts-prop top bytes.now },
}

impl<'a> WordTexts<'a> {
    // The table of the words from -top to top, in bytes that are lent for it.
    pub fn new(bytes: &'a mut [u8], top: usize) -> WordTexts<'a>
        requires { Sized top bytes.old }
        ensures { result.top ≡ top }
    {
        put_texts(bytes, top);
        WordTexts { bytes, top }
    }

    // The entry of a word.
    fn entry(self, w: i32) -> [u8; 8]
        requires { nat_abs w ≤ self.top }
        ensures { Entry w result }
    {
        copied_entry(self.bytes, entry_of(w, self.top))
    }

    // The text of a word. Bytes behind it, up to the eighth, are written over; so it is with the functions below.
    fn put_word(self, out: &mut [u8], w: i32) -> usize
        requires { (nat_abs w ≤ self.top) × (8 ≤ length out.old) }
        ensures { Begins (word_text w) out.new result × (result ≤ 8) }
    {
        let entry = self.entry(w);
        out[..8].copy_from_slice(&entry);
        usize::from(entry[7])
    }

    // The words of clauses, a line for each clause.
    pub fn put_words(self, out: &mut [u8], words: &[i32]) -> usize
        requires { Within self.top words.now × (8 * length words.now ≤ length out.old) }
        ensures { Begins (words_text words.now) out.new result × (result ≤ 8 * length words.now) }
    {
        let mut at: usize = 0;
        for w in words {
            at += self.put_word(&mut out[at..], *w);
        }
        at
    }

    // A clause of two literals.
    fn put_pair(self, out: &mut [u8], x: i32, y: i32) -> usize
        requires { (nat_abs x ≤ self.top) × (nat_abs y ≤ self.top) × (24 ≤ length out.old) }
        ensures { Begins (pair_text x y) out.new result × (result ≤ 24) }
    {
        let m = self.put_word(out, x);
        let n = m + self.put_word(&mut out[m..], y);
        out[n] = b'0';
        out[n + 1] = b'\n';
        n + 2
    }

    // The words of clauses of two literals each: what `put_words` writes, without a look at each 0.
    pub fn put_pairs(self, out: &mut [u8], words: &[i32]) -> usize
        requires { Within self.top words.now × Pairs words.now × (8 * length words.now ≤ length out.old) }
        ensures { Begins (words_text words.now) out.new result × (result ≤ 8 * length words.now) }
    {
        let mut at: usize = 0;
        for [x, y, _] in words.as_chunks::<3>().0 {
            at += self.put_pair(&mut out[at..], *x, *y);
        }
        at
    }
}

// A line: a label, two numbers with a space between them, and the line's end.
fn put_line(out: &mut [u8], label: &[u8], x: usize, y: usize) -> usize
    requires { length label.now + 42 ≤ length out.old }
    ensures { Wrote (label.now ++ (ended x 32 ++ ended y 10)) out.old out.new result × (result ≤ length label.now + 42) }
{
    let n = label.len();
    out[..n].copy_from_slice(label);
    let to = n + put_ended(&mut out[n..], x, b' ');
    to + put_ended(&mut out[to..], y, b'\n')
}

// The header.
pub fn put_header(out: &mut [u8], variables: usize, clauses: usize) -> usize
    requires { 48 ≤ length out.old }
    ensures { Wrote (header_text variables clauses) out.old out.new result × (result ≤ 48) }
{
    put_line(out, b"p cnf ", variables, clauses)
}

// The line of a refusal.
pub fn put_refusal(out: &mut [u8], number: usize, place: usize) -> usize
    requires { 52 ≤ length out.old }
    ensures { Wrote (refusal_text number place) out.old out.new result × (result ≤ 52) }
{
    put_line(out, b"c refused ", number, place)
}
