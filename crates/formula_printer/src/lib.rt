// The formula program: the text of what stands in standard input, to standard output, under movement rule 1. It is gathered and
// written in pieces of 64 KiB or more; the first write that fails ends the program, and so does a read that fails.
#![tactic(auto)]

ghost use Rattle.std.specs.Prelude.{◌≡◌, ◌*◌, ◌≤◌, ◌<◌, T, length, IfOk};
ghost use Rattle.formula.specs.Variables.{variable_count};
ghost use Rattle.formula.specs.Blocks.{times, blocks_at, paired};
ghost use Rattle.counts.specs.Families.{place_of};
ghost use Rattle.dimacs.specs.Text.{words_text};
ghost use Rattle.dimacs.specs.Table.{Begins, Within, Pairs};
ghost use Rattle.formula_printer.specs.Room.{Room, Block};
ghost use Rattle.formula_printer.specs.Output.{answer_status, Ends, input_status, status_number};

use answers::Refusal;
use counts::Family;
use dimacs::WordTexts;
use instance::Problem;
use std::io::Read;

// How a run ended: the formula was printed, the instance was refused, or a read or a write failed.
#[derive(Clone, Copy, Debug, PartialEq, Eq)]
pub enum Status {
    Done,
    Refused,
    Failed,
}

// The exit status.
impl From<Status> for u32 {
    ghost from_gives = { λ status n. n ≡ status_number status };

    fn from(status: Status) -> u32 {
        status as u32
    }
}

// A write failed.
#[derive(Clone, Copy, Debug)]
struct WriteFailed;

// Writes a piece of text.
fn write(text: &[u8]) -> Result<(), WriteFailed> {
    if io::write_all(1, text) {
        Ok(())
    } else {
        Err(WriteFailed)
    }
}

// The words of a block, and the text so far: its first `at` bytes are gathered and not yet written.
#[derive(Drop)]
struct Page<'a> {
    words: &'a mut [i32],
    text: &'a mut [u8],
    at: usize,
    ghost room: { Block words.now text.now },
    ghost less: { at < 65536 },
}

impl Page<'_> {
    // Gathers so many bytes more, which stand behind those. Writes what is gathered where it is 64 KiB or more.
    fn gather(&mut self, more: usize) -> Result<(), WriteFailed>
        requires { more ≤ 48384 }
    {
        let at = self.at + more;
        if at < 65536 {
            self.at = at;
            return Ok(());
        }
        self.at = 0;
        write(&self.text[..at])
    }

    // Writes what is gathered.
    fn finish(&self) -> Result<(), WriteFailed> {
        write(&self.text[..self.at])
    }

    // The one line of a refusal.
    fn print_refusal(&mut self, refusal: Refusal) -> Result<(), WriteFailed> {
        let text = &mut *self.text;
        self.at = dimacs::put_refusal(text, refusal.reason.number() as usize, refusal.place);
        self.finish()
    }
}

// Whether a family's clauses have two literals each, under rule 1.
fn is_paired(family: Family) -> bool
    ensures { result ≡ paired (place_of family) }
{
    matches!(family, Family::D | Family::E | Family::G)
}

// A formula to be printed: its problem, under rule 1, and the texts of its literals and of 0.
#[derive(Clone, Copy)]
struct Formula<'a, 'b> {
    problem: &'a Problem,
    texts: WordTexts<'b>,
    ghost rule: { problem.now.shape.sizes.rule ≡ 1 },
    ghost top: { texts.top ≡ variable_count problem.now.shape.sizes },
}

impl Formula<'_, '_> {
    // The text of a block of a family. Clauses of two literals have a way of their own, which is faster.
    fn put_block(self, text: &mut [u8], words: &[i32], family: Family) -> usize
        requires { Within self.texts.top words.now × (T (paired (place_of family)) → Pairs words.now) × (8 * length words.now ≤ length text.old) }
        ensures { Begins (words_text words.now) text.new result × (result ≤ 8 * length words.now) }
    {
        if is_paired(family) {
            self.texts.put_pairs(text, words)
        } else {
            self.texts.put_words(text, words)
        }
    }

    // The block of t and x of a family, behind what is gathered.
    fn print_block(
        self,
        page: &mut Page,
        family: Family,
        t: usize,
        x: usize,
    ) -> Result<(), WriteFailed>
        requires { (t < times self.problem.now.shape.sizes (place_of family)) × (x < blocks_at self.problem.now.shape.sizes (place_of family)) }
    {
        let words = &mut *page.words;
        let n = families::write_block(words, self.problem, family, t, x);
        let at = page.at;
        let more = self.put_block(&mut page.text[at..], &words[..n], family);
        page.gather(more)
    }

    // A family.
    fn print_family(self, page: &mut Page, family: Family) -> Result<(), WriteFailed> {
        let s = self.problem.shape;
        for t in 0..counts::times_of(s, family) {
            for x in 0..counts::blocks_at(s, family) {
                self.print_block(page, family, t, x)?;
            }
        }
        Ok(())
    }
}

// The formula of a problem: the header, then the seven families. The texts of its literals and of 0 are made first.
fn print_formula(page: &mut Page, texts: &mut [u8], problem: &Problem) -> Result<(), WriteFailed>
    requires room { 540680 ≤ length texts.old }
    requires rule { problem.now.shape.sizes.rule ≡ 1 }
{
    let s = problem.shape;
    let variables = counts::variable_count(s);
    let end = 8 * (2 * variables + 1);
    let texts = WordTexts::new(&mut texts[..end], variables);
    let text = &mut *page.text;
    page.at = dimacs::put_header(text, variables, counts::clause_count(s));
    let formula = Formula { problem, texts };
    for family in Family::ALL {
        formula.print_family(page, family)?;
    }
    page.finish()
}

// Asks 1 to 10 of the instance, under rule 1, and prints the refusal or the formula.
fn print_answer(
    page: &mut Page,
    texts: &mut [u8],
    b: &[u8],
    m: usize,
) -> Result<Status, WriteFailed>
    requires { 540680 ≤ length texts.old }
    ensures { IfOk result (λ status. status_number status ≡ answer_status b.now m) }
{
    match instance_check::check_instance(b, m, 1) {
        Ok(problem) => {
            print_formula(page, texts, &problem)?;
            Ok(Status::Done)
        },
        Err(refusal) => {
            page.print_refusal(refusal)?;
            Ok(Status::Refused)
        },
    }
}

// What an input asks for: its byte m, and the instance behind it. An empty input counts as m 0 and an empty instance.
fn asked(input: &[u8]) -> (usize, &[u8])
    ensures { input_status input.now ≡ answer_status result.1.now result.0 }
{
    match input.split_first() {
        Some((m, b)) => (usize::from(*m), b),
        None => (0, input),
    }
}

// Prints what an input asks for. (The buffers stay three parameters: a public function keeps its own.)
pub fn print_input(words: &mut [i32], text: &mut [u8], texts: &mut [u8], input: &[u8]) -> Status
    requires { Room words.old text.old texts.old }
    ensures { Ends (input_status input.now) (status_number result) }
{
    let (m, b) = asked(input);
    let mut page = Page { words, text, at: 0 };
    print_answer(&mut page, texts, b, m).unwrap_or(Status::Failed)
}

// So many zeros. A long array stands in a function of its own, which says no more than its length.
pub fn zeros<const N: usize>() -> [u8; N]
    ensures { length result ≡ N }
{
    [0; N]
}

// The same, with buffers of its own.
pub fn print(input: &[u8]) -> Status
    ensures { Ends (input_status input.now) (status_number result) }
{
    let mut words = [0i32; 6048];
    let mut text = zeros::<113920>();
    let mut texts = zeros::<540680>();
    print_input(&mut words, &mut text, &mut texts, input)
}

// Reads until the slice is full, or to the end. (`read_exact` gives no count where the end comes first, and `read_to_end` needs a heap.)
fn read_input<R: Read>(reader: &mut R, input: &mut [u8]) -> std::io::Result<usize>
    ensures { IfOk result (λ n. n ≤ length input.new) }
{
    let mut at: usize = 0;
    while at < input.len() {
        let n = reader.read(&mut input[at..])?;
        if n == 0 {
            break;
        }
        at += n;
    }
    Ok(at)
}

// The whole program: reads at most 4,070 bytes, the byte m and an instance, and prints. An error says why a read failed.
pub fn run<R: Read>(reader: &mut R) -> std::io::Result<Status> {
    let mut input = [0u8; 4070];
    let n = read_input(reader, &mut input)?;
    Ok(print(&input[..n]))
}
