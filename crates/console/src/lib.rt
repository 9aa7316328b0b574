// What a program is given where it is started, and what it shows there: arguments, input and text. A read that fails is the end of the
// input, and of a write that fails nothing is said.
#![tactic(auto, using(line::proofs::WritingLaws::laying))]

ghost use Rattle.std.specs.Prelude.{◌≡◌, ◌-◌, ◌≤◌, ltb, cond, [], ◌∷◌, length, take};
ghost use Rattle.line.specs.Digits.{hex_of, each};
ghost use Rattle.line.specs.Writing.{Laid, spaced, bits_text, reason_text, answer_text, block_text, event_text, bad_text};
ghost use Rattle.console.specs.Text.{wrong_text, verdict_text, list_text};
ghost use Rattle.std.specs.Io.KnownBytes.{Consumes};

use runner::Event;
use std::io::Read;
use std::rt::Env;

// Puts an argument at a buffer's start and answers its length: 0 where there is none, or it is longer than the buffer.
// Stays: what `arg` answers may not change; `word` has the bytes themselves.
pub fn arg(rt: &impl Env, i: usize, buf: &mut [u8]) -> usize
    ensures { result ≤ length buf.old }
{
    rt.arg(i, buf).unwrap_or(0)
}

// The argument's own bytes, in a buffer that is lent for them: none where there is none, or it is longer than the buffer.
pub fn word<'a>(rt: &impl Env, i: usize, buf: &'a mut [u8]) -> &'a [u8]
    ensures { length result.now ≤ length buf.old }
{
    let end = arg(rt, i, buf);
    octets::part(buf, 0, end)
}

// Reads a piece of input into a buffer's start: the next bytes, so many of them, none where it has ended.
pub fn read_some<R: Read>(input: &mut R, buf: &mut [u8]) -> usize
    ensures within { result ≤ length buf.old }
    ensures bytes { Consumes (R.remaining input.old) (R.remaining input.new) (take result buf.new) }
{
    input.read(buf).unwrap_or(0)
}

// Reads until a buffer is full or the input ends, and answers how many of the next bytes it has put at the buffer's start.
// Stays: a `for` is no plainer, since no places are counted: each turn puts as many bytes as the input gives.
pub fn read_full<R: Read>(input: &mut R, buf: &mut [u8]) -> usize
    ensures within { result ≤ length buf.old }
    ensures bytes { Consumes (R.remaining input.old) (R.remaining input.new) (take result buf.new) }
{
    let mut done = 0;
    while done < buf.len() {
        let n = read_some(input, &mut buf[done..]);
        if n == 0 {
            return done;
        }
        done += n;
    }
    done
}

// Shows a text.
pub fn show(rt: &impl Print, text: &[u8]) {
    let _ = rt.write_all(text);
}

// A page of text that waits to be shown: the bytes lent for it, and the place where the next text goes.
#[derive(Drop)]
pub struct Page<'a> {
    text: &'a mut [u8],
    at: usize,
}

impl<'a> Page<'a> {
    // An empty page over bytes that are lent.
    pub fn over(text: &'a mut [u8]) -> Page<'a>
        ensures same { result.text.ghost_name ≡ text.entry.ghost_name }
        ensures bytes { result.text.now ≡ text.old }
        ensures start { result.at ≡ 0 }
    {
        Page { text, at: 0 }
    }

    // The text that waits.
    fn waiting(&self) -> &[u8]
        ensures { result.now ≡ take self.now.at self.now.text.now }
    {
        octets::part(self.text, 0, self.at)
    }

    // Shows the page, which is empty then.
    pub fn show(&mut self, rt: &impl Print)
        ensures same { self.new.text.ghost_name ≡ self.old.text.ghost_name }
        ensures bytes { self.new.text.now ≡ self.old.text.now }
        ensures start { self.new.at ≡ 0 }
    {
        show(rt, self.waiting());
        self.at = 0;
    }

    // Makes room for n bytes: the page is shown where it has less.
    pub fn make_room(&mut self, rt: &impl Print, n: usize)
        ensures same { self.new.text.ghost_name ≡ self.old.text.ghost_name }
        ensures bytes { self.new.text.now ≡ self.old.text.now }
        ensures place { self.new.at ≡ cond (ltb (length self.old.text.now - self.old.at) n) 0 self.old.at }
    {
        if self.text.len().saturating_sub(self.at) < n {
            self.show(rt);
        }
    }

    // Puts a byte.
    pub fn put(&mut self, b: u8)
        ensures same { self.new.text.ghost_name ≡ self.old.text.ghost_name }
        ensures laid { Laid self.old.text.now self.new.text.now self.old.at self.new.at (b ∷ []) }
    {
        self.at = line::put(self.text, self.at, b);
    }

    // Puts a word, or any bytes.
    pub fn put_word(&mut self, word: &[u8])
        ensures same { self.new.text.ghost_name ≡ self.old.text.ghost_name }
        ensures laid { Laid self.old.text.now self.new.text.now self.old.at self.new.at (word.now) }
    {
        self.at = line::put_word(self.text, self.at, word);
    }

    // Puts a blank and a number.
    pub fn put_number(&mut self, n: u64)
        ensures same { self.new.text.ghost_name ≡ self.old.text.ghost_name }
        ensures laid { Laid self.old.text.now self.new.text.now self.old.at self.new.at (spaced n) }
    {
        self.at = line::put_blank_number(self.text, self.at, n);
    }

    // Puts the numbers of a list, each after a blank.
    pub fn put_numbers(&mut self, list: &[u8])
        ensures same { self.new.text.ghost_name ≡ self.old.text.ghost_name }
        ensures laid { Laid self.old.text.now self.new.text.now self.old.at self.new.at (each spaced list.now) }
    {
        self.at = line::put_numbers(self.text, self.at, list);
    }

    // Puts the numbers of the bits that are set, from the most significant on, which has number 0.
    pub fn put_bits(&mut self, bits: u64)
        ensures same { self.new.text.ghost_name ≡ self.old.text.ghost_name }
        ensures laid { Laid self.old.text.now self.new.text.now self.old.at self.new.at (bits_text bits 0) }
    {
        self.at = line::put_bits(self.text, self.at, bits, 0);
    }

    // Puts bytes in hex digits.
    pub fn put_octets(&mut self, bytes: &[u8])
        ensures same { self.new.text.ghost_name ≡ self.old.text.ghost_name }
        ensures laid { Laid self.old.text.now self.new.text.now self.old.at self.new.at (each hex_of bytes.now) }
    {
        self.at = line::put_octets(self.text, self.at, bytes);
    }

    // Puts a reason of a 7, by its number and value.
    pub fn put_reason(&mut self, number: u8, value: u8)
        ensures same { self.new.text.ghost_name ≡ self.old.text.ghost_name }
        ensures laid { Laid self.old.text.now self.new.text.now self.old.at self.new.at (reason_text number value) }
    {
        self.at = line::put_reason(self.text, self.at, number, value);
    }

    // Puts what is wrong with a line list, by its card, behind the words given.
    fn put_wrong(&mut self, card: &[u8], bad: &[u8])
        ensures same { self.new.text.ghost_name ≡ self.old.text.ghost_name }
        ensures laid { Laid self.old.text.now self.new.text.now self.old.at self.new.at (wrong_text card.now bad.now) }
    {
        self.put_word(bad);
        self.put_reason(octets::byte(card, 0), octets::byte(card, 1));
    }

    // Puts what a line list's card says: good, with its marks, or what is wrong.
    fn put_verdict(&mut self, card: &[u8], bad: &[u8])
        ensures same { self.new.text.ghost_name ≡ self.old.text.ghost_name }
        ensures laid { Laid self.old.text.now self.new.text.now self.old.at self.new.at (verdict_text card.now bad.now) }
    {
        if octets::byte(card, 0) == 0 {
            self.put_word(b" GOOD ");
            self.at = line::put_marks(self.text, self.at, octets::byte(card, 2));
        } else {
            self.put_wrong(card, bad);
        }
    }

    // Puts the line of a line list, by its number and its card, with the words before what is wrong.
    pub fn put_list(&mut self, n: u8, card: &[u8], bad: &[u8])
        ensures same { self.new.text.ghost_name ≡ self.old.text.ghost_name }
        ensures laid { Laid self.old.text.now self.new.text.now self.old.at self.new.at (list_text n card.now bad.now) }
    {
        self.put_word(b"LIST");
        self.put_number(u64::from(n));
        self.put_verdict(card, bad);
        self.put(b'\n');
    }

    // Puts the answer to a packet: its BC1 and the code.
    pub fn put_answer(&mut self, bc1: u8, code: u8)
        ensures same { self.new.text.ghost_name ≡ self.old.text.ghost_name }
        ensures laid { Laid self.old.text.now self.new.text.now self.old.at self.new.at (answer_text bc1 code) }
    {
        self.at = line::put_answer(self.text, self.at, bc1, code);
    }

    // Puts the block that answers a packet: a status or a dump.
    pub fn put_block(&mut self, status: bool, bytes: &[u8])
        ensures same { self.new.text.ghost_name ≡ self.old.text.ghost_name }
        ensures laid { Laid self.old.text.now self.new.text.now self.old.at self.new.at (block_text status bytes.now) }
    {
        self.at = line::put_block(self.text, self.at, status, bytes);
    }

    // Puts what a step shows, by the count of exposures after it.
    pub fn put_event(&mut self, event: Event, count: u16)
        ensures same { self.new.text.ghost_name ≡ self.old.text.ghost_name }
        ensures laid { Laid self.old.text.now self.new.text.now self.old.at self.new.at (event_text count event) }
    {
        self.at = line::put_event(self.text, self.at, event, count);
    }

    // Puts the answer to a line that is neither a packet nor steps.
    pub fn put_bad(&mut self)
        ensures same { self.new.text.ghost_name ≡ self.old.text.ghost_name }
        ensures laid { Laid self.old.text.now self.new.text.now self.old.at self.new.at (bad_text) }
    {
        self.at = line::put_bad(self.text, self.at);
    }
}
