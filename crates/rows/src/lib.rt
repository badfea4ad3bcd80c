// The rows that a run prints: number, word, total and ceiling, in decimal.
#![tactic(auto)]

ghost use Rattle.std.specs.Prelude.{[], ◌∷◌, ◌++◌, length};
ghost use Rattle.rules.specs.Journal.{digits, decimal, refused_word, word_of, printed};
ghost use Rattle.rows.specs.Written.{row_size, HasRoom, Puts};

use rules::{Answer, Gauge, Refusal};

// The most bytes that a row takes.
pub const ROW_SIZE: usize = 92;

// Rows in lent bytes: where they lie, and where the next byte goes.
#[derive(Drop)]
pub struct Rows<'a> {
    pub out: &'a mut [u8],
    pub end: usize,
}

impl Rows<'_> {
    // Writes bytes.
    #[tactic(auto, unfolding(crate::specs::Written::written))]
    fn put(&mut self, bytes: &[u8])
        requires { HasRoom self.old (length bytes.now) }
        ensures { Puts self.old bytes.now self.new }
    {
        let end = self.end + bytes.len();
        self.out[self.end..end].copy_from_slice(bytes);
        self.end = end;
    }

    // Writes one byte. (By itself, and not as a slice of one, since digits are most of what `replay` does.)
    fn put_byte(&mut self, byte: u8)
        requires { HasRoom self.old 1 }
        ensures { Puts self.old (byte ∷ []) self.new }
    {
        self.out[self.end] = byte;
        self.end += 1;
    }

    // Writes the last digits of a number, at most so many. (By hand: `write!` says what it wrote only where it gives `Ok`, and nothing
    // says when it does, while a row is always written.)
    #[tactic(auto, using(crate::proofs::Digits::writing))]
    fn put_digits(&mut self, most: usize, n: u64)
        requires { HasRoom self.old most }
        ensures { Puts self.old (digits most n) self.new }
    {
        if most == 0 {
            return;
        }
        if n < 10 {
            self.put_byte(b'0' + n as u8);
            return;
        }
        self.put_digits(most - 1, n / 10);
        self.put_byte(b'0' + (n % 10) as u8);
    }

    // Writes a refusal's word, with its number.
    #[tactic(auto, unfolding(rules::specs::Journal::decimal), using(crate::proofs::Sizes::joins))]
    fn put_refused(&mut self, cause: u64)
        requires { HasRoom self.old 28 }
        ensures { Puts self.old (refused_word ++ decimal cause) self.new }
    {
        self.put(b"refused-");
        self.put_digits(20, cause);
    }

    // Writes a space and a number.
    #[tactic(auto, unfolding(rules::specs::Journal::decimal), using(crate::proofs::Sizes::joins))]
    fn put_number(&mut self, n: u64)
        requires { HasRoom self.old 21 }
        ensures { Puts self.old (32 ∷ decimal n) self.new }
    {
        self.put_byte(b' ');
        self.put_digits(20, n);
    }

    // Writes what ends a row: total and ceiling.
    #[tactic(auto, unfolding(rules::specs::Journal::decimal), using(crate::proofs::Sizes::joins))]
    fn put_gauge(&mut self, gauge: Gauge)
        requires { HasRoom self.old 43 }
        ensures { Puts self.old ((32 ∷ decimal gauge.total) ++ (32 ∷ decimal gauge.ceiling) ++ (10 ∷ [])) self.new }
    {
        self.put_number(gauge.total);
        self.put_number(gauge.ceiling);
        self.put_byte(b'\n');
    }

    // Writes the row of a refusal by any number, also by one that no cause has.
    #[tactic(auto, unfolding(rules::specs::Journal::printed, rules::specs::Journal::decimal), using(crate::proofs::Sizes::joins))]
    pub fn put_refused_row(&mut self, number: u64, cause: u64, gauge: Gauge)
        requires { HasRoom self.old row_size }
        ensures { Puts self.old (printed (record { number = number; word = refused_word ++ decimal cause; total = gauge.total; ceiling = gauge.ceiling })) self.new }
    {
        self.put_digits(20, number);
        self.put_byte(b' ');
        self.put_refused(cause);
        self.put_gauge(gauge);
    }

    // Writes a row: number, word, total, ceiling.
    #[tactic(auto, unfolding(rules::specs::Journal::printed, rules::specs::Journal::decimal, rules::specs::Journal::word_of), using(crate::proofs::Sizes::joins))]
    pub fn put_row(&mut self, number: u64, reply: Result<Answer, Refusal>, gauge: Gauge)
        requires { HasRoom self.old row_size }
        ensures { Puts self.old (printed (record { number = number; word = word_of reply; total = gauge.total; ceiling = gauge.ceiling })) self.new }
    {
        let answer = match reply {
            Ok(answer) => answer,
            Err(cause) => return self.put_refused_row(number, cause.into(), gauge),
        };
        self.put_digits(20, number);
        self.put_byte(b' ');
        self.put(answer.word().as_bytes());
        self.put_gauge(gauge);
    }
}
