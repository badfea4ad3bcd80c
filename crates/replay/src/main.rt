// Runs a journal of any length from standard input on a fresh cache of three records and one line, and prints a row for each of its
// records. It is read in pieces of whole records; the first piece that is not full is the last, and so is one whose rows cannot be
// written.
#![tactic(auto)]

ghost use Rattle.std.specs.Prelude.{◌≡◌, ◌+◌, ◌<◌, ◌^◌, length};
ghost use Rattle.rules.specs.Table.{fresh_gauge};
ghost use Rattle.rules.specs.Calls.{lent, fresh_outcome};
ghost use Rattle.rules.specs.Journal.{going_on, start_run};
ghost use Rattle.replay.specs.Pieces.{piece_records, piece_size, RunsPiece, Replays};

use journal::ENTRY_SIZE;
use records::{LINE_SIZE, RECORD_SIZE};
use rows::ROW_SIZE;
use rules::Gauge;
use runner::Progress;

// The descriptors of standard input and output.
const INPUT: i32 = 0;

const OUTPUT: i32 = 1;

// The bytes of the table: K = 3. The lines are one, C = 1.
const TABLE_SIZE: usize = RECORD_SIZE * 3;

// The records of a full piece, its bytes, and the room for its rows.
const PIECE_RECORDS: usize = 744;

const PIECE_SIZE: usize = ENTRY_SIZE * PIECE_RECORDS;

const ROWS_SIZE: usize = ROW_SIZE * PIECE_RECORDS;

// What a piece leaves: how far its run came, how many bytes were read, and whether its rows were written. (No enum: the count and the
// run are there whether or not the rows were written.)
#[derive(Clone, Copy, Debug)]
struct Ran {
    progress: Progress,
    got: usize,
    wrote: bool,
}

// A proved loop has to end, and nothing says that an input does: the pieces are counted, up to a number that no run reaches.
const MOST_PIECES: u64 = 4503599627370496;

// The memory of a run: the cache's table and lines, a piece of the journal, and the rows of a piece.
#[derive(Drop)]
struct Store {
    table: [u8; TABLE_SIZE],
    lines: [u8; LINE_SIZE],
    piece: [u8; PIECE_SIZE],
    out: [u8; ROWS_SIZE],
}

impl Store {
    // Reads a piece, runs it, and writes its rows.
    fn run_piece(&mut self, gauge: Gauge, numbered: u64) -> Ran
        requires { numbered + piece_records < 2 ^ 64 }
        ensures runs { RunsPiece (going_on (lent self.old.table gauge self.old.lines) numbered) self.new.piece self.old.out result (lent self.new.table result.progress.gauge self.new.lines) self.new.out }
        ensures whole { length self.new.piece ≡ piece_size }
    {
        let got = io::read_full(INPUT, &mut self.piece);
        let journal = &self.piece[..got];
        let ended = runner::run(
            &mut self.table,
            gauge,
            &mut self.lines,
            journal,
            numbered,
            &mut self.out,
        );
        let progress = ended.progress;
        let wrote = io::write_all(OUTPUT, &self.out[..progress.end]);
        Ran {
            progress,
            got,
            wrote,
        }
    }

    // Runs all pieces, one after another, from a given gauge.
    fn run_all(&mut self, gauge: Gauge) -> Ran
        ensures { Replays (start_run (lent self.old.table gauge self.old.lines)) self.new.piece result (lent self.new.table result.progress.gauge self.new.lines) self.new.out }
    {
        let mut t = self.run_piece(gauge, 0);
        for pieces in 0..MOST_PIECES {
            if !t.wrote || t.got < PIECE_SIZE {
                return t;
            }
            t = self.run_piece(t.progress.gauge, t.progress.numbered);
        }
        t
    }

    // Runs all pieces on a cache that starts fresh.
    #[tactic(auto, unfolding(rules::specs::Table::fresh_gauge))]
    fn run_fresh(&mut self) -> Ran
        ensures { Replays (start_run (fresh_outcome (lent self.old.table fresh_gauge self.old.lines)).after) self.new.piece result (lent self.new.table result.progress.gauge self.new.lines) self.new.out }
    {
        let mut gauge = Gauge::default();
        // Three records and a line are good sizes, so this is not refused.
        let _ = cache::fresh(&mut self.table, &mut gauge, &self.lines);
        self.run_all(gauge)
    }
}

fn main() {
    let mut store = Store {
        table: [0; TABLE_SIZE],
        lines: [0; LINE_SIZE],
        piece: [0; PIECE_SIZE],
        out: [0; ROWS_SIZE],
    };
    store.run_fresh();
}
