//! The word, the right to publish, and the passes of its readers.

ghost use Rattle.std.specs.Prelude.{◌≡◌, ◌<◌, ◌^◌, Some, IfOk};
ghost use Rattle.asset_names.specs.Counted.{IsBelow};
ghost use Rattle.asset_counts.specs.Shown.{no_counts, IsPackable, packed};
ghost use Rattle.asset_counts.specs.Pass.{IsOf};

use crate::rule::{Enter, Keep, Last, Look, Publish, Published};
use asset_names::{Counts, NoMemory};
use atomic_table::{Seat, Table};
use std::alloc::Global;
use std::marker::Model;

/// The counts that were published last, in one word that any thread may read. Contracts see which word it is.
#[derive(Drop)]
pub struct Watch {
    table: Table<u8, Last, (), Published, Global>,
}

impl Model for Watch {
    ghost use Rattle.std.specs.Prelude.{◌≡◌};
    ghost use Rattle.atomic_table.specs.Seated.{TableId, table_id_coded};

    ghost Value = { TableId };

    ghost coded = { table_id_coded };

    ghost view = { λ w. w.table.shared.table_id };

    ghost invariant = { λ w. w.table.shared.table_id.words ≡ 1 };
}

/// The right to publish, of which each word has one. Contracts see its word, and the counts that it published last.
#[derive(Drop)]
pub struct Publisher {
    seat: Seat<u8, Last>,
}

impl Model for Publisher {
    ghost use Rattle.std.specs.Prelude.{◌≡◌, true, []};
    ghost use Rattle.asset_counts.specs.Pass.{Pass, pass_coded};

    ghost Value = { Pass };

    ghost coded = { pass_coded };

    ghost view = { λ p. record { of = p.seat.table_id; last = p.seat.me.0.last } };

    ghost invariant = { λ p. (p.seat.me.0.publishes ≡ true) × (p.seat.me.1 ≡ []) };
}

/// A reader of the word. Contracts see its word, and the counts that it saw last.
#[derive(Drop)]
struct Reader {
    seat: Seat<u8, Last>,
}

impl Model for Reader {
    ghost use Rattle.std.specs.Prelude.{◌≡◌, false, []};
    ghost use Rattle.asset_counts.specs.Pass.{Pass, pass_coded};

    ghost Value = { Pass };

    ghost coded = { pass_coded };

    ghost view = { λ p. record { of = p.seat.table_id; last = p.seat.me.0.last } };

    ghost invariant = { λ p. (p.seat.me.0.publishes ≡ false) × (p.seat.me.1 ≡ []) };
}

/// How far somebody has seen the published counts. Contracts see its word, and the counts that it saw last, which are
/// zeros if it has no word. It is `Send`.
#[derive(Drop)]
pub struct WatchPass {
    reader: Option<Reader>,
}

impl Model for WatchPass {
    ghost use Rattle.asset_counts.specs.Pass.{PassSeen};

    ghost Value = { PassSeen };

    ghost use Rattle.asset_counts.specs.Seen.{seen_by};

    ghost view = { seen_by };
}

impl WatchPass {
    ghost use Rattle.std.specs.Prelude.{◌≡◌, None};
    ghost use Rattle.asset_counts.specs.Shown.{no_counts};

    /// Returns a pass without a word, which has seen nothing. The first word that is read by it becomes its own.
    pub fn none() -> WatchPass
        ensures of { result.of ≡ None }
        ensures last { result.last ≡ no_counts }
    {
        WatchPass { reader: None }
    }
}

impl Watch {
    /// Returns a word that shows zeros, and the right to publish there. It answers `NoMemory` if memory runs out.
    pub fn open(alloc: Global) -> Result<(Watch, Publisher), NoMemory>
        ensures { IfOk result (λ r. (r.1.of ≡ r.0) × (r.1.last ≡ no_counts)) }
    {
        match Table::of_words(alloc, &[0], &()) {
            Ok((table, seat)) => Ok((Watch { table }, Publisher { seat })),
            Err(_) => Err(NoMemory),
        }
    }

    /// Publishes counts, none of which is below the one before it. Each is below 2^20, so that the three fit one word.
    pub fn publish(&self, by: &mut Publisher, counts: Counts)
        requires own { by.old.of ≡ self.now }
        requires fits { IsPackable counts }
        requires rises { IsBelow by.old.last counts }
        ensures own { by.new.of ≡ by.old.of }
        ensures last { by.new.last ≡ counts }
    {
        let word = counts.entries * (1 << 40) + counts.committed * (1 << 20) + counts.aborted;
        self.table.shared.store::<Publish>(&mut by.seat, 0, word);
    }

    /// Returns the counts of one publication, none below what the pass saw before: zeros are published from the start.
    /// It is one atomic load, or two if the pass has no word yet, so it takes no lock and waits for nobody.
    pub fn read(&self, pass: &mut WatchPass) -> Counts
        requires own { IsOf pass.old.of self.now }
        ensures own { pass.new.of ≡ Some self.now }
        ensures last { pass.new.last ≡ result }
        ensures later { IsBelow pass.old.last result }
    {
        let mut reader = match pass.reader.take() {
            Some(reader) => reader,
            None => self.enter(),
        };
        let counts = self.look(&mut reader);
        pass.reader = Some(reader);
        counts
    }

    /// Returns the counts that the word shows.
    fn look(&self, reader: &mut Reader) -> Counts
        requires own { reader.old.of ≡ self.now }
        ensures own { reader.new.of ≡ reader.old.of }
        ensures last { reader.new.last ≡ result }
        ensures later { IsBelow reader.old.last result }
    {
        let word = self.table.shared.load::<Look>(&mut reader.seat, 0);
        Counts {
            entries: word / (1 << 40),
            committed: word / (1 << 20) % (1 << 20),
            aborted: word % (1 << 20),
        }
    }

    /// Returns a new reader, which has seen what the word shows now.
    fn enter(&self) -> Reader
        ensures { result.of ≡ self.now }
    {
        let (_, seat) = self.table.shared.load_new_seat::<Enter>(0);
        Reader { seat }
    }

    /// Returns a pass that has seen what was published.
    pub fn pass_of(&self, by: &mut Publisher) -> WatchPass
        requires { by.old.of ≡ self.now }
        ensures same { by.new ≡ by.old }
        ensures of { result.of ≡ Some self.now }
        ensures last { result.last ≡ by.old.last }
    {
        let seat = self.table.shared.split_seat::<Keep>(&mut by.seat);
        WatchPass {
            reader: Some(Reader { seat }),
        }
    }

    /// Returns another pass, which has seen as much.
    pub fn split(&self, pass: &mut WatchPass) -> WatchPass
        requires { IsOf pass.old.of self.now }
        ensures same { pass.new ≡ pass.old }
        ensures given { result ≡ pass.old }
    {
        match &mut pass.reader {
            Some(reader) => WatchPass {
                reader: Some(self.second(reader)),
            },
            None => WatchPass { reader: None },
        }
    }

    /// Returns another reader, which has seen as much.
    fn second(&self, reader: &mut Reader) -> Reader
        requires { reader.old.of ≡ self.now }
        ensures same { reader.new ≡ reader.old }
        ensures given { result ≡ reader.old }
    {
        let seat = self.table.shared.split_seat::<Keep>(&mut reader.seat);
        Reader { seat }
    }

    /// Takes another pass of the word in. What it has seen is not taken over.
    pub fn join(&self, pass: &mut WatchPass, other: WatchPass)
        requires own { IsOf pass.old.of self.now }
        requires other { IsOf other.of self.now }
        ensures { pass.new ≡ pass.old }
    {
        let WatchPass { reader: theirs } = other;
        if let Some(theirs) = theirs {
            if let Some(mine) = &mut pass.reader {
                self.absorb(mine, theirs);
            }
        }
    }

    /// Takes another reader of the word in.
    fn absorb(&self, reader: &mut Reader, other: Reader)
        requires own { reader.old.of ≡ self.now }
        requires other { other.of ≡ self.now }
        ensures { reader.new ≡ reader.old }
    {
        let Reader { seat } = other;
        self.table.shared.join_seat::<Keep>(&mut reader.seat, seat);
    }
}
