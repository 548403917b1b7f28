//! Memtables.
ghost use Rattle.std.specs.Prelude.{◌≡◌, ◌<◌, ◌≤◌, length, IfOk, IfSome, OnOk, OnErr};
ghost use Rattle.std.specs.Option.{option_copied};
ghost use Rattle.td_layer.specs.Columns.{AreColumnCells};
ghost use Rattle.td_memtree.specs.Keys.{item_at};
ghost use Rattle.td_memtable.specs.Contents.{nothing_held, put_on, with_put, later_end, with_cut};

use std::alloc::Global;
use std::marker::Model;
use td_layer::{Birth, Key, NoMem, Partial, cells_over};
use td_limits::MEMTABLE_PARTS;
use td_memtree::Tree;
use td_model::Put;

/// The parts of the newest entries, in memory. Contracts see the put of each key, the cuts, and how many parts it took.
#[derive(Drop)]
pub struct Memtable {
    pub(crate) alloc: Global,
    pub(crate) puts: Tree<Partial>,
    // By table and first timestamp, the last timestamp.
    pub(crate) cuts: Tree<u64>,
    held: u32,
}

impl Model for Memtable {
    ghost use Rattle.td_memtable.specs.Contents.{Contents, IsSound};

    ghost Value = { Contents };

    ghost view = { λ m. record { puts = m.puts; cuts = m.cuts; held = m.held } };

    ghost invariant = { λ m. IsSound (record { puts = m.puts; cuts = m.cuts; held = m.held }) };
}

// A put over that of its key, if there is one, whose birth is kept.
fn put_on(alloc: Global, put: &Put, birth: Birth, under: Option<&Partial>) -> Result<Partial, NoMem>
    requires { IfSome (option_copied under) (λ p. length put.now.cells ≡ length p.cells) }
    ensures { IfOk result (λ p. p ≡ put_on (record { birth = birth; cells = put.now.cells })
        (option_copied under.entry)) }
{
    match under {
        None => {
            let cells = put.cells.copy()?;
            Ok(Partial { birth, cells })
        }
        Some(under) => {
            let cells = cells_over(alloc, put.cells.as_slice(), under.cells.as_slice())?;
            Ok(Partial {
                birth: under.birth,
                cells,
            })
        }
    }
}

fn later_end(hi: u64, other: Option<&u64>) -> u64
    ensures { result ≡ later_end hi (option_copied other.entry) }
{
    match other {
        None => hi,
        Some(other) => hi.max(*other),
    }
}

impl Memtable {
    /// A memtable that holds nothing. It takes no memory.
    pub fn empty(alloc: Global) -> Memtable
        ensures { result ≡ nothing_held }
    {
        Memtable {
            alloc,
            puts: Tree::new(),
            cuts: Tree::new(),
            held: 0,
        }
    }

    /// How many puts and cuts it took, those on one key too. They are at most 65536, and it has no more puts and no
    /// more cuts.
    pub fn held(&self) -> u32
        ensures count { result ≡ self.now.held }
        ensures most { result ≤ MEMTABLE_PARTS }
        ensures puts { length self.now.puts ≤ result }
        ensures cuts { length self.now.cuts ≤ result }
    {
        self.held
    }

    /// The same memtable, of the same nodes, for a reader to keep: what is put here afterwards doesn't change it.
    pub fn share(&self) -> Result<Memtable, NoMem>
        ensures { IfOk result (λ m. m ≡ self.now) }
    {
        let puts = self.puts.share()?;
        let cuts = self.cuts.share()?;
        Ok(Memtable {
            alloc: self.alloc,
            puts,
            cuts,
            held: self.held,
        })
    }

    /// Lays a put over that of its key. A key without one gets the birth; a put that is there keeps its own. Where
    /// there is no memory the memtable stays as it was.
    pub fn put(&mut self, put: &Put, birth: Birth) -> Result<(), NoMem>
        requires room { self.old.held < MEMTABLE_PARTS }
        requires values { AreColumnCells put.now.cells }
        requires width { IfSome (item_at put.now.key self.old.puts)
            (λ under. length put.now.cells ≡ length under.cells) }
        ensures ok { OnOk result (self.new ≡ with_put put.now.key
            (record { birth = birth; cells = put.now.cells }) self.old) }
        ensures err { OnErr result (self.new ≡ self.old) }
    {
        let part = put_on(self.alloc, put, birth, self.puts.get(put.key))?;
        self.puts.set(self.alloc, put.key, part)?;
        self.held += 1;
        Ok(())
    }

    /// Forgets the puts of a table, by number, from `lo` to `hi`, both among them, and notes the cut. Where `lo` is
    /// beyond `hi` the cut is counted and changes nothing else. Where there is no memory the memtable stays as it was.
    pub fn cut(&mut self, table: u32, lo: u64, hi: u64) -> Result<(), NoMem>
        requires room { self.old.held < MEMTABLE_PARTS }
        ensures ok { OnOk result (self.new ≡ with_cut table lo hi self.old) }
        ensures err { OnErr result (self.new ≡ self.old) }
    {
        if lo > hi {
            self.held += 1;
            return Ok(());
        }
        let first = Key { table, ts: lo };
        let last = Key { table, ts: hi };
        let puts = self.puts.remove_range(self.alloc, first, last)?;
        let end = later_end(hi, self.cuts.get(first));
        let cuts = self.cuts.insert(self.alloc, first, end)?;
        self.puts = puts;
        self.cuts = cuts;
        self.held += 1;
        Ok(())
    }
}
