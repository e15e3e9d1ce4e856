// What a thread ended with, for those who wait for it.
ghost use Rattle.std.specs.Prelude.{◌≡◌, ◌*◌, ◌<◌, length};
ghost use Rattle.machine.specs.Tables.{tables_of};
ghost use Rattle.tables.specs.Good.{Good};
ghost use Rattle.endings.specs.Contract.{Delivers, Receivers};

// All who wait at a place get the result, each in its top cell, and go to the ready tail in their order. Each has
// such a cell: join needed it, and it stays while the thread waits.
pub fn deliver(store: &mut [i32], tables: &mut [usize], size: usize, from: usize, v: i32)
    requires good { Good size tables.old }
    requires store_len { length store.old ≡ 256 * size }
    requires lt_from { 3 < from }
    requires receivers { Receivers size from (tables_of size tables.old) }
    ensures { Delivers size from v store.old tables.old store.new tables.new }
{
    while let Some(t) = tables::dequeue(tables, size, from, 0) {
        let cells = tables::saved(tables, size, t).cells;
        cells::poke(store, size, t.0, cells - 1, v);
        tables::make_ready(tables, size, t);
    }
}
